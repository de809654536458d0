//! Whether the names of symbols are all different, in time near linear in their number and with no
//! memory: their numbers are sorted by name, and neighbours compared.

ghost use Rattle.std.specs.Prelude.{◌≡◌, ◌≢◌, ℕ, ◌+◌, ◌<◌, ◌≤◌, ◌↔◌, IsTrue, false, length, slice_index, EachIndex};
ghost use Rattle.std.specs.List.Sorted.{IsPermutation};
ghost use Rattle.std.specs.Ordering.{is_lt, nat_cmp};
ghost use Rattle.std.specs.Cmp.Lexicographic.{slice_cmp};
ghost use Rattle.c25_module.specs.Differing as spec;
ghost use Rattle.c25_module.specs.View.{symbols_data};

use crate::parts::Symbol;

/// The most symbols that a module may have: a two-byte number names each.
pub const MAX_SYMBOLS: usize = 65_535;

/// The name of the symbol of a number; empty where there is none.
fn name_at(symbols: &[Symbol], number: u16) -> &str
    ensures { result.now ≡ spec.name_at (symbols_data symbols.now) number }
{
    match symbols.get(number as usize) {
        Some(symbol) => &symbol.name,
        None => "",
    }
}

/// Fills a list with 0, 1, 2 and so on.
fn count_up(numbers: &mut [u16])
    requires { length numbers.old ≤ 65535 }
    ensures { EachIndex numbers.new (λ k. slice_index numbers.new k ≡ k) }
{
    for (i, number) in numbers.iter_mut().enumerate() {
        *number = i as u16;
    }
}

fn sort_by_name(symbols: &[Symbol], numbers: &mut [u16])
    ensures permutation { IsPermutation numbers.old numbers.new }
    ensures sorted { spec.IsSortedByName (symbols_data symbols.now) numbers.new }
{
    numbers.sort_unstable_by(|a, b| name_at(symbols, *a).cmp(name_at(symbols, *b)));
}

fn neighbours_differ(symbols: &[Symbol], numbers: &[u16]) -> bool
    ensures { IsTrue result ↔ spec.NeighboursDiffer (symbols_data symbols.now) numbers.now }
{
    for i in 1..numbers.len() {
        if name_at(symbols, numbers[i - 1]) == name_at(symbols, numbers[i]) {
            return false;
        }
    }
    true
}

/// Whether no two symbols have one name. `numbers` has room for the symbols' numbers.
fn numbers_differ(symbols: &[Symbol], numbers: &mut [u16]) -> bool
    requires room { length numbers.old ≡ length symbols.now }
    requires few { length symbols.now ≤ 65535 }
    ensures { IsTrue result ↔ spec.NamesDiffer (symbols_data symbols.now) }
{
    count_up(numbers);
    sort_by_name(symbols, numbers);
    neighbours_differ(symbols, numbers)
}

/// Whether no two symbols have one name. It takes no memory from the heap.
pub(crate) fn names_differ(symbols: &[Symbol]) -> bool
    requires { length symbols.now ≤ 65535 }
    ensures { IsTrue result ↔ spec.NamesDiffer (symbols_data symbols.now) }
{
    let mut room = [0; MAX_SYMBOLS];
    numbers_differ(symbols, &mut room[..symbols.len()])
}
