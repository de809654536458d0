//! The reading of a hex text, line by line.

ghost use Rattle.std.specs.Prelude.{◌≡◌, ◌≤◌, ◌<◌, ◌+◌, ◌^◌, length, slice_index, is_some, IsTrue, OnOk, MatchResult, Ok, Err, vec_len};
ghost use Rattle.std.specs.List.{list_all, list_any};
ghost use Rattle.c25_hex.specs.Hex as spec;
ghost use Rattle.c25_hex.specs.Cells.{cells_map, has_odd_pair, same_given};
ghost use Rattle.c25_meaning_common.specs.Bytes.{is_blank};
ghost use Rattle.c25_meaning_common.specs.Results.{Meets};
ghost use Rattle.c25_hex.specs.View.{code_of, hex_state};

use crate::hex_fault::HexFault;
use crate::kind::Kind;
use crate::line::{bytes_of, kind_of};
use crate::state::Reader;
use c25_meaning_common::bytes::is_blank;
use c25_meaning_common::failure::Failure;
use std::alloc::Global;

/// Whether a line has nothing but blanks and tabs.
fn all_blank(line: &[u8]) -> bool
    ensures { result ≡ list_all is_blank line.now }
{
    line.iter().all(|b| is_blank(*b))
}

fn any_given(cells: &[Option<u8>]) -> bool
    ensures { result ≡ list_any is_some cells.now }
{
    cells.iter().any(|cell| cell.is_some())
}

/// Whether one of the bytes at these addresses has been given already.
fn gives_again(cells: &[Option<u8>], place: usize, bytes: &[u8]) -> bool
    requires { place + length bytes.now ≤ length cells.now }
    ensures { result ≡ spec.gives_again (cells_map cells.now) place bytes.now }
{
    any_given(&cells[place..place + bytes.len()])
}

fn same_given(high: Option<u8>, low: Option<u8>) -> bool
    ensures { result ≡ same_given high low }
{
    high.is_some() == low.is_some()
}

fn has_odd_pair(cells: &[Option<u8>]) -> bool
    ensures { result ≡ has_odd_pair cells.now }
{
    let mut rest = cells;
    while let [high, low, after @ ..] = rest {
        if !same_given(*high, *low) {
            return true;
        }
        rest = after;
    }
    any_given(rest)
}

/// Whether one byte alone of some word has been given.
fn has_odd_word(cells: &[Option<u8>]) -> bool
    ensures { result ≡ spec.has_odd_word (cells_map cells.now) }
{
    has_odd_pair(cells)
}

/// Puts bytes into the cells from a place on.
fn put_bytes(cells: &mut Vec<Option<u8>>, place: usize, bytes: &[u8])
    requires { place + length bytes.now ≤ vec_len cells.old }
    ensures put { cells_map cells.new.items ≡ spec.put_bytes (cells_map cells.old.items) place bytes.now }
    ensures sized { vec_len cells.new ≡ vec_len cells.old }
{
    for i in 0..bytes.len() {
        cells[place + i] = Some(bytes[i]);
    }
}

/// The number that two bytes of a line make, the high one first.
fn pair_at(bytes: &[u8], at: usize) -> usize
    requires { at + 2 ≤ length bytes.now }
    ensures pair { result ≡ spec.pair_at bytes.now at }
    ensures bound { result < 2 ^ 16 }
{
    256 * bytes[at] as usize + bytes[at + 1] as usize
}

impl Reader {
    /// Takes the bytes of a data line.
    #[tactic(auto, unfolding(crate::specs::Hex::with_bytes))]
    fn take_bytes(&mut self, address: usize, bytes: &[u8]) -> Result<(), HexFault>
        requires address_in { address < 2 ^ 16 }
        requires short { length bytes.now < 2 ^ 8 }
        ensures { MatchResult result
            (λ _. spec.with_bytes (hex_state self.old) address bytes.now ≡ Ok (hex_state self.new))
            (λ f. spec.with_bytes (hex_state self.old) address bytes.now ≡ Err f) }
    {
        let count = bytes.len();
        let place = self.base + address;
        if address + count > 65_536 || (count > 0 && place + count > 131_072) {
            return Err(HexFault::AddressRange);
        }
        if count == 0 {
            return Ok(());
        }
        if gives_again(&self.bytes, place, bytes) {
            return Err(HexFault::Twice);
        }
        put_bytes(&mut self.bytes, place, bytes);
        Ok(())
    }

    /// Takes a line whose form has been checked.
    #[tactic(auto, unfolding(crate::specs::Hex::after_bytes))]
    fn take_checked_line(&mut self, kind: Kind, bytes: &[u8]) -> Result<(), HexFault>
        requires long { 5 ≤ length bytes.now }
        requires counted { length bytes.now ≡ slice_index bytes.now 0 + 5 }
        requires kind { code_of kind ≡ slice_index bytes.now 3 }
        requires fits { IsTrue (spec.count_fits (slice_index bytes.now 3) (slice_index bytes.now 0)) }
        ensures { MatchResult result
            (λ _. spec.after_bytes (hex_state self.old) bytes.now ≡ Ok (hex_state self.new))
            (λ f. spec.after_bytes (hex_state self.old) bytes.now ≡ Err f) }
    {
        let count = bytes[0] as usize;
        match kind {
            Kind::Data => self.take_bytes(pair_at(bytes, 1), &bytes[4..4 + count]),
            Kind::End => {
                if has_odd_word(&self.bytes) {
                    return Err(HexFault::OddWord);
                }
                self.ended = true;
                Ok(())
            }
            Kind::SegmentBase => {
                self.base = 16 * pair_at(bytes, 4);
                Ok(())
            }
            Kind::LinearBase => {
                self.base = 65_536 * pair_at(bytes, 4);
                Ok(())
            }
            Kind::SegmentStart | Kind::LinearStart => Ok(()),
        }
    }

    /// Reads one line more.
    #[tactic(auto, unfolding(crate::specs::Hex::after_line))]
    pub(crate) fn take_line(&mut self, alloc: Global, line: &[u8]) -> Result<(), Failure<HexFault>>
        ensures { Meets (λ _. hex_state self.new) (spec.after_line (hex_state self.old) line.now) result }
    {
        if all_blank(line) {
            return Ok(());
        }
        if self.ended {
            return Err(Failure::Fault(HexFault::AfterEnd));
        }
        let bytes = bytes_of(alloc, line)?;
        let kind = kind_of(&bytes).map_err(Failure::Fault)?;
        self.take_checked_line(kind, &bytes).map_err(Failure::Fault)
    }
}
