//! Where the words of two programs differ.

ghost use Rattle.std.specs.Prelude.{◌≡◌, ◌+◌, ◌^◌, IfOk, OnOk, true, false};
ghost use Rattle.c25_moving.specs.Differing.{AreDifferences, IsSameAt};

use c25_meaning_common::no_memory::NoMemory;
use c25_meaning_image::word_map::WordMap;
use std::alloc::Global;

/// Whether two words, or places without a word, are the same.
fn is_same(old: Option<u16>, new: Option<u16>) -> bool
    ensures same { result ≡ true → old ≡ new }
    ensures other { result ≡ false → ¬ (old ≡ new) }
{
    match (old, new) {
        (None, None) => true,
        (Some(old), Some(new)) => old == new,
        (None, Some(_)) => false,
        (Some(_), None) => false,
    }
}

/// Adds the next address, if two programs differ there.
#[tactic(auto, using(crate::proofs::Differences::same_there, crate::proofs::Differences::one_more))]
fn push_difference(
    differing: &mut Vec<u16>,
    old: &WordMap,
    new: &WordMap,
    address: u16,
) -> Result<(), NoMemory>
    ensures { OnOk result (AreDifferences old.now new.now address differing.old.items → AreDifferences old.now new.now (address + 1) differing.new.items) }
{
    if is_same(old.get(address), new.get(address)) {
        Ok(())
    } else {
        differing.push(address).map_err(NoMemory::from)
    }
}

/// The addresses at which two programs differ, in ascending order.
#[tactic(auto, using(crate::proofs::Differences::none_below))]
pub(crate) fn differing(alloc: Global, old: &WordMap, new: &WordMap) -> Result<Vec<u16>, NoMemory>
    ensures { IfOk result (λ v. AreDifferences old.now new.now (2 ^ 16) v.items) }
{
    let mut differing = Vec::new(alloc);
    for address in 0..65_536_u32 {
        push_difference(&mut differing, old, new, address as u16)?;
    }
    Ok(differing)
}
