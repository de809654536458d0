//! An index of items by their places in a section, made in a time near linear in their number.

ghost use Rattle.std.specs.Prelude.{◌≡◌, ℕ, OnOk, IfOk, Option, filter, find, slice_get};
ghost use Rattle.std.specs.List.Sorted.{IsNonDecreasingBy};
ghost use Rattle.c25_dis.specs.Index.{IsIndexOf, is_at, is_there, numbered};

use c25_meaning_common::no_memory::NoMemory;
use std::alloc::Global;

/// An item that stands at a place of a section: the place, and the item's number in its list.
#[derive(Clone, Copy)]
pub(crate) struct IndexEntry {
    place: usize,
    pub(crate) number: usize,
}

/// An item that may stand at a place of a section.
pub(crate) trait Stands {
    /// The place of the item in the section of a number, if it stands there.
    ghost place_of: { Self → ℕ → Option ℕ };

    /// The place of the item in the section of a number, if it stands there.
    fn place(&self, section: usize) -> Option<usize>
        ensures { result ≡ place_of self.now section };
}

/// The items that stand in a section, in the order of their list.
fn numbered<T: Stands>(
    alloc: Global,
    items: &[T],
    section: usize,
) -> Result<Vec<IndexEntry>, NoMemory>
    ensures { IfOk result (λ v. v.items ≡ numbered (λ x. T.place_of x section) 0 items.now) }
{
    let mut index = Vec::new(alloc);
    for (number, item) in items.iter().enumerate() {
        match item.place(section) {
            Some(place) => index.push(IndexEntry { place, number })?,
            None => {}
        }
    }
    Ok(index)
}

/// Brings items into the order of their places; items of one place keep their order.
fn sort(alloc: Global, index: &mut [IndexEntry]) -> Result<(), NoMemory>
    ensures sorted { OnOk result (IsNonDecreasingBy (λ x. x.place) index.new) }
    ensures stable { OnOk result ((place : ℕ) → filter (is_at place) index.new ≡ filter (is_at place) index.old) }
{
    index.sort_by_key(alloc, |item| item.place)?;
    Ok(())
}

/// The items that stand in a section, in the order of their places.
pub(crate) fn index_of<T: Stands>(
    alloc: Global,
    items: &[T],
    section: usize,
) -> Result<Vec<IndexEntry>, NoMemory>
    ensures { IfOk result (λ v. IsIndexOf (λ x. T.place_of x section) items.now v.items) }
{
    let mut index = numbered(alloc, items, section)?;
    sort(alloc, &mut index)?;
    Ok(index)
}

/// The items of a place, in an index that is in the order of places.
pub(crate) fn at(index: &[IndexEntry], place: usize) -> &[IndexEntry]
    requires { IsNonDecreasingBy (λ x. x.place) index.now }
    ensures { result.now ≡ filter (is_at place) index.now }
{
    let from = index.partition_point(|item| item.place < place);
    let end = index.partition_point(|item| item.place <= place);
    &index[from..end]
}

/// The item of a number, if there is one.
pub(crate) fn item_at<T: Copy>(items: &[T], number: usize) -> Option<T>
    ensures { result ≡ slice_get items.now number }
{
    items.get(number).copied()
}

/// The first item of a list that stands at a place of a section, by the index of that section.
pub(crate) fn first_at<T: Stands + Copy>(
    items: &[T],
    index: &[IndexEntry],
    section: usize,
    place: usize,
) -> Option<T>
    requires { IsIndexOf (λ x. T.place_of x section) items.now index.now }
    ensures { result ≡ find (λ x. is_there place (T.place_of x section)) items.now }
{
    match at(index, place).first() {
        None => None,
        Some(found) => item_at(items, found.number),
    }
}
