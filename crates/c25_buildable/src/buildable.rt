//! Parts of an image whose texts are built to its words.

ghost use Rattle.std.specs.Prelude.{◌≡◌, ◌≤◌, IfOk, List, length, true, ℕ};
ghost use Rattle.c25_buildable.specs.Places.{AreNames, AreShort, HaveTargets, IsTable, all_names, places_view};
ghost use Rattle.c25_layout.specs.Buildable.{IsBuildable, RunsFit};
ghost use Rattle.c25_layout.specs.Layout.{ArePartsOf};

use crate::bare::bare_parts;
use crate::names::{NamedPlace, names_of};
use crate::runs::run_well;
use crate::table::table_of;
use crate::targets::have_targets;
use c25_layout::layout::Part;
use c25_meaning_common::failure::Failure;
use c25_meaning_common::no_memory::NoMemory;
use c25_meaning_image::word_map::WordMap;
use std::alloc::Global;
use std::collections::HashMap;

/// The most names of a module.
const MOST_NAMES: usize = 65_535;

/// Whether parts whose names stand for these addresses run where they may, and the names in their rows stand for the
/// numbers there.
fn are_placed(table: &HashMap<&str, u32>, parts: &[Part]) -> bool
    requires { AreShort parts.now }
    ensures runs { result ≡ true → RunsFit parts.now }
    ensures targets { (ns : List (List ℕ × ℕ)) → IsTable table.now ns → result ≡ true → HaveTargets ns parts.now }
{
    if run_well(parts) {
        have_targets(table, parts)
    } else {
        false
    }
}

/// Whether nothing hinders parts that have these names, each with its address.
fn are_in_order(alloc: Global, places: &[NamedPlace], parts: &[Part]) -> Result<bool, NoMemory>
    requires { AreShort parts.now }
    ensures { IfOk result (λ fine. fine ≡ true → AreNames (places_view places.now) parts.now) }
{
    match table_of(alloc, places) {
        Err(Failure::NoMemory(error)) => Err(error),
        Err(Failure::Fault(_)) => Ok(false),
        Ok(table) => Ok(are_placed(&table, parts)),
    }
}

/// Whether the names of parts hinder nothing: there are no more than a module may have, each may be a label, none stands
/// twice, those in rows stand for the numbers there, and parts run where they may.
fn are_named(alloc: Global, parts: &[Part]) -> Result<bool, NoMemory>
    requires { AreShort parts.now }
    ensures few { IfOk result (λ fine. fine ≡ true → length (all_names parts.now) ≤ 65535) }
    ensures names { IfOk result (λ fine. fine ≡ true → AreNames (all_names parts.now) parts.now) }
{
    let places = names_of(alloc, parts)?;
    if places.len() > MOST_NAMES {
        return Ok(false);
    }
    are_in_order(alloc, &places, parts)
}

/// Whether nothing hinders the texts of parts of an image, no more than a module may have sections, from being built to
/// its words.
fn are_buildable(alloc: Global, words: &WordMap, parts: &[Part]) -> Result<bool, NoMemory>
    requires are { (blank : ℕ) × ArePartsOf words.now blank parts.now }
    requires few { length parts.now ≤ 254 }
    ensures { IfOk result (λ fine. fine ≡ true → IsBuildable parts.now) }
{
    let _all = words.iter();
    are_named(alloc, parts)
}

/// Parts of an image whose texts are built to its words: these parts, where nothing hinders that, or the same without
/// names, each run where it is loaded. There are no more of them than a module may have sections.
///
/// `NoMemory` where memory runs out.
pub fn buildable_parts(
    alloc: Global,
    words: &WordMap,
    parts: Vec<Part>,
) -> Result<Vec<Part>, NoMemory>
    requires are { (blank : ℕ) × ArePartsOf words.now blank parts.items }
    requires few { length parts.items ≤ 254 }
    ensures same { (blank : ℕ) → ArePartsOf words.now blank parts.items → IfOk result (λ made. ArePartsOf words.now blank made.items) }
    ensures built { IfOk result (λ made. IsBuildable made.items) }
{
    if are_buildable(alloc, words, &parts)? {
        Ok(parts)
    } else {
        bare_parts(alloc, words, &parts)
    }
}
