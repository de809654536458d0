//! A law of the ranges that are reported as missing, the contract of a function that does nothing.

ghost use Rattle.std.specs.Prelude.{◌≡◌, List, [], Some};
ghost use Rattle.c25_meaning_linking.specs.Command.{RangeData};
ghost use Rattle.c25_meaning_linking.specs.GoodMap.{Request, usable};
ghost use Rattle.c25_place.specs.Missing.{IsSoOf, MissingData, missing_for};

/// For each section that has no range to stand in a missing range is reported, and the command has no such
/// range.
pub fn what_is_missing_is_not_there()
    ensures { (ranges : List RangeData) (r : Request) → usable ranges r ≡ []
        → (what : MissingData) × (missing_for ranges r.target r.page ≡ Some what) × IsSoOf ranges r what }
{}
