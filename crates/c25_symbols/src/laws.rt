//! Laws of the definitions, each the contract of a function that does nothing.

ghost use Rattle.std.specs.Prelude.{◌≡◌, ◌≤◌, ℕ, List};
ghost use Rattle.std.specs.List.Sorted.{IsSortedBy, IsStableBy};
ghost use Rattle.c25_meaning_linking.specs.Command.{RangeData};
ghost use Rattle.c25_meaning_objects.specs.Module.{Contents};
ghost use Rattle.c25_meaning_linking.specs.Place.{Place};
ghost use Rattle.c25_symbols.specs.Symbols.{Listed, all_symbols, is_before, symbols_by_name};
ghost use Rattle.c25_symbols.specs.Used.{used_in};

/// No symbol comes after one whose name is greater, and those of each name are all that modules define, in
/// the order of modules and symbols. No other list of symbols is in this order.
pub fn symbols_stand_by_name()
    ensures sorted { (modules : List Contents) (sources : List (List ℕ)) (places : List Place) → IsSortedBy is_before (symbols_by_name modules sources places) }
    ensures stable { (modules : List Contents) (sources : List (List ℕ)) (places : List Place) → IsStableBy is_before (all_symbols modules sources places) (symbols_by_name modules sources places) }
    ensures only { (modules : List Contents) (sources : List (List ℕ)) (places : List Place) (symbols : List Listed) → IsSortedBy is_before symbols
        → IsStableBy is_before (all_symbols modules sources places) symbols → symbols ≡ symbols_by_name modules sources places }
{}

/// No more words of a range are used than it has; the others are free.
pub fn used_words_are_words_of_their_range()
    ensures { (places : List Place) (r : RangeData) → used_in places r ≤ r.size }
{}
