//! Laws of sources that are moved. The functions do nothing.

ghost use Rattle.std.specs.Prelude.{◌≡◌, ◌<◌, ◌^◌, ℕ, List};
ghost use Rattle.std.specs.Str.Iter.{HasSubslice};
ghost use Rattle.c25_move_lines.specs.LocalLabels.{IsNewName, Scope};
ghost use Rattle.c25_move_lines.specs.declared.style.Style.{Style};
ghost use Rattle.c25_move_lines.specs.declared.style.Style.TheVariants.{Coff};
ghost use Rattle.c25_move.specs.declared.region.Region.TheVariants.{Outside};
ghost use Rattle.c25_move.specs.Promises.{AreLabelsKept, AreRead, AreUnreported, AreValuesKept, IsMoved, at_start};
ghost use Rattle.c25_move.specs.Rewritten.{Rewritten, new_text};

/// A source of which nothing is reported is unchanged, byte for byte, the ends of its lines too.
pub fn unreported_source_is_unchanged()
    ensures { (style : Style) (macros : List (List ℕ)) (blocks : ℕ) (text : List ℕ) (ms : List Rewritten) → IsMoved style macros blocks text ms → AreUnreported ms → new_text ms ≡ text }
{}

/// A source for the COFF assembler each of whose lines the assembler reads as it stands is unchanged, byte for byte,
/// and nothing is reported of it.
pub fn read_source_stays()
    ensures { (macros : List (List ℕ)) (blocks : ℕ) (text : List ℕ) (ms : List Rewritten) → IsMoved Coff macros blocks text ms → AreRead ms → (new_text ms ≡ text) × AreUnreported ms }
{}

/// In a source that is moved, no rule changes a value without a word about it. Of each line before the end of the source that
/// calls no macro, and of which only comments, directives and values were rewritten, and no value is left:
///
/// - where values were rewritten (`>1F`, `0x1F`, `'AB'`, `''`, operators from left to right), one line takes its place, with
///   as many operands; each that is an expression in the old style is one of the assembler there, and both have the same
///   value or the same fault, whatever the names and `$` stand for; each other operand has the same symbols;
/// - in the early style one line takes its place, whatever was rewritten, and each operand that is an expression in the old
///   style and, at its place there, one of the assembler, has the same value in both.
///
/// Of each line outside of macros that calls none, and of which only comments, directives, values and local labels were
/// rewritten, and neither a value nor a local label is left:
///
/// - where local labels got names (`$1`), one line takes its place; its label is the old one, or the name that the old one got,
///   and its operands say the same as above, where in the old line each local label stands for what its new name stands for. The
///   names are those of the line's scope: in no other block has a local label one of them, and none stands in the source
///   (`new_names_are_their_own`).
pub fn values_are_kept()
    ensures values { (style : Style) (macros : List (List ℕ)) (blocks : ℕ) (text : List ℕ) (ms : List Rewritten) → IsMoved style macros blocks text ms → AreValuesKept style macros Outside ms }
    ensures labels { (style : Style) (macros : List (List ℕ)) (blocks : ℕ) (text : List ℕ) (ms : List Rewritten) → IsMoved style macros blocks text ms → AreLabelsKept style macros (at_start text blocks) ms }
{}

/// The names that local labels get outside of macros are their own: none of them stands in the source, and no two local labels of
/// different digits or blocks get the same one.
pub fn new_names_are_their_own()
    ensures stands_nowhere { (scope : Scope) (digit : ℕ) (name : List ℕ) → IsNewName scope digit name → ¬ (HasSubslice scope.source name) }
    ensures differ { (source : List ℕ) (blocks others digit other : ℕ) (name : List ℕ) → blocks < 2 ^ 64 → others < 2 ^ 64 → digit < 10 → other < 10 → IsNewName (record { source = source; blocks = blocks }) digit name → IsNewName (record { source = source; blocks = others }) other name → (blocks ≡ others) × (digit ≡ other) }
{}
