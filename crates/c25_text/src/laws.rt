//! Laws of lines: facts about all texts that the definitions imply. The functions do nothing.

ghost use Rattle.std.specs.Prelude.{◌≡◌, ◌↔◌, ℕ, List, Ok, Err};
ghost use Rattle.c25_meaning_language.specs.Line.{Parts, IsLine, HasFault, Operands, line_of, scan_from};
ghost use Rattle.c25_meaning_language.specs.declared.line.LineFault.{LineFault};

/// A line has the parts that it is split into, and no others.
pub fn line_has_its_parts()
    ensures { (text : List ℕ) (p : Parts) → IsLine text p ↔ (line_of text ≡ Ok p) }
{}

/// A line that is refused has the fault that is reported, which is its leftmost, and no other.
pub fn line_has_its_fault()
    ensures { (text : List ℕ) (f : LineFault) → HasFault text f ↔ (line_of text ≡ Err f) }
{}

/// From any place on, the function `scan_from` gives the tokens of a text, and the comment, the end or the
/// first fault after them, that the relation `Operands` has.
pub fn operands_are_tokens()
    ensures { (text : List ℕ) (at : ℕ) → Operands text at (scan_from at text) (scan_from at text).fault }
{}
