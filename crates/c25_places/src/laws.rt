//! Laws of the parts where lines are refused: facts about all lines that the definitions imply. The functions
//! do nothing.

ghost use Rattle.std.specs.Prelude.{◌≡◌, ℕ, List, map, None, Some, Ok, Err, IsSome, IsNone};
ghost use Rattle.c25_meaning_assembly.specs.AssemblyLine.{directive_in, read_statement};
ghost use Rattle.c25_meaning_assembly.specs.ModuleOfSource.{read_and_pass};
ghost use Rattle.c25_meaning_assembly.specs.Sections.{Progress, few};
ghost use Rattle.c25_meaning_expansion.specs.Acts.{Macro, call_of, directive_of, order_of};
ghost use Rattle.c25_meaning_expansion.specs.declared.expansion.Directive.{Directive as ExpansionDirective};
ghost use Rattle.c25_meaning_expansion.specs.ExpansionAnswers.{ExpandedLine};
ghost use Rattle.c25_meaning_language.specs.ExpansionFault.{Faulty};
ghost use Rattle.c25_meaning_instructions.specs.declared.mnemonic.Spelling.{Spelling};
ghost use Rattle.c25_meaning_language.specs.Forms.{form_of};
ghost use Rattle.c25_meaning_language.specs.Line.{Piece, first_word, label_in};
ghost use Rattle.c25_meaning_language.specs.Operands.{written_of};
ghost use Rattle.c25_meaning_language.specs.declared.statement.FaultKind.{FaultKind};
ghost use Rattle.c25_meaning_language.specs.declared.statement.Form.{Form};
ghost use Rattle.c25_places.specs.Refused.{IsNamedAt, IsWithin, first_refused, refused_part};
ghost use Rattle.c25_places.specs.declared.part.Part.{Part};
ghost use Rattle.c25_places.specs.declared.wanted.Operation.{Operation};

/// A part has bytes and lies within its line.
pub fn parts_lie_in_their_lines()
    ensures { (text : List ℕ) (kind : FaultKind) (p : Part) → refused_part text kind ≡ Some p → IsWithin text p }
{}

/// A line that is refused has a part where it is refused.
pub fn refusals_have_parts()
    ensures { (text : List ℕ) (kind : FaultKind) → read_statement text ≡ Err kind → IsSome (refused_part text kind) }
{}

/// A line that expansion refuses by itself, as an `.if` or a `.copy`, has a part where it is refused; so has a line that
/// calls a macro.
pub fn refused_lines_of_expansion_have_parts()
    ensures ordered { (text word : List ℕ) (d : ExpansionDirective) (kind : FaultKind) → first_word text ≡ Some word → directive_of word ≡ Some d → order_of d text ≡ Err kind → IsSome (refused_part text kind) }
    ensures called { (text : List ℕ) (m : Macro) (kind : FaultKind) → directive_in (first_word text) ≡ None → call_of m text ≡ Err kind → IsSome (refused_part text kind) }
{}

/// A line for which there is no room (54) has a part where it is refused, after lines with at most as many names as a
/// module may have.
pub fn lines_without_room_have_parts()
    ensures { (line : ExpandedLine) (p : Progress) → few p ≡ Ok tt → read_and_pass line p ≡ Err (Faulty line.file line.line FaultKind.TooLarge) → IsSome (refused_part line.text FaultKind.TooLarge) }
{}

/// Of a line with a label the part of a name that is taken (36) is the label's field, whose text is that label, perhaps
/// with a colon.
pub fn taken_names_stand_in_their_part()
    ensures { (text name : List ℕ) → label_in text ≡ Ok (Some name) → IsNamedAt text name }
{}

/// An instruction has a form only where each operand is what it has to be, and where an operand is refused for
/// what it is (52) one of them is not.
pub fn forms_take_what_is_wanted()
    ensures taken { (s : Spelling) (operands : List (List Piece)) (f : Form) → form_of s (map written_of operands) ≡ Ok f → IsNone (first_refused FaultKind.OperandForm (Operation.Runs s) 0 operands) }
    ensures refused { (s : Spelling) (operands : List (List Piece)) → form_of s (map written_of operands) ≡ Err FaultKind.OperandForm → IsSome (first_refused FaultKind.OperandForm (Operation.Runs s) 0 operands) }
{}
