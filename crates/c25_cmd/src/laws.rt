//! Laws of the definition of command files, each the contract of a function that does nothing.

ghost use Rattle.std.specs.Prelude.{◌≡◌, List, ℕ, Ok};
ghost use Rattle.c25_meaning_linking.specs.Command.{CommandData, IsCommand};
ghost use Rattle.c25_meaning_linking.specs.CommandGrammar.{CountIsEnough};
ghost use Rattle.c25_meaning_linking.specs.CommandMemory.{more_ranges};
ghost use Rattle.c25_meaning_linking.specs.CommandSections.{more_placings};
ghost use Rattle.c25_meaning_linking.specs.CommandText.{command_of, part_in};
ghost use Rattle.c25_meaning_linking.specs.declared.command_token.Want.TheVariants as want;
ghost use Rattle.c25_meaning_linking.specs.declared.command_token.Sign.TheVariants as sign;

/// In the command that a text spells every range lies on page 0 or 1, has words and ends within its
/// page, no two ranges of one page share a word or a name, and no section comes twice.
pub fn spelled_commands_keep_the_rules()
    ensures { (text : List ℕ) (command : CommandData) → command_of text ≡ Ok command → IsCommand command }
{}

/// Parts, ranges and sections are read to the sign that ends them or to the first fault: a count in the
/// definition that is not less than the number of tokens gives the same as any larger one.
pub fn counts_of_the_definition_never_end_a_reading()
    ensures parts { CountIsEnough want.End part_in }
    ensures ranges { CountIsEnough (want.Sign sign.CloseBrace) more_ranges }
    ensures sections { CountIsEnough (want.Sign sign.CloseBrace) more_placings }
{}
