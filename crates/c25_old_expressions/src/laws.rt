//! Laws of old expressions. The functions do nothing.

ghost use Rattle.std.specs.Prelude.{◌≡◌, ℕ, true, List, Some};
ghost use Rattle.c25_old_expressions.specs.declared.order.Order.{Order};
ghost use Rattle.c25_old_expressions.specs.declared.order.Order.TheVariants.{AsWritten, ByLevel};
ghost use Rattle.c25_meaning_language.specs.Tree.{IsTreeOf, Mark, Tree};
ghost use Rattle.c25_old_expressions.specs.Laws.{HasHighAndLow, IsLeftToRight};
ghost use Rattle.c25_old_expressions.specs.OldReading.{old_tree};
ghost use Rattle.c25_old_expressions.specs.OldSymbols.{is_character};

/// A constant of two characters is an expression, whose value has the first character in its high byte: that of `'AB'` is
/// 256 times the code of `A`, and the code of `B`.
pub fn first_character_is_high()
    ensures { (order : Order) (high low : ℕ) → is_character high ≡ true → is_character low ≡ true → HasHighAndLow order high low }
{}

/// Where operators act as they are written, tokens have a tree exactly if one has these tokens from left to right, and the
/// right operand of each operator between two operands is a single operand, a group or an operator before one: that one.
pub fn as_written_is_from_left_to_right()
    ensures read { (marks : List Mark) (e : Tree) → old_tree AsWritten marks ≡ Some e → IsLeftToRight marks e }
    ensures complete { (marks : List Mark) (e : Tree) → IsLeftToRight marks e → old_tree AsWritten marks ≡ Some e }
{}

/// Where operators act by their levels, tokens have the tree that they have for the assembler, and no other.
pub fn by_level_is_the_assemblers()
    ensures read { (marks : List Mark) (e : Tree) → old_tree ByLevel marks ≡ Some e → IsTreeOf marks e }
    ensures complete { (marks : List Mark) (e : Tree) → IsTreeOf marks e → old_tree ByLevel marks ≡ Some e }
{}
