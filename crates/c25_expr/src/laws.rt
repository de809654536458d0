//! Laws of expressions: facts about all tokens that the definitions imply. The functions do nothing.

ghost use Rattle.std.specs.Prelude.{◌≡◌, ◌↔◌, ◌<◌, ◌≤◌, List, Ok, Err};
ghost use Rattle.c25_meaning_language.specs.Tree.{Mark, Tree, IsTreeOf, depth};
ghost use Rattle.c25_meaning_language.specs.Reading.{tree_in};
ghost use Rattle.c25_meaning_language.specs.declared.expression.ExpressionFault.{ExpressionFault};

/// Tokens have one tree at most.
pub fn one_tree()
    ensures { (marks : List Mark) (e f : Tree) → IsTreeOf marks e → IsTreeOf marks f → e ≡ f }
{}

/// The function `tree_in` gives the tree that the grammar gives.
pub fn trees_are_read()
    ensures read { (marks : List Mark) (e : Tree) → (IsTreeOf marks e × (depth e ≤ 64))
        ↔ (tree_in marks ≡ Ok e) }
    // No tree has these tokens.
    ensures none { (marks : List Mark) → ((e : Tree) → ¬ IsTreeOf marks e)
        ↔ (tree_in marks ≡ Err ExpressionFault.BadExpression) }
    // The tree of these tokens is too deep.
    ensures deep { (marks : List Mark) → ((e : Tree) × IsTreeOf marks e × (64 < depth e))
        ↔ (tree_in marks ≡ Err ExpressionFault.TooDeep) }
{}
