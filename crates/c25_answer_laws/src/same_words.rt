//! What answers of the same words have in common.

ghost use Rattle.std.specs.Prelude.{◌≡◌, ℕ};
ghost use Rattle.c25_answer_laws.specs.Answered.{AnswerData, IsAnswerData};
ghost use Rattle.c25_answer_laws.specs.SameWords.{LoadAlike, RunAlike};
ghost use Rattle.c25_chain.specs.Chain.{Given};

use c25_image_laws::runs::{runs_agree_until_one_leaves, same_words_begin_alike};

/// Two programs with the same words, whatever their sources are and wherever these have instructions, run alike
/// under the same samples and the same schedule until one of them leaves the code: n steps of both have the same
/// outputs, registers, data memory, outcome and number of steps, or one of them stopped with OutOfCode or
/// CodeWrite, and the outputs of the other one, which did at least as many steps, begin with its own.
pub fn answers_of_the_same_words_agree()
    ensures { (g h : Given) (n : ℕ) (c d : AnswerData) (a : IsAnswerData g n c) (b : IsAnswerData h n d) → LoadAlike a.image b.image → a.inputs ≡ b.inputs →
        RunAlike c.run d.run }
{
    runs_agree_until_one_leaves();
    same_words_begin_alike();
}
