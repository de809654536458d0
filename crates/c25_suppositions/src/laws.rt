//! Laws of runs whose suppositions were tested, each the contract of a function that does nothing.

ghost use Rattle.std.specs.Prelude.{◌≡◌, ℕ, ◌⊎◌, suc};
ghost use Rattle.c25_board.specs.declared.board.Outcome.{Outcome};
ghost use Rattle.c25_board.specs.declared.board.Outcome.TheVariants.{Left};
ghost use Rattle.c25_meaning_pages.specs.Inductive.{IsClosed, IsInductive};
ghost use Rattle.c25_meaning_pages.specs.Known.{Knowledge};
ghost use Rattle.c25_meaning_pages.specs.Supposed.{IsSupposed};
ghost use Rattle.c25_meaning_processor.specs.Reset.{reset};
ghost use Rattle.c25_meaning_processor.specs.Run.{Signals};
ghost use Rattle.c25_meaning_processor.specs.State.{State};
ghost use Rattle.c25_meaning_processor.specs.Statements.{IsImageOf, Statements};
ghost use Rattle.c25_meaning_processor.specs.declared.lines.Lines.{Lines};
ghost use Rattle.c25_meaning_processor.specs.declared.stop.Stop.{Stop};
ghost use Rattle.c25_meaning_processor.specs.declared.stop.Stop.TheVariants.{CodeWrite, PortDry};
ghost use Rattle.c25_suppositions.specs.Breaches.{IsBreach};
ghost use Rattle.c25_suppositions.specs.Checked.{IsChecked, KeepsToPages};
ghost use Rattle.c25_suppositions.specs.declared.breach.Breach.{Breach};
ghost use Rattle.c25_suppositions.specs.declared.checking.Checked.TheVariants as checked;

use c25_page_laws::laws::{direct_operands_reach_their_words, words_keep_to_their_pages};
use c25_run_laws::runs::{image_runs_as_statements, words_end_once};

/// A state that does not meet a supposition is not as supposed: there is no false alarm.
pub fn breaches_are_not_supposed()
    ensures { (statements : Statements) (knowledge : Knowledge) (lines : Lines) (s : State) (breach : Breach) →
        IsBreach statements knowledge lines s breach → IsSupposed statements knowledge lines s → ⊥ }
{}

/// Where the knowledge of a program is inductive, its words are those of the first state, and a run from a reset was tested
/// and was as supposed, then nothing is supposed any more: in each of its states, the last one included, DP is the page at
/// each address where it is surely that page, and each direct operand of a word on that page is that word. If the knowledge
/// is also closed and a step of the run stopped, then a TBLW wrote a word of an instruction, or an IN found no sample left at
/// its port. Of a run that was ended since a state is not as supposed, the same is true of the states before that one.
pub fn checked_runs_keep_to_their_pages()
    ensures pages { (statements : Statements) (knowledge : Knowledge) (signals : Signals) (n : ℕ) (s : State) →
        IsInductive statements knowledge → s.registers ≡ reset → IsImageOf statements s.world →
        (outcome : Outcome) (j : ℕ) (t : State) (failed fails : ℕ) →
        IsChecked statements knowledge signals n s (checked.Supposed outcome) j t failed fails →
        KeepsToPages knowledge signals s (suc j) }
    ensures code { (statements : Statements) (knowledge : Knowledge) (signals : Signals) (n : ℕ) (s : State) →
        IsInductive statements knowledge → IsClosed statements knowledge → s.registers ≡ reset → IsImageOf statements s.world →
        (at : ℕ) (stop : Stop) (j : ℕ) (t : State) (failed fails : ℕ) →
        IsChecked statements knowledge signals n s (checked.Supposed (Left at stop)) j t failed fails →
        (stop ≡ CodeWrite) ⊎ (stop ≡ PortDry) }
    ensures before { (statements : Statements) (knowledge : Knowledge) (signals : Signals) (n : ℕ) (s : State) →
        IsInductive statements knowledge → s.registers ≡ reset → IsImageOf statements s.world →
        (breach : Breach) (j : ℕ) (t : State) (failed fails : ℕ) →
        IsChecked statements knowledge signals n s (checked.Unsupposed breach) j t failed fails →
        KeepsToPages knowledge signals s j }
{
    words_keep_to_their_pages();
    direct_operands_reach_their_words();
    image_runs_as_statements();
    words_end_once();
}
