//! Laws of runs of the same words, each the contract of a function that calls the laws that it rests on.

ghost use Rattle.std.specs.Prelude.{◌≡◌, List, ℕ};
ghost use Rattle.std.specs.FinMap as finite;
ghost use Rattle.std.specs.Ordering.{nat_cmp};
ghost use Rattle.c25_image_laws.specs.Agree.{Agree, unmarked};
ghost use Rattle.c25_meaning_image.specs.declared.mark.Mark.{Mark};
ghost use Rattle.c25_meaning_image.specs.declared.mark.RunMark.{RunMark};
ghost use Rattle.c25_meaning_processor.specs.FirstState.{first_of_pages, memory_of_map};
ghost use Rattle.c25_meaning_processor.specs.Run.{Ending, Reaches, Runs, Signals};
ghost use Rattle.c25_meaning_processor.specs.State.{State};
ghost use Rattle.c25_meaning_processor.specs.WordStep.{WordStep};

use c25_run_laws::outputs::steps_put_one_output_at_most;
use c25_run_laws::runs::two_runs_are_one;

/// Two runs of the same words do the same until one of them leaves the code. Their first states may differ in
/// the marks and the run marks of instructions, and in nothing else; then the same number of steps leads to the
/// same state but for these (`states`). Where both runs have ended, they ended alike, or one of them stopped
/// with OutOfCode or CodeWrite: then the other one passed the state in which it did, and its outputs begin with
/// those of that state (`ends`). So a stop with BadRepeat or PortDry is one of both, unless the other run
/// stopped before.
pub fn runs_agree_until_one_leaves()
    ensures states { (signals : Signals) (k n : ℕ) (s t u v : State) → unmarked s ≡ unmarked t →
        Reaches WordStep signals k n s u → Reaches WordStep signals k n t v → unmarked u ≡ unmarked v }
    ensures ends { (signals : Signals) (k n : ℕ) (s t : State) (one other : Ending) → unmarked s ≡ unmarked t →
        Runs WordStep signals k n s one → Runs WordStep signals k n t other → Agree signals k s one t other }
{
    two_runs_are_one();
    steps_put_one_output_at_most();
}

/// Programs that load the same words into both memories begin in the same state but for the marks and the run
/// marks of instructions, so that their runs agree. A program loads 0 where it has no word.
pub fn same_words_begin_alike()
    ensures { (page0 page1 other0 other1 : finite.FinMap nat_cmp ℕ) (marks other_marks : List Mark) (run_marks other_run_marks : List RunMark) (samples : ℕ → List ℕ) →
        ((address : ℕ) → memory_of_map page0 address ≡ memory_of_map other0 address) → ((address : ℕ) → memory_of_map page1 address ≡ memory_of_map other1 address) →
        unmarked (first_of_pages page0 page1 marks run_marks samples) ≡ unmarked (first_of_pages other0 other1 other_marks other_run_marks samples) }
{}
