//! Laws of outputs, each the contract of a function that does nothing.

ghost use Rattle.std.specs.Prelude.{◌≡◌, ◌≤◌, ◌++◌, ℕ, List, Bool, Option, length};
ghost use Rattle.c25_meaning_image.specs.declared.mark.RunMark.{RunMark};
ghost use Rattle.c25_meaning_instructions.specs.declared.insn.Insn.{Insn};
ghost use Rattle.c25_meaning_processor.specs.Run.{Ending, Reaches, Runs, Signals};
ghost use Rattle.c25_meaning_processor.specs.State.{State, World};
ghost use Rattle.c25_meaning_processor.specs.WordStep.{IsFetchedBy, WordStep};
ghost use Rattle.c25_run_laws.specs.Behind.{behind, end_behind, world_behind};

/// The outputs so far have no influence on a run: where other outputs stand before those of its first state,
/// they stand before those of its last one, and nothing else differs. Which instruction is fetched does not
/// depend on them either.
pub fn outputs_have_no_part_in_runs()
    ensures runs { (outputs : List (ℕ × ℕ)) (signals : Signals) (k n : ℕ) (s : State) (e : Ending) →
        Runs WordStep signals k n s e → Runs WordStep signals k n (behind outputs s) (end_behind outputs e) }
    ensures fetched { (outputs : List (ℕ × ℕ)) (cnf : Bool) (w : World) (pc : ℕ) (m : Option RunMark) (i : Option Insn) →
        IsFetchedBy cnf w pc m i → IsFetchedBy cnf (world_behind outputs w) pc m i }
{}

/// A run that has not stopped keeps the outputs of its first state, and adds at most one after them in each
/// of its steps.
pub fn steps_put_one_output_at_most()
    ensures { (signals : Signals) (k n : ℕ) (s t : State) → Reaches WordStep signals k n s t →
        (more : List (ℕ × ℕ)) × (t.world.outputs ≡ s.world.outputs ++ more) × (length more ≤ n) }
{}
