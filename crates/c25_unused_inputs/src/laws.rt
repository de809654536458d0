//! Laws of interrupts that are not taken, each the contract of a function that does nothing.

ghost use Rattle.std.specs.Prelude.{◌≡◌, ℕ, ◌<◌, ◌≤◌, Some, false};
ghost use Rattle.c25_meaning_processor.specs.Run.{Reaches, Signals};
ghost use Rattle.c25_meaning_processor.specs.State.{State};
ghost use Rattle.c25_meaning_processor.specs.Step.{begun, latched};
ghost use Rattle.c25_meaning_processor.specs.WordStep.{WordStep};
ghost use Rattle.c25_meaning_processor.specs.declared.lines.Lines.{Lines};
ghost use Rattle.c25_unused_inputs.specs.Requests.{bit_of};
ghost use Rattle.c25_unused_inputs.specs.Taking.{entered, takes};
ghost use Rattle.c25_unused_inputs.specs.Watched.{StaysOff, is_enabled};
ghost use Rattle.c25_unused_inputs.specs.declared.requests.InterruptLine.{InterruptLine};

/// A step begins by taking the interrupt that `takes` names, or none. One that is not enabled before a step is not
/// taken in it; so none of a line is taken in the steps of a run before which the line stays off. DP has nine bits in
/// each state of a processor.
pub fn interrupts_that_are_off_are_not_taken()
    ensures begun { (lines : Lines) (s : State) → begun lines s ≡ entered (takes lines s) (latched lines s.registers) }
    ensures step { (lines : Lines) (s : State) (line : InterruptLine) → s.registers.dp < 512 → is_enabled (bit_of line) s ≡ false → takes lines s ≡ Some line → ⊥ }
    ensures run { (signals : Signals) (line : InterruptLine) (from n j : ℕ) (s u : State) → StaysOff signals (bit_of line) from n s → from ≤ j → j < n
        → Reaches WordStep signals 0 j s u → u.registers.dp < 512 → takes (signals.lines j) u ≡ Some line → ⊥ }
{}
