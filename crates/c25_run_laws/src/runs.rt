//! Laws of runs, each the contract of a function that does nothing.

ghost use Rattle.std.specs.Option.{option_and_then};
ghost use Rattle.std.specs.Prelude.{◌≡◌, ℕ, ◌+◌, ◌<◌, ◌≤◌, ◌↔◌, Bool, List, [], Option, true, false, Ok, Some, None};
ghost use Rattle.c25_meaning_instructions.specs.declared.insn.Insn.{Insn};
ghost use Rattle.c25_meaning_processor.specs.Run.{Signals, Ending, Ran, Reaches, Runs, run_of};
ghost use Rattle.c25_meaning_processor.specs.State.{State, World, holds, loaded_marks};
ghost use Rattle.c25_meaning_processor.specs.Step.{begun, stepped};
ghost use Rattle.c25_meaning_processor.specs.declared.lines.Lines.{Lines};
ghost use Rattle.c25_meaning_instructions.specs.Table.{size_of, words};
ghost use Rattle.c25_meaning_processor.specs.declared.registers.Registers.{Registers};
ghost use Rattle.c25_meaning_image.specs.Marks.{is_code, is_load, run_fit, size_at};
ghost use Rattle.c25_meaning_processor.specs.Statements.{Copied, Statement, Statements, IsImageOf, RunsAsStatements, KeepsStatements, copied_at, outside_b0, plainly, standing, statement_at, statement_step};
ghost use Rattle.c25_meaning_processor.specs.WordStep.{IsFetched, IsFetchedBy, WordStep};
ghost use Rattle.c25_meaning_image.specs.declared.mark.Mark.{Mark};
ghost use Rattle.c25_run_laws.specs.KeptCode.{KeepsCode};

/// Each word of an instruction that starts at an address belongs to an instruction. So no step writes it
/// (`steps_keep_the_words_of_code`).
pub fn started_words_are_code()
    ensures { (marks : List Mark) (address word size : ℕ) → size_at marks address ≡ Some size →
        address ≤ word → word < address + size → is_code marks word ≡ true }
{}

/// A step that does not stop leaves the words of instructions and their marks as they are, whatever
/// instruction it acts by, from all registers, in every world and so with every list of marks. Each run that
/// has not stopped leaves them, too: a run of the words, and a run of any statements, whether or not the
/// words are an image of these.
pub fn steps_keep_the_words_of_code()
    ensures step { (bio : Bool) (i : Option Insn) (r : Registers) (w : World) (t : State) → stepped bio i r w ≡ Ok t → KeepsCode w t.world }
    ensures words { (signals : Signals) (k n : ℕ) (s t : State) → Reaches WordStep signals k n s t → KeepsCode s.world t.world }
    ensures statements { (statements : Statements) (signals : Signals) (k n : ℕ) (s t : State) →
        run_of (statement_step statements) signals k n s ≡ Ran t → KeepsCode s.world t.world }
{}

/// From any state whose words are an image of the statements, under all samples, interrupt lines and BIO
/// levels and for every number of steps, the run of the words ends as the run of the statements, and the
/// words stay an image of the statements.
pub fn image_runs_as_statements()
    ensures runs { (statements : Statements) (s : State) → IsImageOf statements s.world → RunsAsStatements statements s }
    ensures words { (statements : Statements) (s : State) → IsImageOf statements s.world → KeepsStatements statements s }
{}

/// Under CNF 1 a statement whose section runs in block B0 acts at the address at which it runs, where B0
/// holds its words; where B0 holds others, and at each other address of B0, no statement acts, so that the
/// run stops there. At all other addresses the statement that stands there acts, unless under CNF 1 its
/// second word lies in B0; under CNF 0 it acts at every address. The words of a statement that runs in B0 are
/// code where they are loaded, and no instruction is fetched from them there.
pub fn code_in_b0()
    ensures held { (ss : Statements) (w : World) (pc : ℕ) (c : Copied) → copied_at ss.copied pc ≡ Some c →
        holds w c.run (words c.insn) ≡ true → standing ss true w pc ≡ Some c.insn }
    ensures changed { (ss : Statements) (w : World) (pc : ℕ) (c : Copied) → copied_at ss.copied pc ≡ Some c →
        holds w c.run (words c.insn) ≡ false → standing ss true w pc ≡ None }
    ensures no_other { (ss : Statements) (w : World) (pc : ℕ) → 0xFF00 ≤ pc → copied_at ss.copied pc ≡ None →
        standing ss true w pc ≡ None }
    ensures elsewhere { (ss : Statements) (w : World) (pc : ℕ) (cnf : Bool) → copied_at ss.copied pc ≡ None →
        standing ss cnf w pc ≡ option_and_then (outside_b0 cnf pc) (statement_at ss.plain pc) }
    ensures as_data { (ss : Statements) (w : World) (pc : ℕ) → standing ss false w pc ≡ statement_at ss.plain pc }
    ensures loads { (ss : Statements) (w : World) (pc x : ℕ) (c : Copied) → IsImageOf ss w → copied_at ss.copied pc ≡ Some c →
        c.load ≤ x → x < c.load + size_of c.insn → is_code (loaded_marks w) x ≡ true }
    ensures load_stops { (w : World) (pc : ℕ) (cnf : Bool) (i : Option Insn) → run_fit w.marks w.run_marks ≡ true →
        is_load w.run_marks pc ≡ true → IsFetchedBy cnf w pc None i → i ≡ None }
{}

/// A program of which nothing runs in block B0 steps by the statements that stand where they run, and so do
/// its words. All that the definitions for B0 change is that under CNF 1 no statement acts of which a word
/// lies in B0.
pub fn programs_outside_b0_step_plainly()
    ensures statements { (statements : List Statement) (lines : Lines) (bio : Bool) (s : State) →
        statement_step (plainly statements) lines bio s
        ≡ stepped bio (option_and_then (outside_b0 (begun lines s).cnf (begun lines s).pc)
        (statement_at statements (begun lines s).pc)) (begun lines s) s.world }
    ensures words { (w : World) (cnf : Bool) (pc : ℕ) (i : Option Insn) → w.run_marks ≡ [] →
        IsFetched cnf w pc i ↔ IsFetchedBy cnf w pc None i }
{}

/// From any state, under all interrupt lines and BIO levels, a run of the words has one end at most.
pub fn words_end_once()
    ensures { (signals : Signals) (k n : ℕ) (s : State) (e f : Ending) →
        Runs WordStep signals k n s e → Runs WordStep signals k n s f → e ≡ f }
{}

/// A run of m steps that does not stop, and then a run of n steps from where it led, are one run of m + n
/// steps: for the words from any state, and for the statements.
pub fn two_runs_are_one()
    ensures words { (signals : Signals) (k m n : ℕ) (s t : State) (e : Ending) →
        Runs WordStep signals k m s (Ran t) →
        Runs WordStep signals (k + m) n t e ↔ Runs WordStep signals k (m + n) s e }
    ensures statements { (statements : Statements) (signals : Signals) (k m n : ℕ) (s t : State) →
        run_of (statement_step statements) signals k m s ≡ Ran t →
        run_of (statement_step statements) signals k (m + n) s
        ≡ run_of (statement_step statements) signals (k + m) n t }
{}
