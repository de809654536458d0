//! Laws of data pages, each the contract of a function that does nothing.

ghost use Rattle.std.specs.Prelude.{◌≡◌, ◌/◌, ℕ, ◌⊎◌, pos, Bool, Err, Some};
ghost use Rattle.c25_meaning_common.specs.Fields.{field_number};
ghost use Rattle.c25_meaning_common.specs.declared.relocation.RelocationKind.TheVariants.{Low7};
ghost use Rattle.c25_meaning_instructions.specs.declared.insn.Insn.{Insn};
ghost use Rattle.c25_meaning_instructions.specs.Table.{size_of};
ghost use Rattle.c25_meaning_processor.specs.Run.{Signals, Left, Reaches, Runs};
ghost use Rattle.c25_meaning_processor.specs.State.{State};
ghost use Rattle.c25_meaning_processor.specs.declared.stop.Stop.{Stop};
ghost use Rattle.c25_meaning_processor.specs.declared.stop.Stop.TheVariants.{CodeWrite, PortDry};
ghost use Rattle.c25_meaning_processor.specs.WordStep.{WordStep};
ghost use Rattle.c25_meaning_processor.specs.Reset.{reset};
ghost use Rattle.c25_meaning_processor.specs.Statements.{IsImageOf, Statements, statement_step};
ghost use Rattle.c25_meaning_processor.specs.Step.{advanced, begun};
ghost use Rattle.c25_meaning_processor.specs.declared.lines.Lines.{Lines};
ghost use Rattle.c25_meaning_pages.specs.Inductive.{IsClosed, IsInductive, IsSurelyOn};
ghost use Rattle.c25_meaning_pages.specs.Known.{Knowledge};
ghost use Rattle.c25_meaning_pages.specs.Operands.{direct_of, operand_address};
ghost use Rattle.c25_meaning_pages.specs.Supposed.{AreSupposed, LetsNoOther, StepAsSupposed};
ghost use Rattle.c25_page_laws.specs.Example.{example_knowledge, example_program, on_page};

/// Where the knowledge of a program is inductive, and DP is surely a page before the statement at an
/// address acts, DP is that page whenever PC is at that address: after every number of steps from a
/// reset, with all samples, interrupt lines and BIO levels, and after the interrupt that the step
/// itself may take. Premise: each state from which the run steps is as supposed (`IsSupposed`): IMR lets
/// through no other interrupt lines, the words that are to be spared are not written, and BACC and CALA
/// go where they may. Of the last state only IMR is supposed. Nothing is said of runs that do not begin
/// with a reset.
pub fn pages_are_sure()
    ensures { (statements : Statements) (knowledge : Knowledge) (address page : ℕ) →
        IsInductive statements knowledge → IsSurelyOn knowledge address page →
        (signals : Signals) (k n : ℕ) (s t : State) (lines : Lines) → s.registers ≡ reset →
        Reaches (StepAsSupposed statements knowledge) signals k n s t →
        LetsNoOther knowledge (t.world.words 4) →
        (begun lines t).pc ≡ address → (begun lines t).dp ≡ page }
{}

/// Where the knowledge of a program is inductive and closed, a step after any run from a reset stops for two
/// reasons at most: a TBLW writes a word of an instruction, or an IN finds no sample left at its port. So no
/// step stops because no statement stands at PC, or because a repeat runs an instruction that may not be
/// repeated. The premises on the run are those of `pages_are_sure`. That a run stops at all, or that the
/// program does what it is meant to do, is not said.
pub fn code_is_left_by_writes_and_ports_alone()
    ensures { (statements : Statements) (knowledge : Knowledge) → IsInductive statements knowledge → IsClosed statements knowledge →
        (signals : Signals) (k n : ℕ) (s t : State) (lines : Lines) (bio : Bool) (stop : Stop) → s.registers ≡ reset →
        Reaches (StepAsSupposed statements knowledge) signals k n s t →
        LetsNoOther knowledge (t.world.words 4) →
        statement_step statements lines bio t ≡ Err stop → (stop ≡ CodeWrite) ⊎ (stop ≡ PortDry) }
{}

/// The two laws above (`pages_are_sure`, `code_is_left_by_writes_and_ports_alone`) hold of runs of words:
/// where the words of the first state are those of the statements (`IsImageOf`), as they are in the first
/// state of each linked program, and the states of the statements' run are as supposed, DP is surely the
/// page, and the run of words stops only at a TBLW that writes code or at an IN without a sample.
pub fn words_keep_to_their_pages()
    ensures pages { (statements : Statements) (knowledge : Knowledge) (signals : Signals) (k : ℕ) (s : State) (address page : ℕ) →
        IsInductive statements knowledge → IsSurelyOn knowledge address page →
        (n : ℕ) (t : State) (lines : Lines) → s.registers ≡ reset → IsImageOf statements s.world →
        Reaches WordStep signals k n s t → AreSupposed statements knowledge signals k n s →
        LetsNoOther knowledge (t.world.words 4) →
        (begun lines t).pc ≡ address → (begun lines t).dp ≡ page }
    ensures code { (statements : Statements) (knowledge : Knowledge) (signals : Signals) (k : ℕ) (s : State) →
        IsInductive statements knowledge → IsClosed statements knowledge →
        (n j : ℕ) (stop : Stop) (t : State) → s.registers ≡ reset → IsImageOf statements s.world →
        Runs WordStep signals k n s (Left j stop t) →
        AreSupposed statements knowledge signals k n s → (stop ≡ CodeWrite) ⊎ (stop ≡ PortDry) }
{}

/// Where DP is surely the page of a data word before the statement at an address acts, an instruction there
/// whose direct operand has the low seven bits of that word's address has that very word as its operand, when
/// it acts: the word that `LAC X` reads is X. The premises on the run are those of `pages_are_sure`, and for
/// runs of words those of `words_keep_to_their_pages`. SST and SST1 are left out, whose direct operands are
/// on data page 0; nothing is said of indirect operands.
pub fn direct_operands_reach_their_words()
    ensures statements { (statements : Statements) (knowledge : Knowledge) (address word : ℕ) (i : Insn) →
        IsInductive statements knowledge → IsSurelyOn knowledge address (word / 128) → direct_of i ≡ Some (field_number Low7 (pos word)) →
        (signals : Signals) (k n : ℕ) (s t : State) (lines : Lines) → s.registers ≡ reset →
        Reaches (StepAsSupposed statements knowledge) signals k n s t →
        LetsNoOther knowledge (t.world.words 4) →
        (begun lines t).pc ≡ address → operand_address i (advanced (size_of i) (begun lines t)) ≡ Some word }
    ensures words { (statements : Statements) (knowledge : Knowledge) (signals : Signals) (k : ℕ) (s : State) (address word : ℕ) (i : Insn) →
        IsInductive statements knowledge → IsSurelyOn knowledge address (word / 128) → direct_of i ≡ Some (field_number Low7 (pos word)) →
        (n : ℕ) (t : State) (lines : Lines) → s.registers ≡ reset → IsImageOf statements s.world →
        Reaches WordStep signals k n s t → AreSupposed statements knowledge signals k n s →
        LetsNoOther knowledge (t.world.words 4) →
        (begun lines t).pc ≡ address → operand_address i (advanced (size_of i) (begun lines t)) ≡ Some word }
{}

/// The premises of the laws above can be met: of the program `LDPK 4`, `B 1` at addresses 0 and 1 there
/// is knowledge that is inductive and closed, and by it DP is surely 4 before the jump acts.
pub fn knowledge_of_an_example_is_inductive()
    ensures inductive { IsInductive example_program example_knowledge }
    ensures closed { IsClosed example_program example_knowledge }
    ensures known { example_knowledge.known_at 0 1 ≡ Some (on_page 4) }
    ensures sure { IsSurelyOn example_knowledge 1 4 }
{}
