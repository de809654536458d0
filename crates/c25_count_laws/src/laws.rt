//! Laws of counts of a run, each the contract of a function that does nothing.

ghost use Rattle.std.specs.Prelude.{◌+◌, ◌↔◌, ℕ};
ghost use Rattle.c25_count_laws.specs.Counts.{ActsIn, BeginsAt, Counted, CountsActs, CountsAll, CountsRuns, Event, PassesAreFew, StatementStep};
ghost use Rattle.c25_meaning_processor.specs.Run.{Signals};
ghost use Rattle.c25_meaning_processor.specs.State.{State};
ghost use Rattle.c25_meaning_processor.specs.Statements.{IsImageOf, Statements};
ghost use Rattle.c25_meaning_processor.specs.Step.{begun};
ghost use Rattle.c25_meaning_processor.specs.WordStep.{WordStep};

/// A run of words in which an event is counted reaches the state to which it is counted, each run of words that
/// reaches a state is counted, and two counts of one run give the same number at each address. The same holds
/// of runs of statements.
pub fn counts_are_of_runs()
    ensures words { (event : Event) → CountsRuns event WordStep }
    ensures statements { (event : Event) (statements : Statements) → CountsRuns event (StatementStep statements) }
{}

/// From any state whose words are an image of the statements, under all samples, interrupt lines and BIO
/// levels and for every number of steps, a count of an event in the run of the words is one in the run of the
/// statements, to the same state, and the other way round.
pub fn words_and_statements_count_alike()
    ensures { (event : Event) (statements : Statements) (s : State) → IsImageOf statements s.world →
        (signals : Signals) (k n : ℕ) (count : ℕ → ℕ) (t : State) →
        Counted event WordStep signals k n s count t ↔ Counted event (StatementStep statements) signals k n s count t }
{}

/// In one run of words, or of statements, a branch passes at most as often as it acts.
pub fn passes_are_few()
    ensures words { PassesAreFew WordStep }
    ensures statements { (statements : Statements) → PassesAreFew (StatementStep statements) }
{}

/// The count of a run of words is not 0 at just those addresses whose instruction does a step of the run, and
/// there an instruction begins: the first state has a mark at the address, or a run mark, if CNF is 1 in that
/// step. Of runs of statements, too, the counts are not 0 at just those addresses.
pub fn counts_stand_at_instructions()
    ensures words { CountsActs WordStep }
    ensures begins { (signals : Signals) (k n : ℕ) (s : State) (address : ℕ) (acting : ActsIn WordStep signals k n s address) →
        BeginsAt (begun (signals.lines (k + acting.done)) acting.old).cnf s.world address }
    ensures statements { (statements : Statements) → CountsActs (StatementStep statements) }
{}

/// The counts of a run of words at all addresses, and the steps that slept, are all its steps: the counts
/// are summed below any bound from which on nothing was counted, and there is one. The same holds of runs of
/// statements.
pub fn counts_and_sleep_are_all_steps()
    ensures words { CountsAll WordStep }
    ensures statements { (statements : Statements) → CountsAll (StatementStep statements) }
{}
