//! Laws of the causes, each the contract of a function that does nothing.

ghost use Rattle.std.specs.Prelude.{◌≡◌, ◌∷◌, List, ℕ, None, is_none, is_some};
ghost use Rattle.c25_meaning_processor.specs.Samples.{sample_of};
ghost use Rattle.c25_meaning_processor.specs.Schedule.{entry_of};
ghost use Rattle.c25_meaning_processor.specs.Script.{script_command_of};
ghost use Rattle.c25_meaning_processor.specs.declared.sample.Sample.{Sample};
ghost use Rattle.c25_meaning_processor.specs.declared.schedule.ScheduleEntry.{ScheduleEntry};
ghost use Rattle.c25_meaning_processor.specs.declared.script.Cmd.{Cmd};
ghost use Rattle.c25_file_hints.specs.Items.{IsEarlier, IsPastMemory, command_cause, entry_cause, sample_cause};
ghost use Rattle.c25_file_hints.specs.declared.cause.Cause.TheVariants as cause;

/// A line of samples that is not blank has a cause exactly where it is no sample.
pub fn each_refused_sample_has_a_cause()
    ensures { (before : List Sample) (part : List ℕ) (parts : List (List ℕ)) → is_none (sample_of before (part ∷ parts)) ≡ is_some (sample_cause (part ∷ parts)) }
{}

/// A line of a script that is refused for the end of the memory asks for a word past it.
pub fn a_refused_command_goes_past_the_memory()
    ensures { (before : List Cmd) (parts : List (List ℕ)) → script_command_of before parts ≡ None → command_cause parts ≡ cause.PastMemory → IsPastMemory parts }
{}

/// A line of a schedule that is refused for its order has a step that is less than the last one before it.
pub fn a_refused_step_comes_too_late()
    ensures { (before : List ScheduleEntry) (words : List (List ℕ)) → entry_of before words ≡ None → entry_cause words ≡ cause.Order → IsEarlier before words }
{}
