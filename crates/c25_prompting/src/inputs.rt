//! The samples and the schedule of two texts.

ghost use Rattle.c25_chain.specs.Chain.{inputs_of, inputs_view};
ghost use Rattle.c25_chain.specs.Refusal.{refusal_of};
ghost use Rattle.c25_meaning_common.specs.Results.{MeetsBy};

use c25_board::samples::Samples;
use c25_board::schedule::Schedule;
use c25_chain::chain::{samples_in, schedule_in};
use c25_chain::fault::Fault;
use std::alloc::Global;

/// Reads the texts of samples and of a schedule. A wrong line is fault 91 or 90.
pub(crate) fn inputs_in(
    alloc: Global,
    samples: &str,
    schedule: &str,
) -> Result<(Samples, Schedule), Fault>
    ensures { MeetsBy refusal_of inputs_view (inputs_of samples.now schedule.now) result }
{
    let samples = samples_in(alloc, samples)?;
    match schedule_in(alloc, schedule) {
        Ok(schedule) => Ok((samples, schedule)),
        Err(refusal) => Err(refusal),
    }
}
