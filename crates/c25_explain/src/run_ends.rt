//! Explanations of the ends of runs that leave the code.

ghost use Rattle.std.specs.Prelude.{◌≡◌};
ghost use Rattle.c25_explain.specs.RunEnds.{ExplainsEnd, IsStopNamed};
ghost use Rattle.c25_meaning_processor.specs.RunText.{stop_name};

use crate::run_end_texts::{bad_repeat, code_write, out_of_code, port_dry};
use c25_meaning_processor::stop::Stop;
use std::fmt;

/// What an end of a run means. Each text is lines of at most 100 columns, and the last line has its line feed
/// too.
#[derive(Clone, Copy)]
pub struct RunEnd {
    /// The name shown to the user, after `left` and the number of steps.
    pub name: &'static str,
    /// What the end means.
    pub meaning: &'static str,
    /// The smallest example, with the line that reports the end.
    pub example: &'static str,
}

impl fmt::Display for RunEnd {
    ghost use Rattle.std.specs.Prelude.{Some};
    ghost use Rattle.c25_explain.specs.RunEnds.{end_text};

    ghost output = { λ end. Some (end_text end) };

    /// The whole explanation: name, meaning and example, with an empty line between them.
    fn fmt<W: fmt::Write>(&self, f: &mut fmt::Formatter<W>) -> fmt::Result {
        let RunEnd {
            name,
            meaning,
            example,
        } = self;
        write!(f, "{name}\n\n{meaning}\n{example}")
    }
}

/// The explanation of the end of a run for this reason.
fn run_end(stop: Stop) -> RunEnd
    ensures { result.name.now ≡ stop_name stop }
{
    match stop {
        Stop::OutOfCode => out_of_code(),
        Stop::CodeWrite => code_write(),
        Stop::BadRepeat => bad_repeat(),
        Stop::PortDry => port_dry(),
    }
}

/// The reason of this name, in letters of either case. `None` where no reason has the name.
#[tactic(auto, using(crate::proofs::NoEnd::no_stop))]
fn stop_named(name: &str) -> Option<Stop>
    ensures { IsStopNamed name.now result }
{
    if Stop::OutOfCode.name().eq_ignore_ascii_case(name) {
        Some(Stop::OutOfCode)
    } else if Stop::CodeWrite.name().eq_ignore_ascii_case(name) {
        Some(Stop::CodeWrite)
    } else if Stop::BadRepeat.name().eq_ignore_ascii_case(name) {
        Some(Stop::BadRepeat)
    } else if Stop::PortDry.name().eq_ignore_ascii_case(name) {
        Some(Stop::PortDry)
    } else {
        None
    }
}

/// The explanation of the end of a run of this name, in letters of either case. `None` where no end has the
/// name.
pub fn run_end_named(name: &str) -> Option<RunEnd>
    ensures { ExplainsEnd name.now result }
{
    Some(run_end(stop_named(name)?))
}
