//! Schedules: what happens from outside, and before which step.

use crate::lines::Lines;
use thiserror::Error;

/// What happens before a step (SPRU014, "External Interrupts" and the page of BIOZ).
#[derive(Clone, Copy)]
pub enum Event {
    /// Interrupt lines are latched.
    Latch(Lines),
    /// The level of BIO from this step on.
    Bio(bool),
}

/// An event, and the step before which it happens.
#[derive(Clone, Copy)]
pub struct ScheduleEntry {
    /// The step, counted from 0.
    pub step: u32,
    pub event: Event,
}

/// A line is no entry, or its step is less than that of the entry before (90). It is reported with the number
/// of the line, counted from 1.
#[derive(Clone, Copy, Debug, Error)]
#[error("{}", self.name())]
pub struct BadSchedule;

impl BadSchedule {
    ghost use Rattle.std.specs.Prelude.{◌≡◌, codes};

    /// The fault number shown to the user.
    pub fn number(&self) -> u8
        ensures { result ≡ 90 }
    {
        90
    }

    /// The name of the fault shown to the user.
    pub fn name(&self) -> &'static str
        ensures { result.now ≡ codes "BadSchedule" }
    {
        "BadSchedule"
    }
}
