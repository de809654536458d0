//! The interrupts of a schedule, by their lines, seen from the end of a run.

ghost use Rattle.std.specs.Prelude.{◌≡◌};
ghost use Rattle.c25_unused_inputs.specs.Requests as meant;

use bitflags::Flags;
use c25_meaning_processor::schedule::{Event, ScheduleEntry};
use c25_meaning_processor::stop::Stop;

/// How a run ended.
#[derive(Clone, Copy)]
pub struct RunEnd {
    /// How many steps were done.
    pub steps: u32,
    /// Why the next step was not done; `None` where all steps were done.
    pub stop: Option<Stop>,
}

/// An interrupt line.
#[derive(Clone, Copy)]
pub enum InterruptLine {
    Int0,
    Int1,
    Int2,
}

/// The interrupts that a schedule has for a line, and what a run shows of them.
#[derive(Clone, Copy)]
pub struct Request {
    pub line: InterruptLine,
    /// The last step of the run in which the line was latched.
    pub last: Option<u32>,
    /// The first step after the run in which it would have been.
    pub next: Option<u32>,
    /// Whether an interrupt of the line was enabled before one of the steps from `last` on.
    pub enabled: bool,
}

/// The interrupts of all three lines.
#[derive(Clone, Copy)]
pub struct Requests {
    pub int0: Request,
    pub int1: Request,
    pub int2: Request,
}

impl InterruptLine {
    /// The number of the line: that of its name, and that of its bit in IMR.
    pub fn number(self) -> u8
        ensures { result ≡ meant.number_of self }
    {
        match self {
            InterruptLine::Int0 => 0,
            InterruptLine::Int1 => 1,
            InterruptLine::Int2 => 2,
        }
    }

    /// The bit of the line in IMR and in a set of lines.
    pub fn bit(self) -> u16
        ensures { result ≡ meant.bit_of self }
    {
        match self {
            InterruptLine::Int0 => 1,
            InterruptLine::Int1 => 2,
            InterruptLine::Int2 => 4,
        }
    }
}

/// Whether an event latches the line of a bit.
fn latches(event: &Event, bit: u16) -> bool
    ensures { result ≡ meant.latches bit event.now }
{
    match event {
        Event::Latch(lines) => u16::from(lines.bits()) & bit == bit,
        Event::Bio(_) => false,
    }
}

/// Whether an entry latches the line of a bit in a step below a number.
fn is_before(entry: &ScheduleEntry, bit: u16, below: u32) -> bool
    ensures { result ≡ meant.is_before bit below entry.now }
{
    latches(&entry.event, bit) && entry.step < below
}

/// Whether an entry latches the line of a bit in a step from a number on.
fn is_from(entry: &ScheduleEntry, bit: u16, from: u64) -> bool
    ensures { result ≡ meant.is_from bit from entry.now }
{
    latches(&entry.event, bit) && from <= u64::from(entry.step)
}

/// The step of an entry that latches the line of a bit in a step below a number, otherwise the one found before.
fn later(found: Option<u32>, entry: &ScheduleEntry, bit: u16, below: u32) -> Option<u32>
    ensures { result ≡ meant.later bit below found entry.now }
{
    if is_before(entry, bit, below) {
        Some(entry.step)
    } else {
        found
    }
}

/// The step found before, otherwise that of an entry that latches the line of a bit in a step from a number on.
fn sooner(found: Option<u32>, entry: &ScheduleEntry, bit: u16, from: u64) -> Option<u32>
    ensures { result ≡ meant.sooner bit from found entry.now }
{
    match found {
        Some(step) => Some(step),
        None => {
            if is_from(entry, bit, from) {
                Some(entry.step)
            } else {
                None
            }
        }
    }
}

/// The step of the last entry that latches the line of a bit in a step below a number, if there is one.
fn last_step(entries: &[ScheduleEntry], bit: u16, below: u32) -> Option<u32>
    ensures { result ≡ meant.last_step bit below entries.now }
{
    let mut found = None;
    for entry in entries {
        found = later(found, entry, bit, below);
    }
    found
}

/// The step of the first entry that latches the line of a bit in a step from a number on, if there is one.
fn next_step(entries: &[ScheduleEntry], bit: u16, from: u64) -> Option<u32>
    ensures { result ≡ meant.next_step bit from entries.now }
{
    let mut found = None;
    for entry in entries {
        found = sooner(found, entry, bit, from);
    }
    found
}

/// The first step that a run did not begin: where a step stopped, the one after it.
fn unbegun(end: RunEnd) -> u64
    ensures { result ≡ meant.unbegun end }
{
    match end.stop {
        None => u64::from(end.steps),
        Some(_) => u64::from(end.steps) + 1,
    }
}

/// What a schedule has for a line, before the first step of a run that ends so.
fn request_of(entries: &[ScheduleEntry], end: RunEnd, line: InterruptLine) -> Request
    ensures { result ≡ meant.request_of entries.now end line }
{
    let bit = line.bit();
    let last = last_step(entries, bit, end.steps);
    let next = next_step(entries, bit, unbegun(end));
    Request {
        line,
        last,
        next,
        enabled: false,
    }
}

/// What a schedule has for the three lines, before the first step of a run that ends so.
pub fn requests_of(entries: &[ScheduleEntry], end: RunEnd) -> Requests
    ensures { result ≡ meant.requests_of entries.now end }
{
    Requests {
        int0: request_of(entries, end, InterruptLine::Int0),
        int1: request_of(entries, end, InterruptLine::Int1),
        int2: request_of(entries, end, InterruptLine::Int2),
    }
}
