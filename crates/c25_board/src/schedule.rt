//! Schedules: each line is a step in decimal and an event.

ghost use Rattle.std.specs.Prelude.{◌≡◌};
ghost use Rattle.c25_meaning_processor.specs.Schedule.{event_of, last_step, schedule_of};
ghost use Rattle.c25_meaning_common.specs.Results.{MeetsBy};

use c25_meaning_common::failure::Failure;
use c25_meaning_common::placed::Placed;
use c25_meaning_processor::lines::Lines;
use c25_meaning_processor::schedule::{BadSchedule, Event, ScheduleEntry};
use c25_texts::{LineFormat, decimal_of, is_word, read_items};
use std::alloc::Global;
use std::marker::Model;

/// Events in the order of their steps. Contracts see it as the list of its entries.
#[derive(Drop)]
pub struct Schedule {
    entries: Vec<ScheduleEntry>,
}

impl Model for Schedule {
    ghost use Rattle.std.specs.Prelude.{List};
    ghost use Rattle.c25_meaning_processor.specs.declared.schedule.ScheduleEntry.{ScheduleEntry};
    ghost use Rattle.c25_board.specs.ScheduleRises.{RisesFrom};

    ghost Value = { List ScheduleEntry };

    ghost view = { λ s. s.entries.items };

    ghost invariant = { λ s. RisesFrom 0 s.entries.items };
}

impl Schedule {
    ghost use Rattle.std.specs.Prelude.{◌≡◌};
    ghost use Rattle.c25_board.specs.ScheduleRises.{RisesFrom};

    /// The entries, the first one first.
    pub fn as_slice(&self) -> &[ScheduleEntry]
        ensures entries { result.now ≡ self.now }
        ensures rises { RisesFrom 0 result.now }
    {
        self.entries.as_slice()
    }
}

/// The event of a name: `int0`, `int1`, `int2`, `bio0` or `bio1`, in upper or lower case.
#[tactic(auto, unfolding(c25_meaning_processor::specs::Schedule::event_of))]
fn event_of(word: &[u8]) -> Option<Event>
    ensures { result ≡ event_of word.now }
{
    if is_word(word, "int0") {
        Some(Event::Latch(Lines::INT0))
    } else if is_word(word, "int1") {
        Some(Event::Latch(Lines::INT1))
    } else if is_word(word, "int2") {
        Some(Event::Latch(Lines::INT2))
    } else if is_word(word, "bio0") {
        Some(Event::Bio(false))
    } else if is_word(word, "bio1") {
        Some(Event::Bio(true))
    } else {
        None
    }
}

/// The step of the last entry, 0 before the first.
fn last_step(before: &[ScheduleEntry]) -> u32
    ensures { result ≡ last_step before.now }
{
    before.last().map_or(0, |entry| entry.step)
}

/// The format of a schedule: one entry a line.
struct EntryLines;

impl LineFormat for EntryLines {
    ghost use Rattle.c25_meaning_processor.specs.Schedule.{entry_of};

    type Item = ScheduleEntry;

    type Fault = BadSchedule;

    ghost item_of = { entry_of };

    fn item(before: &[ScheduleEntry], words: &[&[u8]]) -> Option<ScheduleEntry> {
        match words {
            [step, event] => {
                let step = decimal_of(u32::MAX, step)?;
                let event = event_of(event)?;
                if step < last_step(before) {
                    None
                } else {
                    Some(ScheduleEntry { step, event })
                }
            }
            _ => None,
        }
    }

    fn fault() -> BadSchedule {
        BadSchedule
    }
}

/// The schedule of a text. `BadSchedule` comes with the first line, counted from 1, that is neither blank nor
/// an entry, or whose step is less than that of the entry before it, and `NoMemory` where memory runs out.
pub fn read_schedule(
    alloc: Global,
    text: &str,
) -> Result<Schedule, Failure<Placed<usize, BadSchedule>>>
    ensures { MeetsBy (λ f. f.place) (λ x. x) (schedule_of text.now) result }
{
    let entries = read_items::<EntryLines>(alloc, text)?;
    Ok(Schedule { entries })
}
