//! How a run at the prompt ends, and the line that says so.

ghost use Rattle.std.specs.Prelude.{◌≡◌, ◌++◌, codes, OnOk, string_bytes};
ghost use Rattle.std.specs.Fmt.{decimal};
ghost use Rattle.c25_meaning_common.specs.Digits.{four_digits};
ghost use Rattle.c25_prompt.specs.Runs.{end_text, may_go_on};

use c25_meaning_common::no_memory::NoMemory;
use c25_meaning_processor::stop::Stop;
use c25_texts::appending::push_texts;
use c25_texts::digits::four;
use itoa::Buffer;

/// How a run at the prompt ends.
#[derive(Clone, Copy)]
pub enum Ended {
    /// All steps were done.
    Ran,
    /// A breakpoint was met after the last step that was done.
    Met,
    /// A step stopped.
    Left(Stop),
    /// The last step that was done changed the word at a watched data address.
    Changed { address: u16, old: u16, new: u16 },
    /// No step was done, since as many breakpoints are set as may be and none can be set where the run is to
    /// end.
    Full,
}

impl Ended {
    /// Whether more steps may follow: all were done, and none was the last.
    pub(crate) fn may_go_on(&self) -> bool
        ensures { result ≡ may_go_on self.now }
    {
        matches!(self, Ended::Ran)
    }
}

/// Appends the line of a watched word that was changed.
fn push_changed(
    text: &mut String,
    steps: u32,
    address: u16,
    old: u16,
    new: u16,
) -> Result<(), NoMemory>
    ensures { OnOk result (string_bytes text.new ≡ string_bytes text.old
        ++ (codes "watch " ++ decimal steps ++ codes " " ++ four_digits address ++ codes " " ++ four_digits old ++ codes " " ++ four_digits new ++ codes "\n")) }
{
    let mut digits = Buffer::new();
    let (address, old, new) = (four(address), four(old), four(new));
    push_texts(
        text,
        &["watch ", digits.format(steps), " ", address.as_str()],
    )?;
    push_texts(text, &[" ", old.as_str(), " ", new.as_str(), "\n"])
}

/// Appends the line that says how a run ended, with the number of steps done in all and PC.
pub(crate) fn push_ended(
    text: &mut String,
    ended: &Ended,
    steps: u32,
    pc: u16,
) -> Result<(), NoMemory>
    ensures { OnOk result (string_bytes text.new ≡ string_bytes text.old ++ end_text ended.now steps pc) }
{
    let mut digits = Buffer::new();
    match ended {
        Ended::Ran => push_texts(text, &["ran ", digits.format(steps), "\n"]),
        Ended::Met => {
            let pc = four(pc);
            push_texts(
                text,
                &["break ", digits.format(steps), " ", pc.as_str(), "\n"],
            )
        }
        Ended::Left(stop) => {
            let name = stop.name();
            push_texts(text, &["left ", digits.format(steps), " ", name, "\n"])
        }
        Ended::Changed { address, old, new } => push_changed(text, steps, *address, *old, *new),
        Ended::Full => push_texts(text, &["full\n"]),
    }
}
