//! Meetings of breakpoints that runs pass.

ghost use Rattle.std.specs.Prelude.{◌≡◌, ◌++◌, [], IfOk, OnOk, codes, string_bytes};
ghost use Rattle.std.specs.Fmt.{decimal};
ghost use Rattle.c25_meaning_common.specs.Digits.{four_digits};
ghost use Rattle.c25_meaning_processor.specs.Goes.{is_breakpoint};
ghost use Rattle.c25_prompt.specs.Ignored.{count_found, count_line, counts_asked, counts_text, ignore_text, left_at, left_line, one_less, with_count, without_count};

use crate::stops::Stops;
use c25_debug::steps::{Answer, shown};
use c25_meaning_common::no_memory::NoMemory;
use c25_prompt_lines::command::Wrong;
use c25_texts::appending::push_texts;
use c25_texts::digits::four;
use itoa::Buffer;
use std::alloc::Global;
use std::marker::Model;

/// How many more meetings of the breakpoint at an address are passed.
#[derive(Clone, Copy)]
pub struct Ignored {
    pub address: u16,
    pub left: u32,
}

/// The counts of the breakpoints of which meetings are passed, each above 0.
#[derive(Drop)]
pub struct Ignores {
    counts: Vec<Ignored>,
}

impl Model for Ignores {
    ghost use Rattle.std.specs.Prelude.{List};
    ghost use Rattle.c25_prompt.specs.declared.ignored.Ignored.{Ignored};

    ghost Value = { List Ignored };

    ghost view = { λ i. i.counts.items };
}

/// The count that was found, or 0.
fn count_found(found: Option<Ignored>) -> u32
    ensures { result ≡ count_found found }
{
    match found {
        None => 0,
        Some(ignored) => ignored.left,
    }
}

impl Ignores {
    /// No meeting is passed. No memory is taken.
    pub(crate) fn new(alloc: Global) -> Ignores
        ensures { result ≡ [] }
    {
        Ignores {
            counts: Vec::new(alloc),
        }
    }

    /// How many more meetings of the breakpoint at an address are passed.
    pub(crate) fn left_at(&self, address: u16) -> u32
        ensures { result ≡ left_at self.now address }
    {
        count_found(
            self.counts
                .iter()
                .find(|ignored| ignored.address == address)
                .copied(),
        )
    }

    /// Forgets the count of an address.
    pub(crate) fn forget(&mut self, address: u16)
        ensures { self.new ≡ without_count self.old address }
    {
        self.counts.retain(|ignored| ignored.address != address);
    }

    /// Gives an address this count.
    fn set(&mut self, address: u16, count: u32) -> Result<(), NoMemory>
        ensures { OnOk result (self.new ≡ with_count self.old address count) }
    {
        self.forget(address);
        if count == 0 {
            return Ok(());
        }
        self.counts.push(Ignored {
            address,
            left: count,
        })?;
        Ok(())
    }

    /// Takes one from the count of an address, if it has one.
    pub(crate) fn take_one(&mut self, address: u16) -> Result<(), NoMemory>
        ensures { OnOk result (self.new ≡ one_less self.old address) }
    {
        let left = self.left_at(address);
        self.set(address, left.saturating_sub(1))
    }

    /// Gives an address this count, if a breakpoint is set there.
    fn ask(&mut self, is_set: bool, address: u16, count: u32) -> Result<(), NoMemory>
        ensures { OnOk result (self.new ≡ counts_asked is_set self.old address count) }
    {
        if !is_set {
            return Ok(());
        }
        self.set(address, count)
    }
}

/// Appends the part of the line of a count that follows the first word.
fn push_left_at(text: &mut String, address: u16, count: u32) -> Result<(), NoMemory>
    ensures { OnOk result (string_bytes text.new ≡ string_bytes text.old ++ (four_digits address ++ codes " " ++ decimal count ++ codes "\n")) }
{
    let mut digits = Buffer::new();
    let address = four(address);
    push_texts(text, &[address.as_str(), " ", digits.format(count), "\n"])
}

/// Appends the line of a count.
fn push_count(text: &mut String, address: u16, count: u32) -> Result<(), NoMemory>
    ensures { OnOk result (string_bytes text.new ≡ string_bytes text.old ++ count_line address count) }
{
    push_texts(text, &["ignore "])?;
    push_left_at(text, address, count)?;
    Ok(())
}

/// Appends the answer to `ignore` with operands.
fn push_asked(text: &mut String, is_set: bool, address: u16, count: u32) -> Result<(), NoMemory>
    ensures { OnOk result (string_bytes text.new ≡ string_bytes text.old ++ ignore_text is_set address count) }
{
    if is_set {
        return push_count(text, address, count);
    }
    push_texts(text, &["? ", Wrong::NoBreakpoint.text(), "\n"])
}

/// Appends the line of a breakpoint that has a count.
fn push_left(text: &mut String, address: u16, count: u32) -> Result<(), NoMemory>
    ensures { OnOk result (string_bytes text.new ≡ string_bytes text.old ++ left_line address count) }
{
    if count == 0 {
        return Ok(());
    }
    push_count(text, address, count)
}

/// Appends a line for each of these breakpoints that has a count.
fn push_counts(text: &mut String, breaks: &[u16], ignores: &Ignores) -> Result<(), NoMemory>
    ensures { OnOk result (string_bytes text.new ≡ string_bytes text.old ++ counts_text breaks.now ignores.now) }
{
    for address in breaks {
        push_left(text, *address, ignores.left_at(*address))?;
    }
    Ok(())
}

/// The answer to `ignore` with operands: runs pass the next `count` meetings of the breakpoint that is set at an
/// address.
pub(crate) fn answer_ignore(
    alloc: Global,
    stops: &mut Stops,
    address: u16,
    count: u32,
) -> Result<Answer, NoMemory>
    ensures text { IfOk result (λ answer. string_bytes answer.text ≡ ignore_text (is_breakpoint stops.old.breakpoints address) address count) }
    ensures ignored { OnOk result (stops.new.ignored ≡ counts_asked (is_breakpoint stops.old.breakpoints address) stops.old.ignored address count) }
    ensures breakpoints { stops.new.breakpoints ≡ stops.old.breakpoints }
    ensures once { stops.new.once ≡ stops.old.once }
    ensures watches { stops.new.watches ≡ stops.old.watches }
{
    let is_set = stops.breakpoints.contains(address);
    let mut text = String::new(alloc);
    push_asked(&mut text, is_set, address, count)?;
    stops.ignored.ask(is_set, address, count)?;
    Ok(shown(text))
}

/// The answer to `ignore` alone: a line for each breakpoint that has a count.
pub(crate) fn answer_ignored(alloc: Global, stops: &Stops) -> Result<Answer, NoMemory>
    ensures { IfOk result (λ answer. string_bytes answer.text ≡ counts_text stops.now.breakpoints stops.now.ignored) }
{
    let mut text = String::new(alloc);
    push_counts(&mut text, stops.breakpoints.as_slice(), &stops.ignored)?;
    Ok(shown(text))
}
