//! `display` and `undisplay`: what is shown again after each command that leads to another state.

ghost use Rattle.std.specs.Prelude.{◌≡◌, ◌<◌, ◌++◌, [], IfOk, OnErr, OnOk, string_bytes, true};
ghost use Rattle.std.specs.List.{flat_map};
ghost use Rattle.c25_board.specs.Board.{state};
ghost use Rattle.c25_prompt.specs.Displays.{all_undisplayed, can_display, display_line, display_text, displays_text, is_displayed, next_display, no_displays, undisplayed_text, with_display, without_display, without_displays};

use crate::going::PromptBoard;
use crate::looking::push_shown;
use c25_meaning_common::no_memory::NoMemory;
use c25_prompt_lines::command::Shown;
use c25_texts::appending::push_texts;
use itoa::Buffer;
use std::alloc::Global;
use std::marker::Model;

/// What is displayed under a number.
#[derive(Clone, Copy)]
pub struct Display {
    pub number: u32,
    pub what: Shown,
}

/// What is displayed, in the order in which it was asked for, and how many numbers were given.
#[derive(Drop)]
pub struct Displays {
    shown: Vec<Display>,
    given: u32,
}

impl Model for Displays {
    ghost use Rattle.c25_prompt.specs.Displays.{DisplayData};

    ghost Value = { DisplayData };

    ghost view = { λ d. record { shown = d.shown.items; given = d.given } };
}

impl Displays {
    /// Nothing is displayed. No memory is taken.
    pub(crate) fn new(alloc: Global) -> Displays
        ensures { result ≡ no_displays }
    {
        Displays {
            shown: Vec::new(alloc),
            given: 0,
        }
    }

    /// Whether a number is left for one more.
    fn can_display(&self) -> bool
        ensures { result ≡ can_display self.now }
    {
        self.given < u32::MAX
    }

    /// What would be displayed under the next number.
    fn next(&self, what: Shown) -> Display
        requires { self.now.given < 4294967295 }
        ensures { result ≡ next_display self.now what }
    {
        Display {
            number: self.given + 1,
            what,
        }
    }

    /// Displays something more, if a number is left.
    fn add(&mut self, what: Shown) -> Result<(), NoMemory>
        ensures ok { OnOk result (self.new ≡ with_display self.old what) }
        ensures err { OnErr result (self.new ≡ self.old) }
    {
        if !self.can_display() {
            return Ok(());
        }
        let display = self.next(what);
        self.shown.push(display)?;
        self.given += 1;
        Ok(())
    }

    /// Whether something is displayed under a number.
    fn contains(&self, number: u32) -> bool
        ensures { result ≡ is_displayed self.now number }
    {
        self.shown.iter().any(|display| display.number == number)
    }

    /// Takes away what is displayed under a number.
    fn remove(&mut self, number: u32)
        ensures { self.new ≡ without_display self.old number }
    {
        self.shown.retain(|display| display.number != number);
    }

    /// Takes all away. The numbers go on.
    fn clear(&mut self)
        ensures { self.new ≡ without_displays self.old }
    {
        self.shown.clear();
    }

    /// What is displayed.
    fn as_slice(&self) -> &[Display]
        ensures { result.now ≡ self.now.shown }
    {
        self.shown.as_slice()
    }
}

/// Appends the line of what is displayed under a number.
fn push_display(text: &mut String, board: &PromptBoard, display: &Display) -> Result<(), NoMemory>
    ensures { OnOk result (string_bytes text.new ≡ string_bytes text.old ++ display_line (state board.now) display.now) }
{
    let mut digits = Buffer::new();
    push_texts(text, &[digits.format(display.number), ": "])?;
    push_shown(text, board, &display.what)
}

/// Appends the lines of several that are displayed.
fn push_lines(text: &mut String, board: &PromptBoard, shown: &[Display]) -> Result<(), NoMemory>
    ensures { OnOk result (string_bytes text.new ≡ string_bytes text.old ++ flat_map (display_line (state board.now)) shown.now) }
{
    for display in shown {
        push_display(text, board, display)?;
    }
    Ok(())
}

/// Appends the lines of all that is displayed.
pub(crate) fn push_displays(
    text: &mut String,
    board: &PromptBoard,
    displays: &Displays,
) -> Result<(), NoMemory>
    ensures { OnOk result (string_bytes text.new ≡ string_bytes text.old ++ displays_text (state board.now) displays.now) }
{
    push_lines(text, board, displays.as_slice())
}

/// The answer to `display` alone: what is displayed.
pub(crate) fn answer_displayed(
    alloc: Global,
    board: &PromptBoard,
    displays: &Displays,
) -> Result<String, NoMemory>
    ensures { IfOk result (λ text. string_bytes text ≡ displays_text (state board.now) displays.now) }
{
    let mut text = String::new(alloc);
    push_displays(&mut text, board, displays)?;
    Ok(text)
}

/// The line of what is displayed under the next number, or that no number is left.
fn next_line(
    alloc: Global,
    board: &PromptBoard,
    displays: &Displays,
    what: Shown,
) -> Result<String, NoMemory>
    ensures { IfOk result (λ text. string_bytes text ≡ display_text (state board.now) displays.now what) }
{
    let mut text = String::new(alloc);
    if displays.can_display() {
        push_display(&mut text, board, &displays.next(what))?;
        return Ok(text);
    }
    push_texts(&mut text, &["full\n"])?;
    Ok(text)
}

/// The answer to `display` with an operand, which is displayed from then on.
pub(crate) fn answer_display(
    alloc: Global,
    board: &PromptBoard,
    displays: &mut Displays,
    what: Shown,
) -> Result<String, NoMemory>
    ensures text { IfOk result (λ text. string_bytes text ≡ display_text (state board.now) displays.old what) }
    ensures displays { OnOk result (displays.new ≡ with_display displays.old what) }
{
    let text = next_line(alloc, board, displays, what)?;
    displays.add(what)?;
    Ok(text)
}

/// Appends the answer to `undisplay` with a number.
fn push_undisplayed(text: &mut String, was_one: bool, number: u32) -> Result<(), NoMemory>
    ensures { OnOk result (string_bytes text.new ≡ string_bytes text.old ++ undisplayed_text was_one number) }
{
    let mut digits = Buffer::new();
    if was_one {
        return push_texts(text, &["cleared ", digits.format(number), "\n"]);
    }
    push_texts(text, &["none ", digits.format(number), "\n"])
}

/// The answer to `undisplay` with a number, which is taken away.
pub(crate) fn answer_undisplay(
    alloc: Global,
    displays: &mut Displays,
    number: u32,
) -> Result<String, NoMemory>
    ensures text { IfOk result (λ text. string_bytes text ≡ undisplayed_text (is_displayed displays.old number) number) }
    ensures displays { OnOk result (displays.new ≡ without_display displays.old number) }
{
    let mut text = String::new(alloc);
    push_undisplayed(&mut text, displays.contains(number), number)?;
    displays.remove(number);
    Ok(text)
}

/// Appends a line for each of several that are taken away.
fn push_all_undisplayed(text: &mut String, shown: &[Display]) -> Result<(), NoMemory>
    ensures { OnOk result (string_bytes text.new ≡ string_bytes text.old ++ flat_map (λ d. undisplayed_text true d.number) shown.now) }
{
    for display in shown {
        push_undisplayed(text, true, display.number)?;
    }
    Ok(())
}

/// The answer to `undisplay` alone, which takes all away.
pub(crate) fn answer_undisplay_all(
    alloc: Global,
    displays: &mut Displays,
) -> Result<String, NoMemory>
    ensures text { IfOk result (λ text. string_bytes text ≡ all_undisplayed displays.old) }
    ensures displays { OnOk result (displays.new ≡ without_displays displays.old) }
{
    let mut text = String::new(alloc);
    push_all_undisplayed(&mut text, displays.as_slice())?;
    displays.clear();
    Ok(text)
}
