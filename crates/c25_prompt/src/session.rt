//! Sessions at the prompt: commands over a board, answered one by one.

ghost use Rattle.std.specs.Prelude.{◌≡◌, [], IfOk, IfSome, false, Ok, option_map, Some, string_bytes};
ghost use Rattle.c25_board.specs.Board.{entries, signals, state, steps};
ghost use Rattle.c25_meaning_processor.specs.Signals.{signals_of};
ghost use Rattle.c25_meaning_processor.specs.WordStep.{WordStep};
ghost use Rattle.c25_prompt.specs.Help.{help_text};
ghost use Rattle.c25_prompt.specs.Displays.{no_displays};
ghost use Rattle.c25_prompt.specs.Point.{point_of, session_of};
ghost use Rattle.c25_meaning_debugger.specs.Texts.{set_text};
ghost use Rattle.c25_meaning_processor.specs.Set.{can_set, with_breakpoint};
ghost use Rattle.c25_prompt.specs.Prompt.{PromptAnswers, return_address, with_once};
ghost use Rattle.c25_prompt_lines.specs.Addresses.{program_view};
ghost use Rattle.c25_prompt.specs.Session.{IsOnRun, LineAnswers, PlainAnswers, ReadAnswers, SessionAnswers, here, here_at};
ghost use Rattle.c25_prompt_lines.specs.Commands.{command_of};
ghost use Rattle.c25_prompt_lines.specs.Expressions.{here_view};
ghost use Rattle.c25_prompt.specs.Each.{is_quit};
ghost use Rattle.c25_meaning_linking.specs.Linking.{line_at};
ghost use Rattle.c25_prompt_lines.specs.WithinMemory.{IsWithinPrompt, IsWithinSession};
ghost use Rattle.c25_prompt_lines.specs.Wrong.{wrong_line};

use crate::after::push_after;
use crate::displays::{
    Displays, answer_display, answer_displayed, answer_undisplay, answer_undisplay_all,
};
use crate::going::PromptBoard;
use crate::hits::answer_hits;
use crate::ignored::{answer_ignore, answer_ignored};
use crate::inputs::answer_inputs;
use crate::laws::commands_stay_on_the_run;
use crate::looking::show_number;
use crate::outputs::answer_outputs;
use crate::over::answer_next;
use crate::rewinding::answer_back_to;
use crate::running::answer_until;
use crate::script::answer_script;
use crate::source::answer_line;
use crate::start::{Start, answer_back};
use crate::stops::Stops;
use crate::trace::answer_trace;
use c25_debug::breakpoints::{answer_cleared, answer_set};
use c25_debug::shown::show_list;
use c25_debug::steps::{Answer, shown};
use c25_link::Image;
use c25_meaning_common::no_memory::NoMemory;
use c25_prompt_lines::command::{PromptCommand, SessionCommand, Wrong};
use c25_prompt_lines::line::{Read, command_of};
use c25_prompt_lines::program::{Here, Program};
use c25_texts::appending::push_texts;
use std::alloc::Global;

/// The text that shows the commands.
const HELP: &str =
    "step N, run N, next [N], over [N], finish, until A [N], back N, rback, restart; break A, tbreak A, clear A, ignore [A N], hits A; watch A, unwatch A; regs, stack, where, list [A] N, symbols, data A N, prog A N, print V, print *V, display [V], display [*V], undisplay [N], line, outputs [N], inputs, trace [N]; help, quit\nA is a number of one to four hexadecimal digits, NAME, SOURCE:NAME or FILE:LINE, the last three also with +WORDS; V is A, or an expression of the assembler, with names, and $ for PC; N is a decimal number.\n";

/// The answer to `tbreak`: a breakpoint that is cleared when it is met. One that is set already is kept.
fn answer_once(alloc: Global, stops: &mut Stops, address: u16) -> Result<Answer, NoMemory>
    ensures text { IfOk result (λ answer. string_bytes answer.text ≡ set_text (can_set stops.old.breakpoints address) address) }
    ensures breakpoints { IfOk result (λ answer. stops.new.breakpoints ≡ with_breakpoint stops.old.breakpoints address) }
    ensures once { IfOk result (λ answer. stops.new.once ≡ with_once stops.old.breakpoints stops.old.once address) }
    ensures watches { stops.new.watches ≡ stops.old.watches }
    ensures ignored { stops.new.ignored ≡ stops.old.ignored }
{
    if !stops.breakpoints.contains(address) && stops.can_set(address) {
        stops.once.set(address);
    }
    answer_set(alloc, &mut stops.breakpoints, address)
}

/// The answer to `help`.
#[tactic(auto, unfolding(crate::specs::Help::help_text))]
fn answer_help(alloc: Global) -> Result<Answer, NoMemory>
    ensures { IfOk result (λ answer. string_bytes answer.text ≡ help_text) }
{
    let mut text = String::new(alloc);
    text.push_str(HELP)?;
    Ok(shown(text))
}

/// The address to which this call returns: that on the top of the stack.
fn return_address(board: &PromptBoard) -> u16
    ensures { result ≡ return_address (state board.now) }
{
    board.regs().stack[0]
}

/// The line that says why a line is invalid.
fn answer_wrong(alloc: Global, wrong: Wrong) -> Result<Answer, NoMemory>
    ensures { IfOk result (λ answer. string_bytes answer.text ≡ wrong_line wrong) }
{
    let mut text = String::new(alloc);
    push_texts(&mut text, &["? ", wrong.text(), "\n"])?;
    Ok(shown(text))
}

/// No answer.
fn answer_nothing(alloc: Global) -> Answer
    ensures { string_bytes result.text ≡ [] }
{
    shown(String::new(alloc))
}

/// The answer to a line, and whether it ends the session.
#[derive(Drop)]
pub struct Reply {
    pub text: String,
    pub is_last: bool,
}

/// An answer that does not end the session.
fn not_last(answer: Answer) -> Reply
    ensures text { string_bytes result.text ≡ string_bytes answer.text }
    ensures last { result.is_last ≡ false }
{
    Reply {
        text: answer.text,
        is_last: false,
    }
}

/// The file of the instruction at an address, if it is known.
fn file_at(image: &Image, address: u16) -> Option<&str>
    ensures { option_map (λ s. s.now) result ≡ option_map (λ r. r.0) (line_at address image.now.lines) }
{
    match image.line_of(address) {
        Some((file, _)) => Some(file),
        None => None,
    }
}

/// Where the processor stands when an address is in PC.
fn here_at(image: &Image, pc: u16) -> Here<'_>
    ensures { here_view result ≡ here_at image.entry.now pc }
{
    let file = file_at(image, pc);
    Here { pc, file }
}

/// A session at the prompt: a board that runs a program from its first state on, and where its runs stop.
#[derive(Drop)]
pub struct Prompt<'a, B: Start> {
    alloc: Global,
    program: Program<'a>,
    start: &'a B,
    board: PromptBoard,
    stops: Stops,
    displays: Displays,
}

impl<'a, B: Start> Prompt<'a, B> {
    /// A session at the first state of a run, without breakpoints and watches, where nothing is displayed.
    pub fn new(alloc: Global, program: Program<'a>, start: &'a B) -> Result<Self, NoMemory>
        ensures program { IfOk result (λ prompt. prompt.program ≡ program.entry) }
        ensures start { IfOk result (λ prompt. prompt.start ≡ start.entry) }
        ensures state { IfOk result (λ prompt. state prompt.board ≡ B.first start.entry.now) }
        ensures steps { IfOk result (λ prompt. steps prompt.board ≡ 0) }
        ensures schedule { IfOk result (λ prompt. entries prompt.board ≡ B.schedule start.entry.now) }
        ensures breakpoints { IfOk result (λ prompt. prompt.stops.breakpoints ≡ []) }
        ensures once { IfOk result (λ prompt. prompt.stops.once ≡ []) }
        ensures watches { IfOk result (λ prompt. prompt.stops.watches ≡ []) }
        ensures ignored { IfOk result (λ prompt. prompt.stops.ignored ≡ []) }
        ensures displays { IfOk result (λ prompt. prompt.displays ≡ no_displays) }
    {
        let board = start.board()?;
        Ok(Prompt {
            alloc,
            program,
            start,
            board,
            stops: Stops::new(alloc),
            displays: Displays::new(alloc),
        })
    }

    /// Does what a command asks for, and gives its answer.
    fn answer(&mut self, command: &PromptCommand) -> Result<Answer, NoMemory>
        requires within { IsWithinPrompt command.now }
        requires reached { IsOnRun (B.schedule self.old.start.now) (B.first self.old.start.now) (entries self.old.board) (steps self.old.board) (state self.old.board) }
        ensures answer { IfOk result (λ answer. PromptAnswers WordStep (signals self.old.board) self.old.program.image.now (B.first self.old.start.now) command.now
            (point_of self.old.board self.old.stops) (string_bytes answer.text) (point_of self.new.board self.new.stops)) }
        ensures program { self.new.program ≡ self.old.program }
        ensures start { self.new.start ≡ self.old.start }
        ensures displays { self.new.displays ≡ self.old.displays }
        ensures schedule { IfOk result (λ answer. entries self.new.board ≡ entries self.old.board) }
    {
        let (alloc, image, start) = (self.alloc, self.program.image, self.start);
        match command {
            PromptCommand::Script(command) => {
                answer_script(alloc, image, &mut self.board, &mut self.stops, command)
            }
            PromptCommand::Next(n) => answer_next(alloc, &mut self.board, *n, &mut self.stops),
            PromptCommand::Finish => {
                let address = return_address(&self.board);
                answer_until(alloc, &mut self.board, address, u32::MAX, &mut self.stops)
            }
            PromptCommand::Until { address, count } => {
                answer_until(alloc, &mut self.board, *address, *count, &mut self.stops)
            }
            PromptCommand::Watch(address) => answer_set(alloc, &mut self.stops.watches, *address),
            PromptCommand::Unwatch(address) => {
                answer_cleared(alloc, &mut self.stops.watches, *address)
            }
            PromptCommand::Once(address) => answer_once(alloc, &mut self.stops, *address),
            PromptCommand::Ignore { address, count } => {
                answer_ignore(alloc, &mut self.stops, *address, *count)
            }
            PromptCommand::Ignored => answer_ignored(alloc, &self.stops),
            PromptCommand::Back(n) => answer_back(alloc, start, &mut self.board, *n),
            PromptCommand::BackTo => answer_back_to(alloc, start, &mut self.board, &self.stops),
            PromptCommand::Hits(address) => {
                answer_hits(alloc, start, self.board.steps(), *address)
            }
            PromptCommand::Trace(most) => {
                answer_trace(alloc, start, image, self.board.steps(), *most)
            }
            PromptCommand::Inputs => answer_inputs(alloc, start, &self.board),
            PromptCommand::ListFrom { address, count } => {
                show_list(alloc, image, *address, *count)
            }
            PromptCommand::Outputs(most) => {
                answer_outputs(alloc, start, self.board.steps(), *most)
            }
            PromptCommand::Print(what) => show_number(alloc, &self.board, what),
            PromptCommand::Help => answer_help(alloc),
            PromptCommand::Quit => Ok(answer_nothing(alloc)),
        }
    }

    /// Does what a command asks for, and answers its text. `NoMemory` where memory ran out for the answer, for
    /// an output or for the way back; the session is at its end then.
    pub fn command(&mut self, command: &PromptCommand) -> Result<String, NoMemory>
        requires within { IsWithinPrompt command.now }
        requires reached { IsOnRun (B.schedule self.old.start.now) (B.first self.old.start.now) (entries self.old.board) (steps self.old.board) (state self.old.board) }
        ensures answer { IfOk result (λ text. PromptAnswers WordStep (signals_of (B.schedule self.old.start.now)) self.old.program.image.now (B.first self.old.start.now) command.now
            (point_of self.old.board self.old.stops) (string_bytes text) (point_of self.new.board self.new.stops)) }
        ensures reached { IfOk result (λ text. IsOnRun (B.schedule self.old.start.now) (B.first self.old.start.now) (entries self.new.board) (steps self.new.board) (state self.new.board)) }
        ensures program { self.new.program ≡ self.old.program }
        ensures start { self.new.start ≡ self.old.start }
        ensures displays { self.new.displays ≡ self.old.displays }
    {
        commands_stay_on_the_run();
        let answer = self.answer(command)?;
        Ok(answer.text)
    }

    /// Does what a command of the prompt asks for, and answers its text and after it what is displayed.
    fn plain(&mut self, command: &PromptCommand) -> Result<String, NoMemory>
        requires within { IsWithinPrompt command.now }
        requires reached { IsOnRun (B.schedule self.old.start.now) (B.first self.old.start.now) (entries self.old.board) (steps self.old.board) (state self.old.board) }
        ensures answer { IfOk result (λ text. PlainAnswers WordStep (signals_of (B.schedule self.old.start.now)) (program_view self.old.program) (B.first self.old.start.now) command.now
            (session_of self.old.board self.old.stops self.old.displays) (string_bytes text) (session_of self.new.board self.new.stops self.new.displays)) }
        ensures reached { IfOk result (λ text. IsOnRun (B.schedule self.old.start.now) (B.first self.old.start.now) (entries self.new.board) (steps self.new.board) (state self.new.board)) }
        ensures program { self.new.program ≡ self.old.program }
        ensures start { self.new.start ≡ self.old.start }
    {
        let mut text = self.command(command)?;
        push_after(&mut text, command, &self.board, &self.displays)?;
        Ok(text)
    }

    /// Does what a command of a session asks for, and answers its text. `NoMemory` as for `command`.
    pub fn session_command(&mut self, command: &SessionCommand) -> Result<String, NoMemory>
        requires within { IsWithinSession command.now }
        requires reached { IsOnRun (B.schedule self.old.start.now) (B.first self.old.start.now) (entries self.old.board) (steps self.old.board) (state self.old.board) }
        ensures answer { IfOk result (λ text. SessionAnswers WordStep (signals_of (B.schedule self.old.start.now)) (program_view self.old.program) (B.first self.old.start.now) command.now
            (session_of self.old.board self.old.stops self.old.displays) (string_bytes text) (session_of self.new.board self.new.stops self.new.displays)) }
        ensures reached { IfOk result (λ text. IsOnRun (B.schedule self.old.start.now) (B.first self.old.start.now) (entries self.new.board) (steps self.new.board) (state self.new.board)) }
        ensures program { self.new.program ≡ self.old.program }
        ensures start { self.new.start ≡ self.old.start }
    {
        let (alloc, program) = (self.alloc, self.program);
        match command {
            SessionCommand::Plain(command) => self.plain(command),
            SessionCommand::Line => answer_line(alloc, &program, &self.board),
            SessionCommand::Display(what) => {
                answer_display(alloc, &self.board, &mut self.displays, *what)
            }
            SessionCommand::Displayed => answer_displayed(alloc, &self.board, &self.displays),
            SessionCommand::Undisplay(number) => {
                answer_undisplay(alloc, &mut self.displays, *number)
            }
            SessionCommand::UndisplayAll => answer_undisplay_all(alloc, &mut self.displays),
        }
    }

    /// The allocator of the session.
    pub(crate) fn alloc(&self) -> Global {
        self.alloc
    }

    /// The answer to a command that was read, and whether it ends the session.
    fn reply(&mut self, command: &SessionCommand) -> Result<Reply, NoMemory>
        requires within { IsWithinSession command.now }
        requires reached { IsOnRun (B.schedule self.old.start.now) (B.first self.old.start.now) (entries self.old.board) (steps self.old.board) (state self.old.board) }
        ensures answer { IfOk result (λ reply. SessionAnswers WordStep (signals_of (B.schedule self.old.start.now)) (program_view self.old.program) (B.first self.old.start.now) command.now
            (session_of self.old.board self.old.stops self.old.displays) (string_bytes reply.text) (session_of self.new.board self.new.stops self.new.displays)) }
        ensures last { IfOk result (λ reply. reply.is_last ≡ is_quit (Ok (Some command.now))) }
        ensures reached { IfOk result (λ reply. IsOnRun (B.schedule self.old.start.now) (B.first self.old.start.now) (entries self.new.board) (steps self.new.board) (state self.new.board)) }
        ensures program { self.new.program ≡ self.old.program }
        ensures start { self.new.start ≡ self.old.start }
    {
        let text = self.session_command(command)?;
        let is_last = matches!(command, SessionCommand::Plain(PromptCommand::Quit));
        Ok(Reply { text, is_last })
    }

    /// Answers what a line was read as: it does what its command asks for, or says why it is wrong.
    fn answer_read(&mut self, read: Read) -> Result<Reply, NoMemory>
        requires within { IfOk read (λ c. IfSome c (λ d. IsWithinSession d)) }
        requires reached { IsOnRun (B.schedule self.old.start.now) (B.first self.old.start.now) (entries self.old.board) (steps self.old.board) (state self.old.board) }
        ensures answer { IfOk result (λ reply. ReadAnswers WordStep (signals_of (B.schedule self.old.start.now)) (program_view self.old.program) (B.first self.old.start.now) read
            (session_of self.old.board self.old.stops self.old.displays) (string_bytes reply.text) (session_of self.new.board self.new.stops self.new.displays)) }
        ensures last { IfOk result (λ reply. reply.is_last ≡ is_quit read) }
        ensures reached { IfOk result (λ reply. IsOnRun (B.schedule self.old.start.now) (B.first self.old.start.now) (entries self.new.board) (steps self.new.board) (state self.new.board)) }
        ensures program { self.new.program ≡ self.old.program }
        ensures start { self.new.start ≡ self.old.start }
    {
        match read {
            Ok(Some(command)) => self.reply(&command),
            Ok(None) => Ok(not_last(answer_nothing(self.alloc))),
            Err(wrong) => Ok(not_last(answer_wrong(self.alloc, wrong)?)),
        }
    }

    /// Answers a line: it does what its command asks for, or says why it is wrong.
    pub fn line(&mut self, line: &[u8]) -> Result<Reply, NoMemory>
        requires reached { IsOnRun (B.schedule self.old.start.now) (B.first self.old.start.now) (entries self.old.board) (steps self.old.board) (state self.old.board) }
        ensures answer { IfOk result (λ reply. LineAnswers WordStep (signals_of (B.schedule self.old.start.now)) (program_view self.old.program) (B.first self.old.start.now) line.now
            (session_of self.old.board self.old.stops self.old.displays) (string_bytes reply.text) (session_of self.new.board self.new.stops self.new.displays)) }
        ensures last { IfOk result (λ reply. reply.is_last ≡ is_quit (command_of (program_view self.old.program) (here (program_view self.old.program) (session_of self.old.board self.old.stops self.old.displays)) line.now)) }
        ensures reached { IfOk result (λ reply. IsOnRun (B.schedule self.old.start.now) (B.first self.old.start.now) (entries self.new.board) (steps self.new.board) (state self.new.board)) }
        ensures program { self.new.program ≡ self.old.program }
        ensures start { self.new.start ≡ self.old.start }
    {
        let program = self.program;
        let here = here_at(program.image, self.board.pc());
        let read = command_of(self.alloc, &program, here, line)?;
        self.answer_read(read)
    }
}
