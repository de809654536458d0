//! The names of commands.

ghost use Rattle.std.specs.Prelude.{◌≡◌};
ghost use Rattle.c25_prompt_lines.specs.Commands.{verb_of};

use c25_texts::is_word;

/// What a command does, by its name.
#[derive(Clone, Copy)]
pub(crate) enum Verb {
    Step,
    Run,
    Break,
    Clear,
    Regs,
    Data,
    Prog,
    Stack,
    Where,
    List,
    Symbols,
    Next,
    Finish,
    Until,
    Watch,
    Unwatch,
    Once,
    Ignore,
    Back,
    Restart,
    BackTo,
    Hits,
    Trace,
    Inputs,
    Outputs,
    Print,
    Line,
    Display,
    Undisplay,
    Help,
    Quit,
}

/// The commands by their names, of which `next` has two.
static VERBS: [(&str, Verb); 32] = [
    ("step", Verb::Step),
    ("run", Verb::Run),
    ("break", Verb::Break),
    ("clear", Verb::Clear),
    ("regs", Verb::Regs),
    ("data", Verb::Data),
    ("prog", Verb::Prog),
    ("stack", Verb::Stack),
    ("where", Verb::Where),
    ("list", Verb::List),
    ("symbols", Verb::Symbols),
    ("next", Verb::Next),
    ("over", Verb::Next),
    ("finish", Verb::Finish),
    ("until", Verb::Until),
    ("watch", Verb::Watch),
    ("unwatch", Verb::Unwatch),
    ("tbreak", Verb::Once),
    ("ignore", Verb::Ignore),
    ("back", Verb::Back),
    ("restart", Verb::Restart),
    ("rback", Verb::BackTo),
    ("hits", Verb::Hits),
    ("trace", Verb::Trace),
    ("inputs", Verb::Inputs),
    ("outputs", Verb::Outputs),
    ("print", Verb::Print),
    ("line", Verb::Line),
    ("display", Verb::Display),
    ("undisplay", Verb::Undisplay),
    ("help", Verb::Help),
    ("quit", Verb::Quit),
];

/// What the command of a name does, its letters in either case. None where there is no command of this name.
pub(crate) fn verb_of(word: &[u8]) -> Option<Verb>
    ensures { result ≡ verb_of word.now }
{
    match VERBS.iter().find(|(name, _)| is_word(word, name)) {
        Some((_, verb)) => Some(*verb),
        None => None,
    }
}
