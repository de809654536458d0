//! What an expander works on: the sources that are open, and how the next line is looked at. The methods of
//! `ExpanderState` are in one file for each rule: `conditions.rt` has `.if`, `blocks.rt` macros, loops and copied
//! files, `bodies.rt` their bodies, `lines.rt` what is done with a line that is read; `step.rt` goes on until
//! a line is given.

ghost use Rattle.std.specs.Prelude.{◌≡◌, ◌<◌, ◌^◌, ◌++◌, Some, None, MatchBool, false};
ghost use Rattle.c25_meaning_expansion.specs.Expansion as exp;
ghost use Rattle.c25_meaning_expansion.specs.ExpansionRuns.{start};
ghost use Rattle.c25_macro.specs.Config.{config, mode_of, Follows, GoesOn, Keeps};
ghost use Rattle.c25_macro.specs.SourceFrames.{kind_of, test_of};
ghost use Rattle.c25_macro.specs.declared.state.Mode.TheVariants as modes;

use crate::act::ExpansionAct;
use crate::dictionary::Dictionary;
use crate::expander_fault::ExpanderFault;
use crate::frames::{Branches, ExitTarget, Kind, Source, SourceFrame, Stack};
use crate::line::Line;
use c25_files::Rows;
use c25_files::text::Text;
use c25_meaning_common::failure::Failure;
use c25_meaning_common::placed::FileLine;
use std::alloc::Global;
use std::mem;

/// How the next line is looked at. The lines of a body that is collected are those that the innermost source
/// has read since its mark.
#[derive(Drop)]
pub(crate) enum Mode<'a> {
    /// The next line is read.
    Reading,
    /// The label of the line at this place was given, and what the line asks for is still to be done.
    Acting {
        place: FileLine<usize>,
        act: ExpansionAct<'a>,
    },
    /// The next line is collected for the body of a macro, in which so many macros are nested.
    InMacro {
        name: String,
        parameters: Vec<String>,
        nested: usize,
    },
    /// The next line is collected for the body of a loop of so many turns, in which so many loops are nested.
    InLoop {
        turns: usize,
        nested: usize,
    },
}

/// What one rewriting gives.
#[derive(Drop)]
pub(crate) enum LineResult<'a> {
    /// A line is given.
    Given(Line<'a>),
    /// No line is given, and expansion goes on.
    Consumed,
    /// No line is left.
    Finished,
}

/// The progress of a rewriting that gives no line.
pub(crate) fn consumed<'a>(
    done: Result<(), Failure<ExpanderFault>>,
) -> Result<LineResult<'a>, Failure<ExpanderFault>>
    ensures answer { (r : exp.Rewriting) (new : exp.Config) → GoesOn r done new → Follows r result new }
    ensures kept { (old new : exp.Config) → Keeps done old new → Keeps result old new }
{
    match done {
        Ok(()) => Ok(LineResult::Consumed),
        Err(failure) => Err(failure),
    }
}

/// The state of an expansion before its next line.
#[derive(Drop)]
pub(crate) struct ExpanderState<'a> {
    pub(crate) alloc: Global,
    /// The innermost open file, expansion or turn.
    pub(crate) top: Source<'a>,
    /// The files, expansions and turns outside the innermost one.
    pub(crate) below: Stack<'a>,
    pub(crate) mode: Mode<'a>,
    pub(crate) names: Dictionary<'a>,
    /// How many lines may still be read.
    pub(crate) left: usize,
}

/// How many lines an expansion may read.
const MOST_LINES: usize = 200_000;

/// How many blocks may be open at once.
pub(crate) const MOST_OPEN: usize = 32;

impl<'a> ExpanderState<'a> {
    /// The state before the first line of a file with this text.
    pub(crate) fn new(alloc: Global, file: usize, text: &'a Text) -> ExpanderState<'a>
        ensures { config result ≡ start file text.now }
    {
        let rows = text.rows(file);
        let last = rows.last_place(FileLine { file, line: 0 });
        ExpanderState {
            alloc,
            top: Source {
                lines: rows.into_passage(),
                frame: SourceFrame {
                    kind: Kind::Copied,
                    last,
                    branches: Branches::new(alloc),
                },
            },
            below: Stack::new(alloc),
            mode: Mode::Reading,
            names: Dictionary::new(alloc),
            left: MOST_LINES,
        }
    }

    /// Sets how the next line is looked at.
    pub(crate) fn look(&mut self, mode: Mode<'a>)
        ensures { self.new ≡ record self.old { mode = mode.entry } }
    {
        // An assignment would drop the old mode here, case by case, which costs much in proofs.
        mem::drop(mem::replace(&mut self.mode, mode));
    }

    /// Opens a file, an expansion or a turn.
    pub(crate) fn open(
        &mut self,
        kind: Kind<'a>,
        last: FileLine<usize>,
        rows: Rows<'a>,
    ) -> Result<(), Failure<ExpanderFault>>
        requires reading { self.old.mode ≡ modes.Reading }
        ensures answer { GoesOn (exp.Goes (exp.source_opened (kind_of kind.entry) last rows.entry (config self.old))) result (config self.new) }
        ensures kept { Keeps result (config self.old) (config self.new) }
    {
        let source = Source {
            lines: rows.into_passage(),
            frame: SourceFrame {
                kind,
                last,
                branches: Branches::new(self.alloc),
            },
        };
        let outer = mem::replace(&mut self.top, source);
        self.below.push(outer).map_err(Failure::NoMemory)
    }

    /// Whether as many blocks are open as may be.
    pub(crate) fn is_full(&self) -> bool
        ensures { result ≡ exp.is_full (config self.now) }
    {
        self.top.frame.branches.len().min(MOST_OPEN) + self.below.count() >= MOST_OPEN
    }

    /// Whether a block of this kind is open.
    pub(crate) fn stands_in(&self, block: ExitTarget) -> bool
        ensures { result ≡ exp.stands_in (test_of block) (config self.now) }
    {
        self.top.frame.kind.is(block) || self.below.has(block)
    }

    /// Makes the source current in which the innermost block of this kind was opened, and closes all that was
    /// opened after it. False where no such block is open; then all stays open.
    #[tactic(auto, using(crate::proofs::Lists::after_closes))]
    pub(crate) fn leave(&mut self, block: ExitTarget) -> bool
        requires reading { self.old.mode ≡ modes.Reading }
        ensures kept { result ≡ false → config self.new ≡ config self.old }
        ensures left { MatchBool result
            (exp.left_through (test_of block) (config self.old).lines (config self.old).frame (config self.old).outer (config self.old).names (config self.old) ≡ Some (config self.new))
            (exp.left_through (test_of block) (config self.old).lines (config self.old).frame (config self.old).outer (config self.old).names (config self.old) ≡ None) }
    {
        if !self.below.can_leave(&self.top.frame.kind, block) {
            return false;
        }
        while let Some(source) = self.below.pop() {
            let ended = mem::replace(&mut self.top, source);
            self.names.end(&ended.frame.kind);
            if ended.frame.kind.is(block) {
                return true;
            }
        }
        false
    }
}
