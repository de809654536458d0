//! What is open: files, expansions, turns of loops, and the `.if`s in them.

ghost use Rattle.std.specs.Prelude.{MatchOption, ◌≡◌, ◌∷◌, ◌<◌, OnOk, option_to_list, IfNone, length, ◌++◌, [], false, min, sum_by, ◌+◌};
ghost use Rattle.std.specs.List.{list_any};
ghost use Rattle.c25_meaning_expansion.specs.Rows.{is_empty};
ghost use Rattle.c25_macro.specs.SourceFrames.{can_leave, frames, kind_of, test_of, other_branches};

use c25_files::{Passage, Rows};
use c25_meaning_common::no_memory::NoMemory;
use c25_meaning_common::placed::FileLine;
use c25_meaning_expansion::expansion::Branch;
use std::alloc::Global;
use std::marker::Model;

/// The open `.if`s, the innermost first.
#[derive(Drop)]
pub(crate) struct Branches {
    branches: Vec<Branch>,
}

impl Model for Branches {
    ghost use Rattle.std.specs.Prelude.{List, reverse};
    ghost use Rattle.c25_meaning_expansion.specs.declared.expansion.Branch.{Branch};

    ghost Value = { List Branch };

    ghost view = { λ b. reverse b.branches.items };
}

impl Branches {
    pub(crate) fn new(alloc: Global) -> Branches
        ensures { result ≡ [] }
    {
        Branches {
            branches: Vec::new(alloc),
        }
    }

    pub(crate) fn len(&self) -> usize
        ensures { result ≡ length self.now }
    {
        self.branches.len()
    }

    pub(crate) fn is_empty(&self) -> bool
        ensures { result ≡ is_empty self.now }
    {
        self.branches.is_empty()
    }

    /// Opens an `.if` inside the others.
    pub(crate) fn push(&mut self, branch: Branch) -> Result<(), NoMemory>
        ensures { OnOk result (self.new ≡ branch ∷ self.old) }
    {
        self.branches.push(branch).map_err(NoMemory::from)
    }

    /// The innermost `.if`, if one is open.
    pub(crate) fn innermost(&self) -> Option<Branch>
        ensures { MatchOption result (self.now ≡ []) (λ b. self.now ≡ b ∷ other_branches self.now) }
    {
        self.branches.last().copied()
    }

    /// Puts an `.if` in the place of the innermost.
    pub(crate) fn replace(&mut self, branch: Branch) -> Result<(), NoMemory>
        ensures { OnOk result (self.new ≡ branch ∷ other_branches self.old) }
    {
        let _before = self.branches.pop();
        self.branches.push(branch).map_err(NoMemory::from)
    }

    /// Takes the innermost `.if` off, if one is open.
    pub(crate) fn pop(&mut self) -> Option<Branch>
        ensures taken { self.old ≡ option_to_list result ++ self.new }
        ensures none { IfNone result (self.old ≡ []) }
    {
        self.branches.pop()
    }
}

/// What the lines of a source are.
#[derive(Drop)]
pub(crate) enum Kind<'a> {
    /// The module's file, or a copied one.
    Copied,
    /// An expansion of a macro.
    Expanded,
    /// A turn of a loop with this body, and how many more are to come.
    Turn { body: Rows<'a>, more: usize },
}

/// A kind of block that can be left before its end, by `.mexit` or `.break`.
#[derive(Clone, Copy)]
pub(crate) enum ExitTarget {
    Expansion,
    Turn,
}

impl Kind<'_> {
    pub(crate) fn is(&self, block: ExitTarget) -> bool
        ensures { result ≡ test_of block (kind_of self.now) }
    {
        match (block, self) {
            (ExitTarget::Expansion, Kind::Expanded) => true,
            (ExitTarget::Turn, Kind::Turn { .. }) => true,
            _ => false,
        }
    }
}

/// A file, expansion or turn that is open.
#[derive(Drop)]
pub(crate) struct SourceFrame<'a> {
    pub(crate) kind: Kind<'a>,
    /// The place of the last line of the file, expansion or turn, or of the line that opened it where it has
    /// none.
    pub(crate) last: FileLine<usize>,
    /// The open `.if`s that began in the file, expansion or turn, the innermost first.
    pub(crate) branches: Branches,
}

/// The lines still to come of an open file, expansion or turn.
#[derive(Drop)]
pub(crate) struct Source<'a> {
    pub(crate) lines: Passage<'a>,
    pub(crate) frame: SourceFrame<'a>,
}

/// The sources outside the current one, the innermost first.
#[derive(Drop)]
pub(crate) struct Stack<'a> {
    sources: Vec<Source<'a>>,
}

impl<'a> Model for Stack<'a> {
    ghost use Rattle.std.specs.Prelude.{List, reverse};
    ghost use Rattle.c25_macro.specs.declared.frames.Source.{Source};

    ghost Value = { List Source };

    ghost view = { λ s. reverse s.sources.items };
}

impl<'a> Stack<'a> {
    pub(crate) fn new(alloc: Global) -> Stack<'a>
        ensures { result ≡ [] }
    {
        Stack {
            sources: Vec::new(alloc),
        }
    }

    pub(crate) fn is_empty(&self) -> bool
        ensures { result ≡ is_empty self.now }
    {
        self.sources.is_empty()
    }

    #[tactic(auto, using(crate::proofs::Trails::length_scopes))]
    pub(crate) fn len(&self) -> usize
        ensures { result ≡ length (frames self.now) }
    {
        self.sources.len()
    }

    /// Whether one of the sources is a block of this kind.
    pub(crate) fn has(&self, block: ExitTarget) -> bool
        ensures { result ≡ list_any (λ f. test_of block f.kind) (frames self.now) }
    {
        has(self.sources.as_slice(), block)
    }

    /// Whether a block of this kind can be left from a source of that kind inside these: it is one, or one of
    /// these is, other than the outermost.
    #[tactic(auto, using(crate::proofs::Leaving::inner_some, crate::proofs::Leaving::inner_none))]
    pub(crate) fn can_leave(&self, kind: &Kind<'a>, block: ExitTarget) -> bool
        ensures { result ≡ can_leave (test_of block) (kind_of kind.now) (frames self.now) }
    {
        match self.sources.as_slice() {
            [] => false,
            [_, inner @ ..] => kind.is(block) || has(inner, block),
        }
    }

    /// Puts a source inside the others.
    pub(crate) fn push(&mut self, source: Source<'a>) -> Result<(), NoMemory>
        ensures { OnOk result (self.new ≡ source.entry ∷ self.old) }
    {
        self.sources.push(source).map_err(NoMemory::from)
    }

    /// How many blocks are open in the sources: each source is one, and each of its `.if`s; 32 where there
    /// are more.
    #[tactic(auto, using(crate::proofs::Lists::sum_scopes))]
    pub(crate) fn count(&self) -> usize
        ensures { result ≡ min 32 (sum_by (λ f. length f.branches + 1) (frames self.now)) }
    {
        count(self.sources.as_slice())
    }

    /// Drops all sources.
    pub(crate) fn clear(&mut self)
        ensures { self.new ≡ [] }
    {
        self.sources.clear();
    }

    /// Takes the innermost source off, if there is one.
    pub(crate) fn pop(&mut self) -> Option<Source<'a>>
        ensures taken { self.old ≡ option_to_list result ++ self.new }
        ensures none { IfNone result (self.old ≡ []) }
    {
        self.sources.pop()
    }
}

fn count(sources: &[Source<'_>]) -> usize
    ensures { result ≡ min 32 (sum_by (λ s. length s.frame.branches + 1) sources.now) }
{
    let mut total = 0;
    for source in sources {
        let open = source.frame.branches.len().min(32) + 1;
        total = (total + open).min(32);
    }
    total
}

fn has(sources: &[Source<'_>], block: ExitTarget) -> bool
    ensures { result ≡ list_any (λ s. test_of block (kind_of s.frame.kind)) sources.now }
{
    sources.iter().any(|source| source.frame.kind.is(block))
}
