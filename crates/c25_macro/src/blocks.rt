//! Macros, loops and copied files.
//!
//! `ExpanderState` and its other methods: `state.rt` says where they are.

ghost use Rattle.std.specs.Prelude.{◌≡◌, ◌<◌, ◌^◌, ◌||◌, is_some};
ghost use Rattle.std.specs.Option.{option_map};
ghost use Rattle.std.specs.String.{string_bytes};
ghost use Rattle.c25_meaning_expansion.specs.Expansion as exp;
ghost use Rattle.c25_meaning_expansion.specs.ExpansionRules as rule;
ghost use Rattle.c25_meaning_instructions.specs.Spellings.{spelling_of};
ghost use Rattle.c25_expr.specs.View.{tree_of};
ghost use Rattle.c25_macro.specs.Acts.{bytes_of_names};
ghost use Rattle.c25_macro.specs.Config.{config, GoesOn, Keeps};
ghost use Rattle.c25_macro.specs.SourceFrames.{test_of};
ghost use Rattle.c25_macro.specs.declared.state.Mode.TheVariants as modes;

use crate::expander_fault::{ExpanderFault, fault};
use crate::frames::{Branches, ExitTarget, Kind, Source, SourceFrame};
use crate::state::{ExpanderState, Mode};
use crate::values::{is_zero, number};
use c25_expr::symbols::Symbols;
use c25_expr::tree::Expr;
use c25_files::Rows;
use c25_files::files::Files;
use c25_isa::mnemonic;
use c25_meaning_common::failure::Failure;
use c25_meaning_common::placed::FileLine;
use c25_meaning_language::statement::FaultKind;
use c25_substitution::parameters::Arguments;

/// How many turns a loop without a count has.
const TURNS: usize = 1024;

/// How many turns a count asks for; 0 where it is negative.
fn turns_of(count: i32) -> usize
    ensures { result ≡ rule.turns_of count }
{
    if count < 0 { 0 } else { count as usize }
}

/// Whether a name is that of a mnemonic, in upper or lower case.
fn is_mnemonic(name: &str) -> bool
    ensures { result ≡ is_some (spelling_of name.now) }
{
    mnemonic(name).is_some()
}

impl<'a> ExpanderState<'a> {
    /// Whether a name is that of a macro or of a mnemonic.
    fn is_taken(&self, name: &str) -> bool
        ensures { result ≡ (is_some (exp.macro_named (config self.now).names name.now) || is_some (spelling_of name.now)) }
    {
        self.names.has_macro(name) || is_mnemonic(name)
    }

    /// Does `.macro`: the lines that follow are collected as the body of a macro of this name. A name that is
    /// that of a macro or of a mnemonic is `Redefined` (36).
    #[tactic(auto, unfolding(c25_meaning_expansion::specs::ExpansionRules::begins_macro))]
    pub(crate) fn begin_macro(
        &mut self,
        place: FileLine<usize>,
        name: String,
        parameters: Vec<String>,
    ) -> Result<(), Failure<ExpanderFault>>
        ensures answer { GoesOn (rule.begins_macro place (string_bytes name) (bytes_of_names parameters.items) (config self.old)) result (config self.new) }
        ensures kept { Keeps result (config self.old) (config self.new) }
    {
        if self.is_taken(name.as_str()) {
            return Err(fault(FaultKind::Redefined, place));
        }
        self.top.lines.mark();
        self.look(Mode::InMacro {
            name,
            parameters,
            nested: 0,
        });
        Ok(())
    }

    /// Calls a macro: the lines of its body come next, with these arguments. `Depth` (33) where 32 blocks are
    /// open.
    #[tactic(auto, unfolding(c25_meaning_expansion::specs::ExpansionRules::begins_expansion))]
    pub(crate) fn begin_expansion(
        &mut self,
        place: FileLine<usize>,
        body: Rows<'a>,
        arguments: Arguments,
    ) -> Result<(), Failure<ExpanderFault>>
        requires expansions { (config self.old).names.count < 2 ^ 31 }
        requires reading { self.old.mode ≡ modes.Reading }
        ensures answer { GoesOn (rule.begins_expansion place body.entry arguments (config self.old)) result (config self.new) }
        ensures kept { Keeps result (config self.old) (config self.new) }
    {
        if self.is_full() {
            return Err(fault(FaultKind::Depth, place));
        }
        let last = body.last_place(place);
        self.names.begin(arguments)?;
        self.open(Kind::Expanded, last, body)
    }

    /// Leaves the innermost expansion or the innermost loop: its lines still to come are dropped, with all
    /// that it opened. `StrayEnd` (32) where none is open.
    pub(crate) fn leave_block(
        &mut self,
        block: ExitTarget,
        place: FileLine<usize>,
    ) -> Result<(), Failure<ExpanderFault>>
        requires reading { self.old.mode ≡ modes.Reading }
        ensures answer { GoesOn (rule.leaves (test_of block) place (config self.old)) result (config self.new) }
        ensures kept { Keeps result (config self.old) (config self.new) }
    {
        if self.leave(block) {
            Ok(())
        } else {
            Err(fault(FaultKind::StrayEnd, place))
        }
    }

    /// Collects the lines that follow, as the body of a loop of so many turns. `Depth` (33) where 32 blocks
    /// are open.
    fn collect(
        &mut self,
        place: FileLine<usize>,
        turns: usize,
    ) -> Result<(), Failure<ExpanderFault>>
        ensures answer { GoesOn (rule.collects place turns (config self.old)) result (config self.new) }
        ensures kept { Keeps result (config self.old) (config self.new) }
    {
        if self.is_full() {
            return Err(fault(FaultKind::Depth, place));
        }
        self.top.lines.mark();
        self.look(Mode::InLoop { turns, nested: 0 });
        Ok(())
    }

    /// Does `.loop`: the lines that follow are collected as the body of a loop of `count` turns, 1,024
    /// without a count. The faults are those of the count (22 to 25), then `Depth` (33).
    #[tactic(auto, unfolding(c25_meaning_expansion::specs::ExpansionRules::begins_loop))]
    pub(crate) fn begin_loop(
        &mut self,
        symbols: &Symbols,
        place: FileLine<usize>,
        count: Option<Expr>,
    ) -> Result<(), Failure<ExpanderFault>>
        ensures answer { GoesOn (rule.begins_loop symbols.now place (option_map tree_of count) (config self.old)) result (config self.new) }
        ensures kept { Keeps result (config self.old) (config self.new) }
    {
        match count {
            Some(count) => match number(symbols, count) {
                Ok(number) => self.collect(place, turns_of(number)),
                Err(kind) => Err(fault(kind, place)),
            },
            None => self.collect(place, TURNS),
        }
    }

    /// Does `.break`, given whether its condition holds. `StrayEnd` (32) outside a loop.
    fn break_if(
        &mut self,
        holds: bool,
        place: FileLine<usize>,
    ) -> Result<(), Failure<ExpanderFault>>
        requires reading { self.old.mode ≡ modes.Reading }
        ensures answer { GoesOn (rule.breaks_if holds place (config self.old)) result (config self.new) }
        ensures kept { Keeps result (config self.old) (config self.new) }
    {
        if !self.stands_in(ExitTarget::Turn) {
            return Err(fault(FaultKind::StrayEnd, place));
        }
        if holds {
            self.leave_block(ExitTarget::Turn, place)
        } else {
            Ok(())
        }
    }

    /// Does `.break`: leaves the innermost loop, if there is no condition or if it is not 0. The faults are
    /// those of the condition (22 to 25), then `StrayEnd` (32) outside a loop.
    #[tactic(auto, unfolding(c25_meaning_expansion::specs::ExpansionRules::breaks))]
    pub(crate) fn break_loop(
        &mut self,
        symbols: &Symbols,
        place: FileLine<usize>,
        condition: Option<Expr>,
    ) -> Result<(), Failure<ExpanderFault>>
        requires reading { self.old.mode ≡ modes.Reading }
        ensures answer { GoesOn (rule.breaks symbols.now place (option_map tree_of condition) (config self.old)) result (config self.new) }
        ensures kept { Keeps result (config self.old) (config self.new) }
    {
        match condition {
            Some(condition) => match number(symbols, condition) {
                Ok(number) => self.break_if(!is_zero(number), place),
                Err(kind) => Err(fault(kind, place)),
            },
            None => self.break_if(true, place),
        }
    }

    /// Does `.asg`: the name stands for this text from now on. Only memory may run out.
    pub(crate) fn assign(&mut self, name: &str, text: String) -> Result<(), Failure<ExpanderFault>>
        ensures answer { GoesOn (exp.Goes (record (config self.old) { names = exp.assigned name.now (string_bytes text) (config self.old).names })) result (config self.new) }
        ensures kept { Keeps result (config self.old) (config self.new) }
    {
        self.names.assign(name, text).map_err(Failure::NoMemory)
    }

    /// Does `.eval`: the name stands for the decimal digits of the expression's value from now on. The faults
    /// are those of the expression (22 to 25).
    #[tactic(auto, unfolding(c25_meaning_expansion::specs::ExpansionRules::evaluates))]
    pub(crate) fn evaluate(
        &mut self,
        symbols: &Symbols,
        place: FileLine<usize>,
        expression: Expr,
        name: &str,
    ) -> Result<(), Failure<ExpanderFault>>
        ensures answer { GoesOn (rule.evaluates symbols.now place (tree_of expression) name.now (config self.old)) result (config self.new) }
        ensures kept { Keeps result (config self.old) (config self.new) }
    {
        let number = match number(symbols, expression) {
            Ok(number) => number,
            Err(kind) => return Err(fault(kind, place)),
        };
        let text = format!(in self.alloc; "{number}")?;
        self.assign(name, text)
    }

    /// Does `.copy`: the lines of the file of this name come next. A file that is not there is `Missing`
    /// (30); `Depth` (33) where 32 blocks are open.
    #[tactic(auto, unfolding(c25_meaning_expansion::specs::ExpansionRules::copies))]
    pub(crate) fn copy(
        &mut self,
        files: &'a Files,
        place: FileLine<usize>,
        name: String,
    ) -> Result<(), Failure<ExpanderFault>>
        requires reading { self.old.mode ≡ modes.Reading }
        ensures answer { GoesOn (rule.copies files.now place (string_bytes name) (config self.old)) result (config self.new) }
        ensures kept { Keeps result (config self.old) (config self.new) }
    {
        match files.find(name.as_str()) {
            Some((file, text)) => {
                if self.is_full() {
                    return Err(fault(FaultKind::Depth, place));
                }
                let rows = text.rows(file);
                let last = rows.last_place(place);
                self.open(Kind::Copied, last, rows)
            }
            None => Err(Failure::Fault(ExpanderFault::Missing { place, name })),
        }
    }

    /// Does `.end`: all lines still to come are dropped, and all that is open is closed.
    #[tactic(auto, unfolding(c25_meaning_expansion::specs::ExpansionRules::ends_all))]
    pub(crate) fn end_all(&mut self, place: FileLine<usize>) -> Result<(), Failure<ExpanderFault>>
        requires reading { self.old.mode ≡ modes.Reading }
        ensures answer { GoesOn (rule.ends_all place (config self.old)) result (config self.new) }
        ensures kept { Keeps result (config self.old) (config self.new) }
    {
        self.top = Source {
            lines: Rows::none().into_passage(),
            frame: SourceFrame {
                kind: Kind::Copied,
                last: place,
                branches: Branches::new(self.alloc),
            },
        };
        self.below.clear();
        self.names.end_all();
        Ok(())
    }
}
