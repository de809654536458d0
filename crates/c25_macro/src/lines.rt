//! What is done with a line that is read: it is skipped or substituted, and then given or consumed.
//!
//! `ExpanderState` and its other methods: `state.rt` says where they are.

ghost use Rattle.std.specs.Prelude.{◌≡◌, ◌<◌, ◌^◌, Result};
ghost use Rattle.std.specs.Cow.{cow_str_bytes};
ghost use Rattle.c25_meaning_language.specs.Line.{first_word};
ghost use Rattle.c25_meaning_expansion.specs.Acts as acts;
ghost use Rattle.c25_meaning_expansion.specs.ExpansionBounds.{nesting};
ghost use Rattle.c25_meaning_expansion.specs.ExpansionRules as rule;
ghost use Rattle.c25_meaning_language.specs.declared.statement.FaultKind.{FaultKind};
ghost use Rattle.c25_meaning_common.specs.Results.{Meets};
ghost use Rattle.c25_macro.specs.Acts.{act_of, order_of};
ghost use Rattle.c25_macro.specs.Config.{config, Follows, GoesOn, Keeps};
ghost use Rattle.c25_macro.specs.Dictionary.{dictionary_of};
ghost use Rattle.c25_macro.specs.SourceFrames.{other_branches};
ghost use Rattle.c25_macro.specs.declared.state.Mode.TheVariants as modes;

use crate::act::{ExpansionAct, Order};
use crate::conditions::takes_lines;
use crate::directive::directive_in;
use crate::expander_fault::{ExpanderFault, at_place, fault};
use crate::frames::ExitTarget;
use crate::line::Line;
use crate::orders::{read_call, read_order};
use crate::state::{ExpanderState, LineResult, Mode, consumed};
use c25_expr::symbols::Symbols;
use c25_files::Row;
use c25_files::files::Files;
use c25_meaning_common::failure::Failure;
use c25_meaning_common::placed::FileLine;
use c25_meaning_expansion::expansion::{Branch, Directive, Phase};
use c25_meaning_language::long_line::LongLine;
use c25_meaning_language::statement::FaultKind;
use c25_substitution::substitution::{substitute, substitute_before_comma, unsubstituted};
use std::borrow::CowStr;

impl<'a> ExpanderState<'a> {
    /// Does what a line asks for.
    #[tactic(auto, unfolding(c25_meaning_expansion::specs::ExpansionRules::acts))]
    pub(crate) fn act(
        &mut self,
        files: &'a Files,
        symbols: &Symbols,
        place: FileLine<usize>,
        act: ExpansionAct<'a>,
    ) -> Result<(), Failure<ExpanderFault>>
        requires expansions { (config self.old).names.count < 2 ^ 31 }
        requires reading { self.old.mode ≡ modes.Reading }
        ensures answer { GoesOn (rule.acts files.now symbols.now place (act_of act.entry) (config self.old)) result (config self.new) }
        ensures kept { Keeps result (config self.old) (config self.new) }
    {
        match act {
            ExpansionAct::If(condition) => self.begin_if(symbols, place, condition),
            ExpansionAct::ElseIf(condition) => self.elseif(symbols, place, condition),
            ExpansionAct::Else => self.pass_else(place),
            ExpansionAct::EndIf => self.end_if(place),
            ExpansionAct::Define { name, parameters } => self.begin_macro(place, name, parameters),
            ExpansionAct::Stray => Err(fault(FaultKind::StrayEnd, place)),
            ExpansionAct::Exit => self.leave_block(ExitTarget::Expansion, place),
            ExpansionAct::Loop(count) => self.begin_loop(symbols, place, count),
            ExpansionAct::Break(condition) => self.break_loop(symbols, place, condition),
            ExpansionAct::Assign { text, name } => self.assign(name.as_str(), text),
            ExpansionAct::Evaluate { expression, name } => {
                self.evaluate(symbols, place, expression, name.as_str())
            }
            ExpansionAct::Copy(name) => self.copy(files, place, name),
            ExpansionAct::End => self.end_all(place),
            ExpansionAct::Call { body, arguments } => self.begin_expansion(place, body, arguments),
        }
    }

    /// Gives the label of a consumed line, if it has one, or else does what the line asks for.
    fn label(
        &mut self,
        files: &'a Files,
        symbols: &Symbols,
        place: FileLine<usize>,
        order: Order<'a>,
    ) -> Result<LineResult<'a>, Failure<ExpanderFault>>
        requires expansions { (config self.old).names.count < 2 ^ 31 }
        requires reading { self.old.mode ≡ modes.Reading }
        ensures answer { Follows (rule.labelled files.now symbols.now place (order_of order.entry).label (order_of order.entry).act (config self.old)) result (config self.new) }
        ensures kept { Keeps result (config self.old) (config self.new) }
    {
        let Order { label, act } = order;
        match label {
            Some(name) => {
                self.look(Mode::Acting { place, act });
                Ok(LineResult::Given(Line::new(place, CowStr::Owned(name))))
            }
            None => consumed(self.act(files, symbols, place, act)),
        }
    }

    /// Consumes a line that asks for this, or reports its fault.
    fn consume(
        &mut self,
        files: &'a Files,
        symbols: &Symbols,
        place: FileLine<usize>,
        order: Result<Order<'a>, Failure<FaultKind>>,
    ) -> Result<LineResult<'a>, Failure<ExpanderFault>>
        requires expansions { (config self.old).names.count < 2 ^ 31 }
        requires reading { self.old.mode ≡ modes.Reading }
        ensures answer { (told : Result acts.Order FaultKind) → Meets order_of told order.entry
            → Follows (rule.consumed files.now symbols.now place told (config self.old)) result (config self.new) }
        ensures kept { Keeps result (config self.old) (config self.new) }
    {
        match order {
            Ok(order) => self.label(files, symbols, place, order),
            Err(failure) => Err(at_place(failure, place)),
        }
    }

    /// A substituted line without a directive of expansion: a macro is called, or else the line is given.
    fn call(
        &mut self,
        files: &'a Files,
        symbols: &Symbols,
        line: Line<'a>,
    ) -> Result<LineResult<'a>, Failure<ExpanderFault>>
        requires expansions { (config self.old).names.count < 2 ^ 31 }
        requires reading { self.old.mode ≡ modes.Reading }
        ensures answer { Follows (rule.calls files.now symbols.now line.entry (rule.macro_of (first_word line.entry.text) (config self.old).names) (config self.old)) result (config self.new) }
        ensures kept { Keeps result (config self.old) (config self.new) }
    {
        let alloc = self.alloc;
        match self.names.macro_called(line.text()) {
            Some(called) => {
                let order = read_call(alloc, called, line.text());
                self.consume(files, symbols, line.place(), order)
            }
            None => Ok(LineResult::Given(line)),
        }
    }

    /// A substituted line: it has a directive, calls a macro, or is given.
    fn use_substituted(
        &mut self,
        files: &'a Files,
        symbols: &Symbols,
        line: Line<'a>,
    ) -> Result<LineResult<'a>, Failure<ExpanderFault>>
        requires expansions { (config self.old).names.count < 2 ^ 31 }
        requires reading { self.old.mode ≡ modes.Reading }
        ensures answer { Follows (rule.uses files.now symbols.now line.entry (rule.directive_in (first_word line.entry.text)) (config self.old)) result (config self.new) }
        ensures kept { Keeps result (config self.old) (config self.new) }
    {
        match directive_in(line.text()) {
            Some(directive) => self.obey(files, symbols, line.place(), directive, line.text()),
            None => self.call(files, symbols, line),
        }
    }

    /// A line with its names replaced, as far as its directive lets them be.
    fn substituted<'b>(
        &self,
        directive: Option<Directive>,
        text: &'b str,
    ) -> Result<CowStr<'b>, Failure<LongLine>>
        ensures { Meets cow_str_bytes (rule.substituted_as directive (dictionary_of self.now.names) text.now) result }
    {
        let names = self.names.visible();
        let number = self.names.number();
        match directive {
            Some(Directive::Macro) => unsubstituted(text),
            Some(Directive::Assign) => substitute_before_comma(self.alloc, &names, number, text),
            Some(Directive::Evaluate) => substitute_before_comma(self.alloc, &names, number, text),
            _ => substitute(self.alloc, &names, number, text),
        }
    }

    /// A line with this directive, or none, that is neither skipped nor collected.
    #[tactic(auto, unfolding(c25_meaning_expansion::specs::ExpansionRules::used))]
    fn use_line(
        &mut self,
        files: &'a Files,
        symbols: &Symbols,
        row: Row<'a>,
        directive: Option<Directive>,
    ) -> Result<LineResult<'a>, Failure<ExpanderFault>>
        requires expansions { (config self.old).names.count < 2 ^ 31 }
        requires reading { self.old.mode ≡ modes.Reading }
        ensures answer { Follows (rule.used files.now symbols.now row.entry directive (config self.old)) result (config self.new) }
        ensures kept { Keeps result (config self.old) (config self.new) }
    {
        match self.substituted(directive, row.text()) {
            Ok(text) => self.use_substituted(files, symbols, Line::new(row.place(), text)),
            Err(Failure::NoMemory(error)) => Err(Failure::NoMemory(error)),
            Err(Failure::Fault(_)) => Err(fault(FaultKind::LongLine, row.place())),
        }
    }

    /// A substituted line with this directive.
    fn obey(
        &mut self,
        files: &'a Files,
        symbols: &Symbols,
        place: FileLine<usize>,
        directive: Directive,
        text: &str,
    ) -> Result<LineResult<'a>, Failure<ExpanderFault>>
        requires expansions { (config self.old).names.count < 2 ^ 31 }
        requires reading { self.old.mode ≡ modes.Reading }
        ensures answer { Follows (rule.consumed files.now symbols.now place (acts.order_of directive text.now) (config self.old)) result (config self.new) }
        ensures kept { Keeps result (config self.old) (config self.new) }
    {
        let order = read_order(self.alloc, directive, text);
        self.consume(files, symbols, place, order)
    }

    /// A line that ends an `.if` whose lines are skipped, or goes on with it: it is substituted and consumed.
    #[tactic(auto, unfolding(c25_meaning_expansion::specs::ExpansionRules::resumes))]
    fn resume(
        &mut self,
        files: &'a Files,
        symbols: &Symbols,
        row: Row<'a>,
        directive: Directive,
    ) -> Result<LineResult<'a>, Failure<ExpanderFault>>
        requires expansions { (config self.old).names.count < 2 ^ 31 }
        requires reading { self.old.mode ≡ modes.Reading }
        ensures answer { Follows (rule.resumes files.now symbols.now row.entry directive (config self.old)) result (config self.new) }
        ensures kept { Keeps result (config self.old) (config self.new) }
    {
        match self.substituted(Some(directive), row.text()) {
            Ok(text) => self.obey(files, symbols, row.place(), directive, text.as_str()),
            Err(Failure::NoMemory(error)) => Err(Failure::NoMemory(error)),
            Err(Failure::Fault(_)) => Err(fault(FaultKind::LongLine, row.place())),
        }
    }

    /// Sets how many `.if`s are nested in the skipped lines of the innermost `.if`.
    fn nest(
        &mut self,
        branch: Branch,
        nested: usize,
    ) -> Result<LineResult<'a>, Failure<ExpanderFault>>
        ensures answer { Follows (rule.nests nested branch (other_branches (config self.old).frame.branches) (config self.old)) result (config self.new) }
        ensures kept { Keeps result (config self.old) (config self.new) }
    {
        let branches = &mut self.top.frame.branches;
        let replaced = branches.replace(Branch { nested, ..branch });
        consumed(replaced.map_err(Failure::NoMemory))
    }

    /// A line that is `.elseif` before substitution.
    fn read_elseif(
        &mut self,
        files: &'a Files,
        symbols: &Symbols,
        row: Row<'a>,
        branch: Branch,
    ) -> Result<LineResult<'a>, Failure<ExpanderFault>>
        requires expansions { (config self.old).names.count < 2 ^ 31 }
        requires reading { self.old.mode ≡ modes.Reading }
        ensures answer { Follows (rule.reads_elseif files.now symbols.now row.entry branch (other_branches (config self.old).frame.branches) (config self.old)) result (config self.new) }
        ensures kept { Keeps result (config self.old) (config self.new) }
    {
        match branch.phase {
            Phase::Seeking => self.resume(files, symbols, row, Directive::ElseIf),
            Phase::Taking | Phase::Passing => consumed(self.enter(branch, Phase::Passing)),
            Phase::ElseTaking | Phase::ElsePassing => Err(fault(FaultKind::StrayEnd, row.place())),
        }
    }

    /// A line that is `.else` before substitution, among lines that are skipped.
    fn skip_else(
        &mut self,
        files: &'a Files,
        symbols: &Symbols,
        row: Row<'a>,
        branch: Branch,
    ) -> Result<LineResult<'a>, Failure<ExpanderFault>>
        requires expansions { (config self.old).names.count < 2 ^ 31 }
        requires reading { self.old.mode ≡ modes.Reading }
        ensures answer { Follows (rule.else_in branch.phase row.entry.place (λ _. rule.resumes files.now symbols.now row.entry Directive.Else (config self.old))) result (config self.new) }
        ensures kept { Keeps result (config self.old) (config self.new) }
    {
        match branch.phase {
            Phase::Seeking | Phase::Taking | Phase::Passing => {
                self.resume(files, symbols, row, Directive::Else)
            }
            Phase::ElseTaking | Phase::ElsePassing => Err(fault(FaultKind::StrayEnd, row.place())),
        }
    }

    /// A line that is skipped, and not in a nested `.if`.
    fn skip_outer(
        &mut self,
        files: &'a Files,
        symbols: &Symbols,
        row: Row<'a>,
        directive: Option<Directive>,
        branch: Branch,
    ) -> Result<LineResult<'a>, Failure<ExpanderFault>>
        requires expansions { (config self.old).names.count < 2 ^ 31 }
        requires reading { self.old.mode ≡ modes.Reading }
        ensures answer { Follows (rule.skips_outer files.now symbols.now row.entry directive branch (other_branches (config self.old).frame.branches) (config self.old)) result (config self.new) }
        ensures kept { Keeps result (config self.old) (config self.new) }
    {
        match directive {
            Some(Directive::If) => self.nest(branch, 1),
            Some(Directive::ElseIf) => self.read_elseif(files, symbols, row, branch),
            Some(Directive::Else) => self.skip_else(files, symbols, row, branch),
            Some(Directive::EndIf) => self.resume(files, symbols, row, Directive::EndIf),
            _ => Ok(LineResult::Consumed),
        }
    }

    /// A line that is skipped, in a nested `.if`.
    fn skip_nested(
        &mut self,
        directive: Option<Directive>,
        branch: Branch,
    ) -> Result<LineResult<'a>, Failure<ExpanderFault>>
        requires some { 0 < branch.nested }
        requires few { branch.nested < 2 ^ 31 }
        ensures answer { Follows (rule.skips_nested directive branch (other_branches (config self.old).frame.branches) (config self.old)) result (config self.new) }
        ensures kept { Keeps result (config self.old) (config self.new) }
    {
        match directive {
            Some(Directive::If) => self.nest(branch, branch.nested + 1),
            Some(Directive::EndIf) => self.nest(branch, branch.nested - 1),
            _ => Ok(LineResult::Consumed),
        }
    }

    /// A line that is skipped.
    #[tactic(auto, unfolding(c25_meaning_expansion::specs::ExpansionRules::skips))]
    fn skip(
        &mut self,
        files: &'a Files,
        symbols: &Symbols,
        row: Row<'a>,
        directive: Option<Directive>,
        branch: Branch,
    ) -> Result<LineResult<'a>, Failure<ExpanderFault>>
        requires expansions { (config self.old).names.count < 2 ^ 31 }
        requires reading { self.old.mode ≡ modes.Reading }
        requires few { branch.nested < 2 ^ 31 }
        ensures answer { Follows (rule.skips files.now symbols.now row.entry directive branch (other_branches (config self.old).frame.branches) (config self.old)) result (config self.new) }
        ensures kept { Keeps result (config self.old) (config self.new) }
    {
        if branch.nested == 0 {
            self.skip_outer(files, symbols, row, directive, branch)
        } else {
            self.skip_nested(directive, branch)
        }
    }

    /// A line among those that an `.if` takes.
    fn take(
        &mut self,
        files: &'a Files,
        symbols: &Symbols,
        row: Row<'a>,
        directive: Option<Directive>,
        branch: Branch,
    ) -> Result<LineResult<'a>, Failure<ExpanderFault>>
        requires expansions { (config self.old).names.count < 2 ^ 31 }
        requires reading { self.old.mode ≡ modes.Reading }
        ensures answer { Follows (rule.takes files.now symbols.now row.entry directive branch (other_branches (config self.old).frame.branches) (config self.old)) result (config self.new) }
        ensures kept { Keeps result (config self.old) (config self.new) }
    {
        match directive {
            Some(Directive::ElseIf) => self.read_elseif(files, symbols, row, branch),
            _ => self.use_line(files, symbols, row, directive),
        }
    }

    /// A line that is not collected for a body, of a macro or of a loop.
    #[inline(always)]
    pub(crate) fn read_line(
        &mut self,
        files: &'a Files,
        symbols: &Symbols,
        row: Row<'a>,
    ) -> Result<LineResult<'a>, Failure<ExpanderFault>>
        requires expansions { (config self.old).names.count < 2 ^ 31 }
        requires reading { self.old.mode ≡ modes.Reading }
        requires nested { nesting (config self.old).frame.branches < 2 ^ 31 }
        ensures answer { Follows (rule.reads_by files.now symbols.now row.entry (rule.directive_in (first_word row.entry.text)) (config self.old).frame.branches (config self.old)) result (config self.new) }
        ensures kept { Keeps result (config self.old) (config self.new) }
    {
        let directive = directive_in(row.text());
        match self.top.frame.branches.innermost() {
            None => self.use_line(files, symbols, row, directive),
            Some(branch) if takes_lines(branch.phase) => {
                self.take(files, symbols, row, directive, branch)
            }
            Some(branch) => self.skip(files, symbols, row, directive, branch),
        }
    }
}
