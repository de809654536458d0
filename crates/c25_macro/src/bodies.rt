//! Lines that are collected as the body of a macro or of a loop.
//!
//! `ExpanderState` and its other methods: `state.rt` says where they are.

ghost use Rattle.std.specs.Prelude.{◌≡◌, ◌<◌, ◌^◌};
ghost use Rattle.std.specs.String.{string_bytes};
ghost use Rattle.c25_meaning_language.specs.Line.{first_word};
ghost use Rattle.c25_meaning_expansion.specs.ExpansionRules as rule;
ghost use Rattle.c25_macro.specs.Acts.{bytes_of_names};
ghost use Rattle.c25_macro.specs.Config.{config, ForBody, GoesOn};
ghost use Rattle.c25_macro.specs.declared.state.Mode.TheVariants as modes;

use crate::directive::directive_in;
use crate::expander_fault::ExpanderFault;
use crate::frames::Kind;
use crate::macros::Macro;
use crate::state::{ExpanderState, Mode};
use c25_files::{Row, Rows};
use c25_meaning_common::failure::Failure;
use c25_meaning_common::placed::FileLine;
use c25_meaning_expansion::expansion::Directive;

impl<'a> ExpanderState<'a> {
    /// Takes one line while a macro is collected: a line of the body, or the `.endm` that ends it.
    #[tactic(auto, unfolding(c25_meaning_expansion::specs::ExpansionRules::in_macro))]
    pub(crate) fn collect_macro(
        &mut self,
        row: Row<'a>,
        name: String,
        parameters: Vec<String>,
        nested: usize,
    ) -> Result<(), Failure<ExpanderFault>>
        requires few { nested < 2 ^ 32 }
        requires reading { self.old.mode ≡ modes.Reading }
        ensures { ForBody self.old.top.lines.passed row.entry (λ body. GoesOn (rule.in_macro row.entry (rule.directive_in (first_word row.entry.text)) (string_bytes name) (bytes_of_names parameters.items) body nested (config self.old)) result (config self.new)) }
    {
        let nested = match directive_in(row.text()) {
            Some(Directive::Macro) => nested + 1,
            Some(Directive::EndMacro) => {
                if nested == 0 {
                    let body = self.top.lines.body();
                    let definition = Macro { parameters, body };
                    return self
                        .names
                        .define(name, definition)
                        .map_err(Failure::NoMemory);
                }
                nested - 1
            }
            _ => nested,
        };
        self.look(Mode::InMacro {
            name,
            parameters,
            nested,
        });
        Ok(())
    }

    /// Begins the turns of a loop whose lines were collected.
    fn begin_turns(
        &mut self,
        place: FileLine<usize>,
        turns: usize,
        body: Rows<'a>,
    ) -> Result<(), Failure<ExpanderFault>>
        requires reading { self.old.mode ≡ modes.Reading }
        ensures { GoesOn (rule.turns_begin place turns body.entry (config self.old)) result (config self.new) }
    {
        if turns == 0 {
            return Ok(());
        }
        let last = body.last_place(place);
        let rows = body.copy();
        let more = turns - 1;
        self.open(Kind::Turn { body, more }, last, rows)
    }

    /// Takes one line while a loop is collected: a line of the body, or the `.endloop` that ends it.
    #[tactic(auto, unfolding(c25_meaning_expansion::specs::ExpansionRules::in_loop))]
    pub(crate) fn collect_loop(
        &mut self,
        row: Row<'a>,
        turns: usize,
        nested: usize,
    ) -> Result<(), Failure<ExpanderFault>>
        requires few { nested < 2 ^ 32 }
        requires reading { self.old.mode ≡ modes.Reading }
        ensures { ForBody self.old.top.lines.passed row.entry (λ body. GoesOn (rule.in_loop row.entry (rule.directive_in (first_word row.entry.text)) turns body nested (config self.old)) result (config self.new)) }
    {
        let nested = match directive_in(row.text()) {
            Some(Directive::Loop) => nested + 1,
            Some(Directive::EndLoop) => {
                if nested == 0 {
                    let body = self.top.lines.body();
                    return self.begin_turns(row.place(), turns, body);
                }
                nested - 1
            }
            _ => nested,
        };
        self.look(Mode::InLoop { turns, nested });
        Ok(())
    }
}
