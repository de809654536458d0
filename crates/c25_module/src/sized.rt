//! Calls that change nothing, by which a proof knows that the numbers of a module's lists are in the ranges
//! of their types: the range of a number is known where it has been read.

ghost use Rattle.std.specs.Prelude.{◌<◌, ◌^◌, FitsSigned};
ghost use Rattle.std.specs.Int.{w32};
ghost use Rattle.std.specs.List.{AllByRecursion};
ghost use Rattle.c25_meaning_objects.specs.Module.{IsSized, body_words};
ghost use Rattle.c25_module.specs.View.{body_data, sections_data, symbols_data, contents};

use crate::parts::{Body, Parts, Section, Symbol};
use c25_meaning_objects::object::{LineMark, Relocation};

fn sized_words(words: &[u16])
    ensures { AllByRecursion (λ w. w < 2 ^ 16) words.now }
{}

fn sized_body(body: &Body)
    ensures { AllByRecursion (λ w. w < 2 ^ 16) (body_words (body_data body.now)) }
{
    match body {
        Body::Uninitialised(_) => {}
        Body::Initialised(words) => sized_words(words),
    }
}

fn sized_sections(sections: &[Section])
    ensures { AllByRecursion (λ s. AllByRecursion (λ w. w < 2 ^ 16) (body_words s.body)) (sections_data sections.now) }
{
    for section in sections {
        sized_body(&section.body);
    }
}

fn sized_value(value: &i32)
    ensures { FitsSigned w32 value.now }
{
    let _value = *value;
}

fn sized_symbols(symbols: &[Symbol])
    ensures { AllByRecursion (λ y. FitsSigned w32 y.value) (symbols_data symbols.now) }
{
    for symbol in symbols {
        sized_value(&symbol.value);
    }
}

fn sized_relocations(relocations: &[Relocation])
    ensures { AllByRecursion (λ r. FitsSigned w32 r.addend) relocations.now }
{
    for relocation in relocations {
        sized_value(&relocation.addend);
    }
}

fn sized_line(line: &LineMark)
    ensures { (line.now.file < 2 ^ 16) × (line.now.line < 2 ^ 32) }
{
    let (_file, _line) = (line.file, line.line);
}

fn sized_lines(lines: &[LineMark])
    ensures { AllByRecursion (λ l. (l.file < 2 ^ 16) × (l.line < 2 ^ 32)) lines.now }
{
    for line in lines {
        sized_line(line);
    }
}

/// The numbers of all lists are in the ranges of their types.
pub(crate) fn sized(parts: &Parts)
    ensures { IsSized (contents parts.now) }
{
    sized_sections(&parts.sections);
    sized_symbols(&parts.symbols);
    sized_relocations(&parts.relocations);
    sized_lines(&parts.lines);
}
