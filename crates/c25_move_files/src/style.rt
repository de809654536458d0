//! How old sources are written.

ghost use Rattle.std.specs.Prelude.{◌≡◌, IfErr, IfOk, Ok, Some, map, string_bytes};
ghost use Rattle.std.specs.Option.{option_map, option_or};
ghost use Rattle.c25_move_lines.specs.declared.style.Style.{Style};
ghost use Rattle.c25_move_lines.specs.declared.style.Style.TheVariants.{Early, Coff};
ghost use Rattle.c25_move_files.specs.Refusals as meaning;
ghost use Rattle.c25_move_files.specs.Files.{old_of};
ghost use Rattle.c25_move_files.specs.Styles as styles;
ghost use Rattle.c25_move_files.specs.Task.{style_asked, style_named};

use crate::old::OldFile;
use crate::refusals::{Refusal, place_text, short};
use c25_meaning_common::no_memory::NoMemory;
use c25_move_lines::{LongOrder, Style};
use c25_move_style::shown_styles;
use std::alloc::Global;

/// The style of this name.
fn style_named(name: &str) -> Option<Style>
    ensures { result ≡ style_named name.now }
{
    match name {
        "1987" => Some(Style::Early),
        "spru018" => Some(Style::Coff),
        _ => None,
    }
}

/// The name of a style.
pub(crate) fn name_of(style: Style) -> &'static str {
    match style {
        Style::Early => "1987",
        Style::Coff => "spru018",
    }
}

/// The refusal of an argument that names no style.
fn no_style(alloc: Global, word: &str) -> Refusal
    ensures { meaning.IsMisused (λ line. line ≡ meaning.no_style_line word.now) result }
{
    match format!(in alloc; "c25: --style takes 1987 or spru018, not {word}") {
        Ok(line) => Refusal::Misused(line),
        Err(error) => Refusal::NoMemory(NoMemory::from(error)),
    }
}

/// The style that the argument of `--style` names; none where it is not given. Refused where it names none.
pub fn style_asked(alloc: Global, word: Option<&str>) -> Result<Option<Style>, Refusal>
    ensures asked { IfOk result (λ s. s ≡ style_asked (option_map (λ w. w.now) word.entry)) }
    ensures refused { IfErr result (meaning.IsMisused (meaning.IsNoStyle (option_map (λ w. w.now) word.entry))) }
{
    match word {
        None => Ok(None),
        Some(word) => match style_named(word) {
            Some(style) => Ok(Some(style)),
            None => Err(no_style(alloc, word)),
        },
    }
}

/// The order of this name.
fn order_named(name: &str) -> Option<LongOrder>
    ensures { result ≡ meaning.order_named name.now }
{
    match name {
        "low" => Some(LongOrder::Low),
        "high" => Some(LongOrder::High),
        _ => None,
    }
}

/// The refusal of an argument that names no order.
fn no_order(alloc: Global, word: &str) -> Refusal
    ensures { meaning.IsMisused (λ line. line ≡ meaning.no_order_line word.now) result }
{
    match format!(in alloc; "c25: --long-order takes low or high, not {word}") {
        Ok(line) => Refusal::Misused(line),
        Err(error) => Refusal::NoMemory(NoMemory::from(error)),
    }
}

/// The order that the argument of `--long-order` names; none where it is not given. Refused where it names none.
pub fn order_asked(alloc: Global, word: Option<&str>) -> Result<Option<LongOrder>, Refusal>
    ensures asked { IfOk result (λ o. o ≡ meaning.order_asked (option_map (λ w. w.now) word.entry)) }
    ensures refused { IfErr result (meaning.IsMisused (meaning.IsNoOrder (option_map (λ w. w.now) word.entry))) }
{
    match word {
        None => Ok(None),
        Some(word) => match order_named(word) {
            Some(order) => Ok(Some(order)),
            None => Err(no_order(alloc, word)),
        },
    }
}

/// A line of a file.
#[derive(Clone, Copy)]
struct Place<'a> {
    file: &'a str,
    line: usize,
}

/// The first lines that show each style.
#[derive(Clone, Copy)]
struct Shown<'a> {
    early: Option<Place<'a>>,
    coff: Option<Place<'a>>,
}

/// The first of two lines, the second of which is one of this file.
fn first_of<'a>(place: Option<Place<'a>>, file: &'a str, line: Option<usize>) -> Option<Place<'a>>
    ensures { option_map styles.line_of result ≡ option_or (option_map styles.line_of place.entry) (styles.line_in file.entry.now line) }
{
    match (place, line) {
        (Some(place), _) => Some(place),
        (None, Some(line)) => Some(Place { file, line }),
        (None, None) => None,
    }
}

/// The first lines of sources that show each style.
fn shown_in<'a>(alloc: Global, sources: &'a [OldFile]) -> Result<Shown<'a>, NoMemory>
    ensures early { IfOk result (λ s. option_map styles.line_of s.early ≡ styles.first_shown Early (map old_of sources.entry.now)) }
    ensures coff { IfOk result (λ s. option_map styles.line_of s.coff ≡ styles.first_shown Coff (map old_of sources.entry.now)) }
{
    let mut shown = Shown {
        early: None,
        coff: None,
    };
    for source in sources {
        let own = shown_styles(alloc, source.text.as_str())?;
        let file = source.name.as_str();
        let early = first_of(shown.early, file, own.early);
        let coff = first_of(shown.coff, file, own.coff);
        shown = Shown { early, coff };
    }
    Ok(shown)
}

/// The style of sources, and the line of the report that says why.
#[derive(Drop)]
pub(crate) struct StyleFound {
    pub style: Style,
    pub line: String,
}

/// The line that says that sources show both styles.
fn both_text(alloc: Global, early: Place<'_>, coff: Place<'_>) -> Result<String, NoMemory>
    ensures { IfOk result (λ line. string_bytes line ≡ meaning.both_line (styles.line_of early.entry) (styles.line_of coff.entry)) }
{
    let early = place_text(alloc, early.file, early.line)?;
    let coff = place_text(alloc, coff.file, coff.line)?;
    Ok(format!(in alloc; "{early} is of style 1987, and {coff} of style spru018: say --style")?)
}

/// The refusal of sources of which a line shows each style.
fn both_shown(alloc: Global, early: Place<'_>, coff: Place<'_>) -> Refusal
    ensures { meaning.IsFaulty (λ line. line ≡ meaning.both_line (styles.line_of early.entry) (styles.line_of coff.entry)) result }
{
    match both_text(alloc, early, coff) {
        Ok(line) => Refusal::Faulty(line),
        Err(error) => Refusal::NoMemory(error),
    }
}

/// A style that a line shows, with the line of the report that says so.
fn shown_by(alloc: Global, style: Style, place: Place<'_>) -> Result<StyleFound, NoMemory>
    ensures { IfOk result (λ f. f.style ≡ style) }
{
    let Place { file, line } = place;
    let name = name_of(style);
    let line = format!(in alloc; "{file}:{line}: style {name}\n")?;
    Ok(StyleFound { style, line })
}

/// The style of sources in which no directive shows one.
fn shown_by_none(alloc: Global) -> Result<StyleFound, NoMemory>
    ensures { IfOk result (λ f. f.style ≡ Coff) }
{
    let style = Style::Coff;
    let name = name_of(style);
    let line = format!(in alloc; "style {name}: no directive shows another\n")?;
    Ok(StyleFound { style, line })
}

/// A style that is found, or the refusal where memory ran out.
fn found(style: Result<StyleFound, NoMemory>) -> Result<StyleFound, Refusal>
    ensures found { IfOk result (λ f. style ≡ Ok f) }
    ensures refused { IfErr result (meaning.IsFaulty (λ line. ⊥)) }
{
    match style {
        Ok(style) => Ok(style),
        Err(error) => Err(short(error)),
    }
}

/// The style that lines show: the early one where none shows the other, and else that of the COFF assembler. Refused where
/// there are lines of both.
fn style_shown(alloc: Global, shown: Shown<'_>) -> Result<StyleFound, Refusal>
    ensures style { IfOk result (λ f. styles.style_by (option_map styles.line_of shown.entry.early) (option_map styles.line_of shown.entry.coff) ≡ Some f.style) }
    ensures refused { IfErr result (meaning.IsFaulty (meaning.AreBoth (option_map styles.line_of shown.entry.early) (option_map styles.line_of shown.entry.coff))) }
{
    match (shown.early, shown.coff) {
        (Some(early), Some(coff)) => Err(both_shown(alloc, early, coff)),
        (Some(early), None) => found(shown_by(alloc, Style::Early, early)),
        (None, Some(coff)) => found(shown_by(alloc, Style::Coff, coff)),
        (None, None) => found(shown_by_none(alloc)),
    }
}

/// The style that the directives of sources show. Refused where they show both.
fn style_in(alloc: Global, sources: &[OldFile]) -> Result<StyleFound, Refusal>
    ensures style { IfOk result (λ f. styles.style_shown (map old_of sources.now) ≡ Some f.style) }
    ensures refused { IfErr result (meaning.IsFaulty (meaning.ShowBoth (map old_of sources.now))) }
{
    match shown_in(alloc, sources) {
        Ok(shown) => style_shown(alloc, shown),
        Err(error) => Err(short(error)),
    }
}

/// The style that is asked for, with the line of the report that says so.
fn as_asked(alloc: Global, style: Style) -> Result<StyleFound, NoMemory>
    ensures { IfOk result (λ f. f.style ≡ style) }
{
    let name = name_of(style);
    let line = format!(in alloc; "style {name}, as --style says\n")?;
    Ok(StyleFound { style, line })
}

/// The style of sources: that which is asked for, or that which their directives show. Refused where none is asked for and
/// they show both.
pub(crate) fn style_of(
    alloc: Global,
    asked: Option<Style>,
    sources: &[OldFile],
) -> Result<StyleFound, Refusal>
    ensures style { IfOk result (λ f. styles.style_of asked (map old_of sources.now) ≡ Some f.style) }
    ensures refused { IfErr result (meaning.IsFaulty (meaning.ShowBothUnasked asked (map old_of sources.now))) }
{
    match asked {
        Some(style) => found(as_asked(alloc, style)),
        None => style_in(alloc, sources),
    }
}
