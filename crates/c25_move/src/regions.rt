//! Where the lines of a source stand.

ghost use Rattle.std.specs.Prelude.{◌≡◌};
ghost use Rattle.c25_move.specs.Promises.{ends_source, has_word, region_after};
ghost use Rattle.c25_move.specs.declared.region.Region.TheVariants.{Outside};

use crate::region::Region;
use c25_move_lines::Style;
use c25_text::first_word;

/// Whether the word of a line is this one, letters in either case.
fn has_word(word: &str, line: &str) -> bool
    ensures { result ≡ has_word word.now line.now }
{
    match first_word(line) {
        Some(first) => first.eq_ignore_ascii_case(word),
        None => false,
    }
}

/// Whether a line ends the source.
fn ends_source(style: Style, line: &str) -> bool
    ensures { result ≡ ends_source style line.now }
{
    match style {
        Style::Early => has_word(".end", line) || has_word("END", line),
        Style::Coff => has_word(".end", line),
    }
}

/// Where the line after a line stands that is outside of macros.
fn after_outside(style: Style, line: &str) -> Region
    ensures { result ≡ region_after style Outside line.now }
{
    if ends_source(style, line) {
        Region::Behind
    } else if has_word(".macro", line) {
        Region::Body
    } else {
        Region::Outside
    }
}

/// Where the line after a line stands.
pub(crate) fn region_after(style: Style, region: Region, line: &str) -> Region
    ensures { result ≡ region_after style region line.now }
{
    match region {
        Region::Outside => after_outside(style, line),
        Region::Body if has_word(".endm", line) => Region::Outside,
        Region::Body => Region::Body,
        Region::Behind => Region::Behind,
    }
}
