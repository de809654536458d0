//! A line of a source as it stands in its file, where expansion refuses it, or there is no room for it, and
//! no line is given that is read.

ghost use Rattle.std.specs.Option.{option_map};
ghost use Rattle.std.specs.Prelude.{◌≡◌};
ghost use Rattle.c25_asm.specs.Seen.{seen_of};
ghost use Rattle.c25_explain.specs.Written as meaning;

use crate::note::line_of;
use c25_asm::SeenLine;
use c25_expr::symbols::Symbols;
use c25_macro::files::Files;
use std::alloc::Global;
use std::borrow::CowStr;

/// The text of a line of a file; empty where there is no such line.
fn written_text<'a>(files: &'a Files, file: &str, line: usize) -> &'a str
    ensures { result.now ≡ meaning.written_text files.now file.now line }
{
    let Some(text) = files.text(file) else {
        return "";
    };
    match line_of(text, line) {
        Some(line) => line,
        None => "",
    }
}

/// A line as it is read, or else as it stands in its file, before substitution and with no names.
pub(crate) fn seen_or_written<'a>(
    alloc: Global,
    files: &'a Files,
    file: &str,
    line: usize,
    seen: Option<SeenLine<'a>>,
) -> Option<SeenLine<'a>>
    ensures { option_map seen_of result ≡ meaning.seen_at files.now file.now line (option_map seen_of seen.entry) }
{
    match seen {
        Some(seen) => Some(seen),
        None => Some(SeenLine {
            text: CowStr::Borrowed(written_text(files, file, line)),
            symbols: Symbols::new(alloc),
        }),
    }
}
