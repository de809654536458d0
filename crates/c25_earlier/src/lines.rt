//! The lines of files.

ghost use Rattle.std.specs.Option.{option_map};
ghost use Rattle.std.specs.Prelude.{◌≡◌};
ghost use Rattle.c25_earlier.specs.Copying.{line_of, text_at};

use c25_files::files::Files;
use c25_files::{Rows, count_lines};

/// The line of this number of a text; `None` where there is no such line.
fn line_of(text: &str, number: usize) -> Option<&str>
    ensures { option_map (λ line. line.now) result ≡ line_of text.now number }
{
    let mut passage = Rows::of_file(0, text, count_lines(text)).into_passage();
    while let Some(row) = passage.next() {
        if row.place().line == number {
            return Some(row.text());
        }
    }
    None
}

/// The line of this number of a file; empty where there is no such line.
pub(crate) fn text_at<'a>(files: &'a Files, file: &str, number: usize) -> &'a str
    ensures { result.now ≡ text_at files.now file.now number }
{
    let Some(text) = files.text(file) else {
        return "";
    };
    match line_of(text, number) {
        Some(line) => line,
        None => "",
    }
}
