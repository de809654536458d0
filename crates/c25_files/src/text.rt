//! The text of a file, with the number of its lines.

ghost use Rattle.std.specs.Prelude.{◌≡◌, string_bytes};
ghost use Rattle.c25_meaning_expansion.specs.Rows.{rows_of};

use crate::{Rows, count_lines};
use std::marker::Model;

/// A text, and how many lines it has.
#[derive(Drop)]
pub struct Text {
    text: String,
    count: usize,
}

/// A `Text` stands for its bytes.
impl Model for Text {
    ghost use Rattle.std.specs.Prelude.{ℕ, List};
    ghost use Rattle.std.specs.String.{string_bytes};
    ghost use Rattle.c25_files.specs.Counted.{IsCounted};

    ghost Value = { List ℕ };

    ghost view = { λ t. string_bytes t.text };

    ghost invariant = { λ t. IsCounted t.count (string_bytes t.text) };
}

impl Text {
    pub(crate) fn new(text: String) -> Text
        ensures { result ≡ string_bytes text }
    {
        let count = count_lines(text.as_str());
        Text { text, count }
    }

    pub(crate) fn as_str(&self) -> &str
        ensures { result.now ≡ self.now }
    {
        self.text.as_str()
    }

    /// The lines of the text, as those of the file of this number. They are not copied, and it takes no
    /// memory.
    pub fn rows(&self, file: usize) -> Rows<'_>
        ensures { result ≡ rows_of file self.now }
    {
        Rows::of_file(file, self.text.as_str(), self.count)
    }
}
