//! The line that substitution writes.

ghost use Rattle.std.specs.Prelude.{◌≡◌, ◌++◌, ◌∷◌, []};
ghost use Rattle.std.specs.Fmt.{decimal};
ghost use Rattle.std.specs.String.{string_bytes};
ghost use Rattle.c25_meaning_language.specs.Substitution.{as_is};
ghost use Rattle.c25_substitution.specs.View.{written_so_far, IsAll, IsWithin, Writes};

use c25_meaning_common::failure::Failure;
use c25_meaning_language::long_line::LongLine;
use std::alloc::Global;

/// How many bytes a line may have, and how many replacements it may take.
pub(crate) const LIMIT: usize = 1024;

/// The text that is written so far, and how many replacements it took.
#[derive(Drop)]
pub(crate) struct Output {
    alloc: Global,
    pub(crate) text: String,
    pub(crate) replacements: usize,
}

impl Output {
    /// An empty output with room for `room` bytes, or for the longest line if that is less.
    pub(crate) fn with_room(alloc: Global, room: usize) -> Result<Self, Failure<LongLine>>
        ensures { IsAll (as_is []) result }
    {
        Ok(Output {
            alloc,
            text: String::with_capacity(alloc, room.min(LIMIT))?,
            replacements: 0,
        })
    }

    /// Writes a text as it is; `LongLine` (38) where the whole would have more than 1,024 bytes.
    pub(crate) fn push(&mut self, text: &str) -> Result<(), Failure<LongLine>>
        requires { IsWithin (written_so_far self.old) }
        ensures { Writes (written_so_far self.old) (as_is text.now) result (written_so_far self.new) }
    {
        if text.len() > LIMIT - self.text.len() {
            return Err(Failure::Fault(LongLine));
        }
        self.text.push_str(text).map_err(Failure::from)
    }

    /// Writes a name, `_` and a number.
    pub(crate) fn push_numbered(&mut self, name: &str, number: u32) -> Result<(), Failure<LongLine>>
        requires { IsWithin (written_so_far self.old) }
        ensures { Writes (written_so_far self.old) (as_is (name.now ++ 95 ∷ decimal number)) result (written_so_far self.new) }
    {
        self.push(name)?;
        let suffix = format!(in self.alloc; "_{number}")?;
        self.push(suffix.as_str())
    }

    /// Counts a replacement; `LongLine` (38) where it is the 1,025th.
    pub(crate) fn count(&mut self) -> Result<(), Failure<LongLine>>
        requires { IsWithin (written_so_far self.old) }
        ensures { Writes (written_so_far self.old) (record { text = []; replacements = 1 }) result (written_so_far self.new) }
    {
        if self.replacements == LIMIT {
            return Err(Failure::Fault(LongLine));
        }
        self.replacements += 1;
        Ok(())
    }

    /// The whole text that was written.
    pub(crate) fn into_text(self) -> String
        ensures { string_bytes result ≡ (written_so_far self).text }
    {
        self.text
    }
}
