//! An entry of the reference.

use std::fmt;

/// What is known of an instruction or a directive. Each text but the name is lines of at most 100 columns, the last with its
/// line feed too.
#[derive(Clone, Copy)]
pub struct Entry {
    /// The mnemonic in upper case, or the directive in lower case with its dot.
    pub name: &'static str,
    /// How it is written, a line for each form.
    pub form: &'static str,
    /// What it does, in a sentence, and in a line the fields of the status words that affect an instruction and that it affects,
    /// where there are some.
    pub does: &'static str,
    /// Lines of a source that have it.
    pub example: &'static str,
}

impl fmt::Display for Entry {
    ghost use Rattle.std.specs.Prelude.{Some};
    ghost use Rattle.c25_reference.specs.Entries.{whole_text};

    ghost output = { λ entry. Some (whole_text entry) };

    /// The whole entry: its forms, what it does, and its examples, with an empty line between them.
    fn fmt<W: fmt::Write>(&self, f: &mut fmt::Formatter<W>) -> fmt::Result {
        let Entry {
            form,
            does,
            example,
            ..
        } = self;
        write!(f, "{form}\n{does}\nExample:\n\n{example}")
    }
}
