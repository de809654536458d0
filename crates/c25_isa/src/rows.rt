//! The `match`es that a family's list of rows expands to. A family's macro, as `mem_rows!`, holds its rows
//! once and hands them to one of the macros here, each of which makes one `match` of them:
//! `mem_rows!(words_of name)`.
//!
//! A list begins with the family's enum and the number of words that its instructions have. A row is a name,
//! its text, and the high byte of its first word, or the first and the last such byte. The families of
//! `long.rt` and `plain.rt` have the whole first word in place of its high byte.

/// A name's first word where every operand is 0.
macro_rules! base_of {
    ($names:ident $words:literal $name:expr; $($row:ident $text:literal $high:literal $($last:literal)?,)*) => {
        match $name {
            $($names::$row => $high << 8,)*
        }
    };
}

/// A name's first word where every operand is 0, of rows that have the whole first word.
macro_rules! word_of {
    ($names:ident $words:literal $name:expr; $($row:ident $text:literal $word:literal $($last:literal)?,)*) => {
        match $name {
            $($names::$row => $word,)*
        }
    };
}

/// The name whose row has this high byte or word.
macro_rules! name_at {
    ($names:ident $words:literal $value:expr; $($row:ident $text:literal $first:literal $($last:literal)?,)*) => {
        match $value {
            $($first $(..=$last)? => Some($names::$row),)*
            _ => None,
        }
    };
}

/// The name whose row has this high byte or word, and how far the value is above the row's first one.
macro_rules! numbered_at {
    ($names:ident $words:literal $value:expr; $($row:ident $text:literal $first:literal $($last:literal)?,)*) => {
        match $value {
            $(number @ $first $(..=$last)? => Some(($names::$row, number - $first)),)*
            _ => None,
        }
    };
}

/// How many words an instruction of a family has.
macro_rules! words_of {
    ($names:ident $words:literal $name:expr; $($row:ident $text:literal $($number:literal)+,)*) => {
        match $name {
            $($names::$row)|* => $words,
        }
    };
}

/// A name's text.
macro_rules! text_of {
    ($names:ident $words:literal $name:expr; $($row:ident $text:literal $($number:literal)+,)*) => {
        match $name {
            $($names::$row => $text,)*
        }
    };
}

pub(crate) use base_of;
pub(crate) use name_at;
pub(crate) use numbered_at;
pub(crate) use text_of;
pub(crate) use word_of;
pub(crate) use words_of;
