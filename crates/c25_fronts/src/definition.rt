//! Definitions of symbols on a command line.

ghost use Rattle.std.specs.Prelude.{◌≡◌};
ghost use Rattle.std.specs.List.{list_all};
ghost use Rattle.c25_meaning_language.specs.Line.{is_name};
ghost use Rattle.c25_fronts.specs.Definitions.{is_definition, name_of, stays_in_value, value_of};

use c25_meaning_common::bytes::begins_name;
use c25_meaning_common::runs::all_go_on_name;

/// A symbol that a command line defines, by the texts of its name and its value.
#[derive(Clone, Copy)]
pub struct Definition<'a> {
    pub name: &'a str,
    pub value: &'a str,
}

/// The definition that a text `NAME=VALUE` asks for; `NAME` alone stands for `NAME=1`.
#[tactic(auto, using(std::proofs::lemmas::Str::Pattern::split_once_first))]
pub fn definition_of(text: &str) -> Definition<'_>
    ensures name { result.name.now ≡ name_of text.now }
    ensures value { result.value.now ≡ value_of text.now }
{
    match text.split_once('=') {
        Some((name, value)) => Definition { name, value },
        None => Definition {
            name: text,
            value: "1",
        },
    }
}

/// Whether a text is a symbol's name.
fn is_name(text: &str) -> bool
    ensures { result ≡ is_name text.now }
{
    let bytes = text.as_bytes();
    match bytes.first() {
        Some(first) => begins_name(*first) && all_go_on_name(bytes),
        None => false,
    }
}

/// Whether neither a comment nor another line begins with a byte of a value.
fn stays_in_value(byte: u8) -> bool
    ensures { result ≡ stays_in_value byte }
{
    !matches!(byte, b'\n' | b'\r' | b';')
}

/// Whether neither a comment nor another line begins in a text.
fn stays_in_line(text: &[u8]) -> bool
    ensures { result ≡ list_all stays_in_value text.now }
{
    text.iter().all(|byte| stays_in_value(*byte))
}

/// Whether a text defines a symbol: its name is that of a symbol, and neither a comment nor another line
/// begins in it. Whether its value is one, the assembler says.
pub fn is_definition(text: &str) -> bool
    ensures { result ≡ is_definition text.now }
{
    let Definition { name, .. } = definition_of(text);
    is_name(name) && stays_in_line(text.as_bytes())
}
