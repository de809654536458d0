//! The line in which SECTIONS lists a section.

ghost use Rattle.std.specs.Prelude.{◌≡◌, IfOk};
ghost use Rattle.c25_cmd.specs.SectionLines.{after_sections, listed_at, lists, section_line};
ghost use Rattle.c25_cmd.specs.View.{tokens_of};

use crate::grammar::{begins, passes};
use crate::lexer::tokens;
use crate::line_numbers::line_at;
use crate::token::Token;
use c25_meaning_common::no_memory::NoMemory;
use c25_meaning_linking::command_token::{Keyword, Sign, Want};
use std::alloc::Global;

/// The tokens after the first `SECTIONS` that a brace follows; none where there is no such `SECTIONS`.
fn after_sections(tokens: &[Token]) -> &[Token]
    ensures { tokens_of result.now ≡ after_sections (tokens_of tokens.now) }
{
    for (i, token) in tokens.iter().enumerate() {
        let rest = &tokens[i + 1..];
        if passes(Want::Keyword(Keyword::Sections), token.kind)
            && begins(Want::Sign(Sign::OpenBrace), rest)
        {
            return rest;
        }
    }
    &tokens[tokens.len()..]
}

/// Whether the first token is this name, and the second a colon.
fn lists(name: &str, tokens: &[Token]) -> bool
    ensures { result ≡ lists name.now (tokens_of tokens.now) }
{
    match tokens {
        [] => false,
        [token, rest @ ..] => {
            passes(Want::Name, token.kind)
                && token.text.as_str() == name
                && begins(Want::Sign(Sign::Colon), rest)
        }
    }
}

/// Where the first of these tokens begins that is this name directly before a colon; those from a `MEMORY` on do
/// not count.
fn listed_at(name: &str, tokens: &[Token]) -> Option<usize>
    ensures { result ≡ listed_at name.now (tokens_of tokens.now) }
{
    for (i, token) in tokens.iter().enumerate() {
        if passes(Want::Keyword(Keyword::Memory), token.kind) {
            return None;
        }
        if lists(name, &tokens[i..]) {
            return Some(token.place);
        }
    }
    None
}

/// The line in which the `SECTIONS` of a text lists the section of this name, counted from 1: that of the first
/// such name directly before a colon. `None` where it lists none; the text need not be a command. `NoMemory`
/// where memory runs out.
pub fn section_line(alloc: Global, text: &str, name: &str) -> Result<Option<usize>, NoMemory>
    ensures { IfOk result (λ line. line ≡ section_line text.now name.now) }
{
    let found = tokens(alloc, text.as_bytes())?;
    match listed_at(name, after_sections(found.as_slice())) {
        None => Ok(None),
        Some(place) => Ok(Some(line_at(text, place))),
    }
}
