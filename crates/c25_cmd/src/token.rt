//! The tokens of a command file.

use c25_meaning_linking::command_token::Kind;

/// A token of a text.
#[derive(Drop)]
pub(crate) struct Token {
    pub kind: Kind,
    /// The place of the token's first byte, from 0.
    pub place: usize,
    /// The token's text, where it is a word; empty otherwise.
    pub text: String,
}
