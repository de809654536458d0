//! A line as it is read where it is refused.

use c25_expr::symbols::Symbols;
use std::borrow::CowStr;

/// A line as it is read where it is refused: its text after substitution, and what names and `$` stand for
/// then. In the first phase names stand for what the lines so far and the line's own label make of them, in the
/// second one all names are known.
#[derive(Drop)]
pub struct SeenLine<'a> {
    pub text: CowStr<'a>,
    pub symbols: Symbols,
}
