//! Items: what the first phase leaves for the second one, which knows all names.

ghost use Rattle.std.specs.Prelude.{◌≤◌, ◌+◌};
ghost use Rattle.c25_phases.specs.Sizes.{content_size};

use c25_meaning_assembly::assembly::Target;
use c25_meaning_common::placed::FileLine;
use c25_statements::statement::Exprs;

/// The content of an item.
#[derive(Drop)]
pub(crate) enum Content {
    /// Operands whose values are not known yet.
    Operands(Target, Exprs),
    /// Words that are known already.
    Words(Vec<u16>),
    /// A number of words that are zero.
    Zeros(u32),
    /// Names that have to be defined in the module.
    Exported(Vec<String>),
}

/// An item: its content, its line, and the place where it begins.
#[derive(Drop)]
pub(crate) struct PendingItem<'a> {
    pub(crate) origin: FileLine<&'a str>,
    pub(crate) section: u16,
    pub(crate) offset: u32,
    pub(crate) content: Content,
    ghost within: { offset + content_size content ≤ 65536 },
}
