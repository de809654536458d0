//! The items of an expression, kept as one or as several.

ghost use Rattle.std.specs.Prelude.{◌≡◌, length};
ghost use Rattle.c25_expr.specs.Steps.{steps_of};

use crate::tree::{PostfixItem, Steps};
use std::slice;

impl Steps {
    /// Keeps items in order; one item alone is kept without a `Vec`.
    pub(crate) fn of(items: Vec<PostfixItem>) -> Steps
        ensures { steps_of result ≡ items.items }
    {
        let mut items = items;
        if items.len() != 1 {
            return Steps::Several(items);
        }
        match items.pop() {
            Some(item) => Steps::One(item),
            None => Steps::Several(items),
        }
    }

    pub(crate) fn as_slice(&self) -> &[PostfixItem]
        ensures { result.now ≡ steps_of self.now }
    {
        match self {
            Steps::One(item) => slice::from_ref(item),
            Steps::Several(items) => items.as_slice(),
        }
    }
}
