//! Reading an expression from symbols.

ghost use Rattle.std.specs.Prelude.{map, reverse};
ghost use Rattle.std.specs.Option.{ok_or};
ghost use Rattle.c25_meaning_common.specs.Results.{Meets};
ghost use Rattle.c25_old_expressions.specs.Marks.{marks_of};
ghost use Rattle.c25_old_expressions.specs.Reader.{run, start, item_of};

use crate::item::Item;
use crate::order::Order;
use crate::reader::Reader;
use crate::symbol::Symbol;
use c25_meaning_common::failure::Failure;
use c25_meaning_language::expression::ExpressionFault;
use std::alloc::Global;

/// The items of the expression that symbols form, in postfix order.
pub(crate) fn items_of<'a>(
    alloc: Global,
    order: Order,
    symbols: &[Symbol<'a>],
) -> Result<Vec<Item<'a>>, Failure<ExpressionFault>>
    ensures { Meets (λ items. reverse (map item_of items.items)) (ok_or (run order (marks_of symbols.now) start) ExpressionFault.BadExpression) result }
{
    let mut reader = Reader::new(alloc);
    for symbol in symbols {
        reader.take(order, *symbol)?;
    }
    reader.finish()
}
