//! Instructions and words of the parts of an image.

ghost use Rattle.std.specs.Prelude.{◌≡◌, ◌+◌, ◌≤◌, length};
ghost use Rattle.c25_layout.specs.Layout.{item_words, parts_words, rows_words};
ghost use Rattle.c25_reach.specs.Reached.{item_reach, parts_reach, rows_reach, together};
ghost use Rattle.c25_reach.specs.Room.{HasRoom};

use c25_isa::size_of;
use c25_layout::layout::{Item, Part, Row};

/// What words are taken for, counted.
#[derive(Clone, Copy, PartialEq, Debug)]
pub struct Reach {
    /// How many instructions there are.
    pub instructions: usize,
    /// How many words they have.
    pub instruction_words: usize,
    /// How many words of data there are.
    pub data_words: usize,
}

/// What a row is.
fn item_reach(item: &Item) -> Reach
    ensures { result ≡ item_reach item.now }
{
    match item {
        Item::Plain(insn) | Item::Named(insn, _) => Reach {
            instructions: 1,
            instruction_words: usize::from(size_of(insn.mnemonic())),
            data_words: 0,
        },
        Item::Words(words) => Reach {
            instructions: 0,
            instruction_words: 0,
            data_words: words.len(),
        },
        Item::Address(_, _) => Reach {
            instructions: 0,
            instruction_words: 0,
            data_words: 1,
        },
    }
}

/// What a row and the rows before it are together, where the memory has room for all their words.
fn with_item(before: Reach, item: &Item) -> Reach
    requires { HasRoom before (length (item_words item.now)) }
    ensures { result ≡ together before (item_reach item.now) }
{
    let more = item_reach(item);
    Reach {
        instructions: before.instructions + more.instructions,
        instruction_words: before.instruction_words + more.instruction_words,
        data_words: before.data_words + more.data_words,
    }
}

/// What rows and those before them are together, where the memory has room for all their words.
fn with_rows(before: Reach, rows: &[Row]) -> Reach
    requires { HasRoom before (length (rows_words rows.now)) }
    ensures { result ≡ together before (rows_reach rows.now) }
{
    let mut reach = before;
    for row in rows {
        reach = with_item(reach, &row.item);
    }
    reach
}

/// What the parts of an image are taken for, where the memory has room for all their words.
pub fn reach_of(parts: &[Part]) -> Reach
    requires { length (parts_words parts.now) ≤ 65536 }
    ensures { result ≡ parts_reach parts.now }
{
    let mut reach = Reach {
        instructions: 0,
        instruction_words: 0,
        data_words: 0,
    };
    for part in parts {
        reach = with_rows(reach, &part.rows);
    }
    reach
}
