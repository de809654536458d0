//! A table of what is known and supposed of a program, and look-ups in it.

ghost use Rattle.std.specs.Prelude.{◌≡◌, ◌+◌, ◌*◌, Some, IsTrue};
ghost use Rattle.c25_pages.specs.Table.{IsOrdered, ascend_from, depth_in, drop_in, known_in, return_in, spared_in};
ghost use Rattle.c25_meaning_pages.specs.declared.known.Known.{Known};

use c25_meaning_pages::known::{Dropped, Known};

/// What is known before the statement at an address acts, in one context.
#[derive(Clone, Copy, PartialEq, Debug)]
pub struct Row {
    /// The number of the context: 0 is the program itself.
    pub context: usize,
    /// The program address of the statement.
    pub address: u16,
    /// What is known there.
    pub known: Known,
}

/// A context: one routine, called or begun by an interrupt while one and the same is known; or the program itself.
#[derive(Clone, Copy)]
pub struct Context {
    /// How many words are at most on the stack where it begins.
    pub depth: u16,
    /// What is known where the routine returns; None if it never does.
    pub known_on_return: Option<Known>,
    /// Where the routine takes its own return from the stack; None if it never does.
    pub known_on_drop: Option<Dropped>,
}

/// A data word that a statement is supposed not to write.
#[derive(Clone, Copy)]
pub struct Spared {
    /// The program address of the statement.
    pub address: u16,
    /// The data address of the word.
    pub word: u16,
}

/// What is known of a program before each of its statements acts, and what is supposed of its runs. Of two rows
/// with the same context and address, and of two suppositions for one statement, the first counts.
#[derive(Drop)]
pub struct Table {
    /// What is known, by contexts and addresses.
    pub rows: Vec<Row>,
    /// The contexts, by their numbers.
    pub contexts: Vec<Context>,
    /// Supposed: the data words that statements do not write.
    pub spared: Vec<Spared>,
    /// Supposed: the program addresses to which BACC and CALA go.
    pub landings: Vec<u16>,
    /// Supposed: the bits of the interrupt lines that IMR lets through.
    pub lines: u16,
}

/// The place of a row in the order of rows: by contexts, and by addresses in each.
fn key_of(context: usize, address: u16) -> u128
    ensures { result ≡ context * 65536 + address }
{
    context as u128 * 65_536 + address as u128
}

/// Whether rows ascend by contexts, and by addresses in each.
fn rows_ascend(rows: &[Row]) -> bool
    ensures { result ≡ ascend_from 0 rows.now }
{
    let mut low = 0;
    for row in rows {
        let key = key_of(row.context, row.address);
        if key < low {
            return false;
        }
        low = key + 1;
    }
    true
}

impl Table {
    /// Whether the rows ascend by contexts, and by addresses in each.
    pub fn is_ordered(&self) -> bool
        ensures { IsTrue result → IsOrdered self.now }
    {
        rows_ascend(&self.rows)
    }

    /// What the row at an index says, if it is that of an address in a context.
    fn known_by(&self, index: usize, context: usize, address: u16) -> Option<Known>
        requires { IsOrdered self.now }
        ensures { (known : Known) → result ≡ Some known → known_in self.now.rows.items context address ≡ Some known }
    {
        match self.rows.get(index) {
            Some(row) => {
                if row.context == context && row.address == address {
                    Some(row.known)
                } else {
                    None
                }
            }
            None => None,
        }
    }

    /// What is known in a context before the statement at an address acts, by a binary search in rows that ascend.
    pub(crate) fn find_known(&self, context: usize, address: u16) -> Option<Known>
        requires { IsOrdered self.now }
        ensures { (known : Known) → result ≡ Some known → known_in self.now.rows.items context address ≡ Some known }
    {
        let key = key_of(context, address);
        match self
            .rows
            .binary_search_by_key(&key, |row| key_of(row.context, row.address))
        {
            Ok(index) => self.known_by(index, context, address),
            Err(_) => None,
        }
    }

    /// What is known in a context before the statement at an address acts, if anything is.
    #[tactic(auto, unfolding(crate::specs::Table::known_in))]
    pub fn known_at(&self, context: usize, address: u16) -> Option<Known>
        ensures { result ≡ known_in self.now.rows.items context address }
    {
        self.rows
            .iter()
            .find(|row| row.context == context && row.address == address)
            .map(|row| row.known)
    }

    /// What is known where the routine of a context returns; None if it never does.
    #[tactic(auto, unfolding(crate::specs::Table::return_in))]
    pub fn known_on_return(&self, context: usize) -> Option<Known>
        ensures { result ≡ return_in self.now.contexts.items context }
    {
        match self.contexts.get(context) {
            Some(context) => context.known_on_return,
            None => None,
        }
    }

    /// Where the routine of a context takes its own return from the stack; None if it never does.
    #[tactic(auto, unfolding(crate::specs::Table::drop_in))]
    pub fn known_on_drop(&self, context: usize) -> Option<Dropped>
        ensures { result ≡ drop_in self.now.contexts.items context }
    {
        match self.contexts.get(context) {
            Some(context) => context.known_on_drop,
            None => None,
        }
    }

    /// How many words are at most on the stack where a context begins; 0 where there is no such context.
    #[tactic(auto, unfolding(crate::specs::Table::depth_in))]
    pub fn depth(&self, context: usize) -> u16
        ensures { result ≡ depth_in self.now.contexts.items context }
    {
        match self.contexts.get(context) {
            Some(context) => context.depth,
            None => 0,
        }
    }

    /// The data word that the statement at an address is supposed not to write, if there is one.
    #[tactic(auto, unfolding(crate::specs::Table::spared_in))]
    pub fn spared_at(&self, address: u16) -> Option<u16>
        ensures { result ≡ spared_in self.now.spared.items address }
    {
        self.spared
            .iter()
            .find(|spared| spared.address == address)
            .map(|spared| spared.word)
    }
}
