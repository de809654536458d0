//! The statements of a program on page 0.

ghost use Rattle.std.specs.Prelude.{◌≡◌, ◌==◌, find, true, IsTrue};
ghost use Rattle.std.specs.Option.{option_map};
ghost use Rattle.c25_meaning_processor.specs.Statements.{copied_at, statement_at};
ghost use Rattle.c25_pages.specs.Program.{IsAscending, statements_ascend_from, statements_of};

use c25_meaning_instructions::insn::Insn;

/// An instruction statement that runs where it stands.
#[derive(Clone, Copy)]
pub struct PlainStatement {
    /// The address of its first word.
    pub address: u16,
    /// The mnemonic with the numbers of its operands.
    pub insn: Insn,
}

/// An instruction statement that runs in block B0, to which the program moves it.
#[derive(Clone, Copy)]
pub struct CopiedStatement {
    /// The address at which its first word is loaded.
    pub load: u16,
    /// The address at which it runs, FF00h or above.
    pub run: u16,
    /// The mnemonic with the numbers of its operands.
    pub insn: Insn,
}

/// The instruction statements of a program on page 0.
#[derive(Drop)]
pub struct Program {
    /// Those that run where they stand.
    pub plain: Vec<PlainStatement>,
    /// Those that run in block B0.
    pub copied: Vec<CopiedStatement>,
}

/// The instruction of the first of these statements that stands at an address, if one does.
fn insn_at(statements: &[PlainStatement], address: u16) -> Option<Insn>
    ensures { result ≡ option_map (λ s. s.insn) (find (λ s. s.address == address) statements.now) }
{
    statements
        .iter()
        .find(|statement| statement.address == address)
        .map(|statement| statement.insn)
}

/// The instruction of the first of these statements that runs at an address, if one does.
fn insn_run_at(statements: &[CopiedStatement], address: u16) -> Option<Insn>
    ensures { result ≡ option_map (λ s. s.insn) (find (λ s. s.run == address) statements.now) }
{
    statements
        .iter()
        .find(|statement| statement.run == address)
        .map(|statement| statement.insn)
}

/// Whether statements ascend by their addresses.
fn statements_ascend(statements: &[PlainStatement]) -> bool
    ensures { result ≡ statements_ascend_from 0 statements.now }
{
    let mut low: u32 = 0;
    for statement in statements {
        let address = u32::from(statement.address);
        if address < low {
            return false;
        }
        low = address + 1;
    }
    true
}

/// The instruction of the statement that stands at an address, if one does, by a binary search in statements that ascend.
fn insn_found(statements: &[PlainStatement], address: u16) -> Option<Insn>
    ensures { statements_ascend_from 0 statements.now ≡ true
        → result ≡ option_map (λ s. s.insn) (find (λ s. s.address == address) statements.now) }
{
    match statements.binary_search_by_key(&address, |statement| statement.address) {
        Ok(index) => Some(statements[index].insn),
        Err(_) => None,
    }
}

impl Program {
    /// Whether the statements that run where they stand ascend by their addresses.
    pub fn is_ascending(&self) -> bool
        ensures { IsTrue result → IsAscending self.now }
    {
        statements_ascend(&self.plain)
    }

    /// The instruction of the statement that stands at an address, if one does, where the statements ascend. It is quick.
    pub fn find_statement(&self, address: u16) -> Option<Insn>
        ensures { IsAscending self.now → result ≡ statement_at (statements_of self.now).plain address }
    {
        insn_found(&self.plain, address)
    }

    /// The instruction of the statement that stands at an address, if one does; of two there, the first.
    pub fn statement_at(&self, address: u16) -> Option<Insn>
        ensures { result ≡ statement_at (statements_of self.now).plain address }
    {
        insn_at(&self.plain, address)
    }

    /// The instruction of the statement that runs at an address of block B0, if one does; of two there, the first.
    pub fn copied_at(&self, address: u16) -> Option<Insn>
        ensures { result ≡ option_map (λ c. c.insn) (copied_at (statements_of self.now).copied address) }
    {
        insn_run_at(&self.copied, address)
    }
}
