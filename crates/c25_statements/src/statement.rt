//! Statements: what a line says. Names borrow the line.

use c25_expr::tree::Expr;
use c25_meaning_assembly::assembly::Target;
use c25_meaning_language::statement::{FaultKind, Form};

/// The expressions of a line's operands. Most lines have one, which is kept without a `Vec`.
#[derive(Drop)]
pub enum Exprs {
    One(Expr),
    Several(Vec<Expr>),
}

/// An instruction as it is written: a form, and an expression for each operand that is one.
#[derive(Drop)]
pub struct Operation {
    pub form: Form,
    pub trees: Exprs,
}

/// How much room a line reserves.
#[derive(Drop)]
pub struct Room {
    /// The number of words.
    pub count: Expr,
    /// The flag, where one is given: whether the words have to lie in one page of 128 words.
    pub flag: Option<Expr>,
}

/// What a line does.
#[derive(Drop)]
pub enum AssemblyAct<'a> {
    /// Nothing: the line has no first word, or a directive without effect.
    Nothing,
    /// The lines after this one go on in an initialised section.
    Enter(String),
    /// Words are reserved in an uninitialised section, and the name stands for the first of them. A fault of
    /// the operands' expressions (20, 21) is kept here, since that of a section of the other kind (52) is
    /// reported before it.
    Reserve {
        section: String,
        name: &'a str,
        room: Result<Room, FaultKind>,
    },
    /// The name stands for the value.
    Equate {
        name: &'a str,
        value: Expr,
    },
    /// The operands make an instruction or words.
    Put(Target, Exprs),
    /// Words are loaded.
    Load(Vec<u16>),
    /// As many bits of zeros as the expression says are loaded, rounded up to words.
    Space(Expr),
    /// Names that are defined in another module, or that other modules see if they are defined here.
    Declare(Vec<&'a str>),
    /// Names that other modules see, and that have to be defined here.
    Export(Vec<&'a str>),
    /// The name stands for the address where the words of the next line are loaded.
    Label(&'a str),
    /// The names of the memory-mapped registers stand for their addresses.
    Registers,
}

/// What a line says: a label for the place where the line begins, and what the line does.
#[derive(Drop)]
pub struct Statement<'a> {
    pub label: Option<&'a str>,
    pub act: AssemblyAct<'a>,
}
