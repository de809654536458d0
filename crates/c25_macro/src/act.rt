//! What a line asks expansion to do.

use c25_expr::tree::Expr;
use c25_files::Rows;
use c25_substitution::parameters::Arguments;

/// What a line asks for: one case for each directive of expansion, and one for a call of a macro.
#[derive(Drop)]
pub(crate) enum ExpansionAct<'a> {
    If(Expr),
    ElseIf(Expr),
    Else,
    EndIf,
    /// The lines of a macro follow.
    Define {
        name: String,
        parameters: Vec<String>,
    },
    /// `.endm` or `.endloop` where no macro and no loop is collected.
    Stray,
    /// The innermost expansion is left.
    Exit,
    /// The lines of a loop follow. Without a count it has 1,024 turns.
    Loop(Option<Expr>),
    /// The innermost loop is left, if there is no condition or if the condition holds.
    Break(Option<Expr>),
    Assign {
        text: String,
        name: String,
    },
    Evaluate {
        expression: Expr,
        name: String,
    },
    /// The lines of the file with this name come next.
    Copy(String),
    End,
    /// The lines of a macro come next, with these arguments.
    Call {
        body: Rows<'a>,
        arguments: Arguments,
    },
}

/// What a line asks for, and its label, which becomes a line of its own before that.
#[derive(Drop)]
pub(crate) struct Order<'a> {
    pub(crate) label: Option<String>,
    pub(crate) act: ExpansionAct<'a>,
}
