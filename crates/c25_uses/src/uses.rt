//! The symbols that lines define, and those that they use.

ghost use Rattle.std.specs.Prelude.{◌≡◌, ◌==◌, ◌++◌, IfOk, OnOk, not, option_map};
ghost use Rattle.std.specs.List.{flat_map, prefix_len, slice_split};
ghost use Rattle.std.specs.Str.Lines.{lines};
ghost use Rattle.c25_expr.specs.Pieces.{pieces_of};
ghost use Rattle.c25_meaning_common.specs.Bytes.{goes_on_name};
ghost use Rattle.c25_statements.specs.View.{act_of};
ghost use Rattle.c25_text.specs.View.{piece_of};
ghost use Rattle.c25_uses.specs.UsedNames.{bytes_of};
ghost use Rattle.c25_uses.specs.Uses as meaning;
ghost use Rattle.c25_line_warnings.specs.View.{lines_of};
ghost use Rattle.c25_uses.specs.View.{defined_of};

use crate::used_names::UsedNames;
use c25_files::files::Files;
use c25_line_warnings::said::{is_name, label_of, tokens_in};
use c25_line_warnings::source_line::SourceLine;
use c25_meaning_common::bytes::{begins_name, is_digit};
use c25_meaning_common::failure::Failure;
use c25_meaning_common::no_memory::NoMemory;
use c25_statements::read_statement;
use c25_statements::statement::{AssemblyAct, Statement};
use c25_text::tokens::Token;
use std::alloc::{AllocError, Global};

/// The symbols that a line defines.
#[derive(Clone, Copy)]
pub struct Defined<'a> {
    /// The label for the place where the line begins.
    pub label: Option<&'a str>,
    /// The name of a `.set` or `.equ`.
    pub value: Option<&'a str>,
    /// The name of a `.bss`, `.usect` or `.label`.
    pub place: Option<&'a str>,
}

/// The name of a `.set` or `.equ`.
fn value_name<'a>(act: &AssemblyAct<'a>) -> Option<&'a str>
    ensures { option_map (λ t. t.now) result ≡ meaning.value_name (act_of act.now) }
{
    match act {
        AssemblyAct::Equate { name, .. } => Some(*name),
        _ => None,
    }
}

/// The name of a `.bss`, `.usect` or `.label`.
fn place_name<'a>(act: &AssemblyAct<'a>) -> Option<&'a str>
    ensures { option_map (λ t. t.now) result ≡ meaning.place_name (act_of act.now) }
{
    match act {
        AssemblyAct::Reserve { name, .. } => Some(*name),
        AssemblyAct::Label(name) => Some(*name),
        _ => None,
    }
}

/// The symbols that a line defines, or `None` where it is no statement.
#[tactic(auto, unfolding(crate::specs::Uses::defined_in))]
pub fn defined_in(alloc: Global, text: &str) -> Result<Option<Defined<'_>>, NoMemory>
    ensures { IfOk result (λ d. option_map defined_of d ≡ meaning.defined_in text.now) }
{
    match read_statement(alloc, text) {
        Ok(Statement { label, act }) => {
            let value = value_name(&act);
            let place = place_name(&act);
            Ok(Some(Defined {
                label,
                value,
                place,
            }))
        }
        Err(Failure::Fault(_)) => Ok(None),
        Err(Failure::NoMemory(error)) => Err(error),
    }
}

/// Whether a byte goes on with a name.
fn goes_on_name(b: u8) -> bool
    ensures { result ≡ goes_on_name b }
{
    begins_name(b) || is_digit(b) || b == b'$'
}

/// A line without its label.
fn behind_label(text: &str) -> &[u8]
    ensures { result.now ≡ meaning.behind_label text.now }
{
    let start = match label_of(text) {
        Some(label) => label.len(),
        None => 0,
    };
    match text.as_bytes().get(start..) {
        Some(rest) => rest,
        None => &[],
    }
}

/// How many characters of a text come before its first `;`.
fn comment_start(text: &[u8]) -> usize
    ensures { result ≡ prefix_len (λ b. not (b == 59)) text.now }
{
    text.iter().take_while(|b| **b != b';').count()
}

/// A text up to its first `;`.
fn before_comment(text: &[u8]) -> &[u8]
    ensures { result.now ≡ meaning.before_comment text.now }
{
    match text.get(..comment_start(text)) {
        Some(front) => front,
        None => text,
    }
}

/// Whether a token is a name that a statement uses: it is not the one that the statement's directive defines.
#[tactic(auto, unfolding(crate::specs::Uses::is_use))]
fn is_use(token: &Token<'_>, own: Option<&str>) -> bool
    ensures { result ≡ meaning.is_use (option_map (λ t. t.now) own.entry) (piece_of token.now) }
{
    if !is_name(token) {
        return false;
    }
    match own {
        Some(own) => own != token.text,
        None => true,
    }
}

/// Appends the name that a token is, if a statement uses it whose directive defines this name.
fn push_name<'a>(
    names: &mut Vec<&'a [u8]>,
    token: &Token<'a>,
    own: Option<&str>,
) -> Result<(), NoMemory>
    ensures { OnOk result (bytes_of names.new.items ≡ bytes_of names.old.items ++ meaning.name_used (option_map (λ t. t.now) own.entry) (piece_of token.now)) }
{
    if is_use(token, own) {
        names.push(token.text.as_bytes())?;
    }
    Ok(())
}

/// Appends the names among tokens that a statement uses whose directive defines this name.
fn push_used<'a>(
    names: &mut Vec<&'a [u8]>,
    tokens: &[Token<'a>],
    own: Option<&str>,
) -> Result<(), NoMemory>
    ensures { OnOk result (bytes_of names.new.items ≡ bytes_of names.old.items ++ flat_map (meaning.name_used (option_map (λ t. t.now) own.entry)) (pieces_of tokens.now)) }
{
    for token in tokens {
        push_name(names, token, own)?;
    }
    Ok(())
}

/// Appends the names among the operands of a statement, without the one that its directive defines.
#[tactic(auto, unfolding(crate::specs::Uses::operand_names))]
fn push_operands<'a>(
    alloc: Global,
    names: &mut Vec<&'a [u8]>,
    text: &'a str,
    own: Option<&str>,
) -> Result<(), NoMemory>
    ensures { OnOk result (bytes_of names.new.items ≡ bytes_of names.old.items ++ meaning.operand_names text.now (option_map (λ t. t.now) own.entry)) }
{
    let tokens = tokens_in(alloc, text)?;
    push_used(names, tokens.as_slice(), own)
}

/// The runs of characters of a text that may be names.
fn split_words(alloc: Global, text: &[u8]) -> Result<Vec<&[u8]>, AllocError>
    ensures { IfOk result (λ v. bytes_of v.items ≡ slice_split (λ b. not (goes_on_name b)) text.now) }
{
    text.split(|b| !goes_on_name(*b)).collect(alloc)
}

/// Appends names.
fn push_all<'a>(names: &mut Vec<&'a [u8]>, more: &[&'a [u8]]) -> Result<(), NoMemory>
    ensures { OnOk result (bytes_of names.new.items ≡ bytes_of names.old.items ++ bytes_of more.now) }
{
    for name in more {
        names.push(*name)?;
    }
    Ok(())
}

/// Appends all that may be a name in a line that is no statement: a directive of expansion, a call of a macro,
/// or a line in which texts are replaced.
#[tactic(auto, unfolding(crate::specs::Uses::words_in))]
fn push_words<'a>(alloc: Global, names: &mut Vec<&'a [u8]>, text: &'a str) -> Result<(), NoMemory>
    ensures { OnOk result (bytes_of names.new.items ≡ bytes_of names.old.items ++ meaning.words_in text.now) }
{
    let words = split_words(alloc, before_comment(behind_label(text)))?;
    push_all(names, words.as_slice())
}

/// Appends the names that a line uses.
#[tactic(auto, unfolding(crate::specs::Uses::uses_in))]
fn push_line<'a>(alloc: Global, names: &mut Vec<&'a [u8]>, text: &'a str) -> Result<(), NoMemory>
    ensures { OnOk result (bytes_of names.new.items ≡ bytes_of names.old.items ++ meaning.uses_in text.now) }
{
    match defined_in(alloc, text)? {
        Some(defined) => push_operands(alloc, names, text, defined.place),
        None => push_words(alloc, names, text),
    }
}

/// The lines of a text.
fn lines_in(alloc: Global, text: &str) -> Result<Vec<&str>, AllocError>
    ensures { IfOk result (λ v. bytes_of v.items ≡ lines text.now) }
{
    text.lines().collect(alloc)
}

/// Appends the names that lines use, before expansion.
fn push_texts<'a>(
    alloc: Global,
    names: &mut Vec<&'a [u8]>,
    lines: &[&'a str],
) -> Result<(), NoMemory>
    ensures { OnOk result (bytes_of names.new.items ≡ bytes_of names.old.items ++ flat_map meaning.uses_in (bytes_of lines.now)) }
{
    for line in lines {
        push_line(alloc, names, line)?;
    }
    Ok(())
}

/// Appends the names that a file uses, before expansion.
#[tactic(auto, unfolding(crate::specs::Uses::uses_in_file))]
fn push_file<'a>(
    alloc: Global,
    names: &mut Vec<&'a [u8]>,
    text: Option<&'a str>,
) -> Result<(), NoMemory>
    ensures { OnOk result (bytes_of names.new.items ≡ bytes_of names.old.items ++ meaning.uses_in_file (option_map (λ t. t.now) text.entry)) }
{
    match text {
        Some(text) => {
            let lines = lines_in(alloc, text)?;
            push_texts(alloc, names, lines.as_slice())
        }
        None => Ok(()),
    }
}

/// Appends the names that all files use, before expansion.
fn push_files<'a>(
    alloc: Global,
    names: &mut Vec<&'a [u8]>,
    files: &'a Files,
) -> Result<(), NoMemory>
    ensures { OnOk result (bytes_of names.new.items ≡ bytes_of names.old.items ++ meaning.uses_in_files files.now) }
{
    for number in 0..files.len() {
        push_file(alloc, names, files.text(files.name(number)))?;
    }
    Ok(())
}

/// Appends the names that lines use, after expansion.
fn push_lines<'a>(
    alloc: Global,
    names: &mut Vec<&'a [u8]>,
    lines: &'a [SourceLine<'_>],
) -> Result<(), NoMemory>
    ensures { OnOk result (bytes_of names.new.items ≡ bytes_of names.old.items ++ meaning.uses_in_lines (lines_of lines.now)) }
{
    for line in lines {
        push_line(alloc, names, line.text.as_str())?;
    }
    Ok(())
}

/// The names that lines use: those of all files before expansion, since expansion consumes some of them, and
/// those after it.
#[tactic(auto, unfolding(crate::specs::Uses::used_names))]
pub fn used_names<'b>(
    alloc: Global,
    files: &'b Files,
    lines: &'b [SourceLine<'_>],
) -> Result<UsedNames<'b>, NoMemory>
    ensures { IfOk result (λ used. used ≡ meaning.used_names files.now (lines_of lines.now)) }
{
    let mut names = Vec::new(alloc);
    push_files(alloc, &mut names, files)?;
    push_lines(alloc, &mut names, lines)?;
    UsedNames::new(alloc, names)
}
