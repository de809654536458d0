//! An old line in its parts, on the way to what the assembler reads.

ghost use Rattle.std.specs.Prelude.{◌≤◌, length};

use crate::around::{Around, Progress, local_digit, local_name};
use crate::directives::{Work, find_work, renamed};
use crate::draft::Draft;
use crate::fields::{Fields, comment_text, fields_of, operand_count};
use crate::operands::{moved_pieces, note};
use crate::order::left_to_right;
use crate::pieces::{Piece, pieces_of, text_of};
use crate::rule::Rule;
use crate::style::Style;
use c25_isa::mnemonic;
use c25_meaning_common::no_memory::NoMemory;
use c25_meaning_instructions::mnemonic::{Mnemonic, PlainName, Spelling};
use std::alloc::Global;

/// An old line in its parts: what is done with its operands, their pieces, and the line as it is written so far.
#[derive(Drop)]
pub(crate) struct Job {
    pub work: Work,
    pub operands: Vec<Piece>,
    pub draft: Draft,
}

/// Whether an instruction of this family has no operand.
fn has_no_operand(name: PlainName) -> bool {
    !matches!(
        name,
        PlainName::Spm | PlainName::Fort | PlainName::Cmpr | PlainName::Norm
    )
}

/// Whether a word is the mnemonic of an instruction without operands.
fn is_alone(word: &str) -> bool {
    match mnemonic(word) {
        Some(Spelling::Zac | Spelling::Nop) => true,
        Some(Spelling::Row(Mnemonic::Plain(name))) => has_no_operand(name),
        _ => false,
    }
}

/// The word of a line with its new name, if it is a directive that has another name alone.
fn new_word(around: &Around<'_>, word: &str) -> Option<&'static str> {
    if around.is_call { None } else { renamed(word) }
}

/// What is done with the operands of a line with this word.
fn work_of(around: &Around<'_>, word: &str) -> Work {
    if around.is_call {
        return Work::Operands;
    }
    match find_work(word) {
        Some(work) => work,
        None if is_alone(word) => Work::Alone,
        None => Work::Operands,
    }
}

/// Whether a line of this work has no operands: what follows its word is a comment.
fn has_none(work: Work) -> bool {
    matches!(
        work,
        Work::Nothing | Work::Alone | Work::Program | Work::Data
    )
}

/// How many pieces of a line are operands.
fn count_of(style: Style, work: Work, pieces: &[Piece]) -> usize
    ensures { result ≤ length pieces.now }
{
    if style == Style::Early && has_none(work) {
        0
    } else {
        operand_count(style, pieces)
    }
}

/// Whether a comment without a `;` begins like the rest of an expression.
fn goes_on(comment: &str) -> bool {
    matches!(
        comment.as_bytes().first(),
        Some(b'+' | b'-' | b'*' | b'/' | b'&' | b'|' | b'^' | b',')
    )
}

/// The label of a line; a local label has a name of its own.
fn label_of(
    alloc: Global,
    around: &Around<'_>,
    block: usize,
    label: &str,
) -> Result<Option<String>, NoMemory> {
    let (name, colon) = match label.strip_suffix(":") {
        Some(name) => (name, ":"),
        None => (label, ""),
    };
    match local_digit(name) {
        Some(digit) => {
            let mut name = local_name(alloc, around, block, digit)?;
            name.push_str(colon)?;
            Ok(Some(name))
        }
        None => Ok(None),
    }
}

impl Draft {
    /// A line with these fields, before its operands and its comment are read.
    fn of(
        alloc: Global,
        around: &Around<'_>,
        block: usize,
        fields: &Fields<'_>,
    ) -> Result<Draft, NoMemory> {
        let mut done = Vec::new(alloc);
        let word = match new_word(around, fields.word) {
            Some(word) => {
                done.push(Rule::Directive)?;
                word
            }
            None => fields.word,
        };
        let label = match label_of(alloc, around, block, fields.label)? {
            Some(label) => {
                done.push(Rule::LocalLabel)?;
                label
            }
            None => String::from_str(alloc, fields.label)?,
        };
        Ok(Draft {
            label,
            word: String::from_str(alloc, word)?,
            operands: String::new(alloc),
            comment: String::new(alloc),
            done,
            left: Vec::new(alloc),
        })
    }

    /// Takes what follows the operands as the comment.
    fn take_comment(&mut self, work: Work, raw: &str) -> Result<(), NoMemory> {
        let raw = raw.trim();
        let comment = comment_text(raw);
        if !comment.is_empty() && !raw.starts_with(';') {
            note(&mut self.done, Rule::Comment)?;
            if !has_none(work) && goes_on(comment) {
                note(&mut self.left, Rule::Comment)?;
            }
        }
        self.comment.push_str(comment)?;
        Ok(())
    }
}

impl Job {
    /// A line in its parts.
    pub(crate) fn of(
        alloc: Global,
        around: &Around<'_>,
        progress: &Progress,
        line: &str,
    ) -> Result<Job, NoMemory> {
        let fields = fields_of(line);
        let mut draft = Draft::of(alloc, around, progress.blocks, &fields)?;
        let work = work_of(around, draft.word.as_str());
        let mut operands = pieces_of(alloc, fields.rest)?;
        let count = count_of(around.style, work, operands.as_slice());
        let (_, comment) = operands.as_slice().split_at(count);
        let comment = text_of(alloc, comment)?;
        operands.truncate(count);
        draft.take_comment(work, comment.as_str())?;
        Ok(Job {
            work,
            operands,
            draft,
        })
    }

    /// The text of the operands from a piece on up to another, as expressions.
    pub(crate) fn expressions(
        &mut self,
        alloc: Global,
        around: &Around<'_>,
        block: usize,
    ) -> Result<String, NoMemory> {
        let Job {
            operands,
            draft,
            ..
        } = self;
        let moved = moved_pieces(alloc, around, block, operands.as_slice(), &mut draft.done)?;
        if around.style == Style::Early && !around.is_call {
            left_to_right(alloc, moved.as_slice(), &mut draft.done, &mut draft.left)
        } else {
            text_of(alloc, moved.as_slice())
        }
    }
}
