//! What the rules know of the source around a line.

ghost use Rattle.std.specs.Prelude.{◌≡◌, ◌<◌, ◌++◌, [], None, IfOk, OnOk, MatchBool, false, encode_utf8, string_bytes};
ghost use Rattle.std.specs.Fmt.{decimal};
ghost use Rattle.std.specs.Str.Iter.{HasSubslice};
ghost use Rattle.c25_move_lines.specs.LocalLabels.{HasLocalNames, IsFree, IsNewName, beginning};
ghost use Rattle.c25_move_lines.specs.Progress.{another_block};

use crate::style::Style;
use c25_meaning_common::no_memory::NoMemory;
use std::alloc::Global;

/// Which of the two words of a constant of 32 bits is the first.
#[derive(Clone, Copy, PartialEq, Debug)]
pub enum LongOrder {
    Low,
    High,
}

/// What the rules know of the source around a line.
#[derive(Clone, Copy)]
pub struct Around<'a> {
    /// How the source is written.
    pub style: Style,
    /// The first word of a constant of 32 bits; where that is not known, it is taken to be the low one.
    pub long_order: Option<LongOrder>,
    /// The text in which a name that the rules make for a local label does not stand: that of the source, or an empty
    /// one where no such name stands in it (`has_local_names`).
    pub source: &'a str,
    /// Whether the line is in the body of a macro.
    pub in_body: bool,
    /// Whether the word of the line is the name of a macro.
    pub is_call: bool,
}

/// The address of a section, as the old source gives it.
#[derive(Drop)]
pub struct Address {
    pub section: String,
    pub address: String,
}

/// What the lines so far leave to those that follow.
#[derive(Drop)]
pub struct Progress {
    /// How many blocks of local labels began: at `.newblock`, and where a section is entered.
    pub blocks: usize,
    /// The addresses of sections, for a command file.
    pub addresses: Vec<Address>,
    /// The address of the next word of the dummy section, where one is open.
    pub dummy: Option<String>,
}

impl Progress {
    /// Before the first line of the first source.
    pub fn new(alloc: Global) -> Progress
        ensures blocks { result.blocks ≡ 0 }
        ensures addresses { result.addresses.items ≡ [] }
        ensures dummy { result.dummy ≡ None }
    {
        Progress {
            blocks: 0,
            addresses: Vec::new(alloc),
            dummy: None,
        }
    }

    /// Another block of local labels begins.
    pub(crate) fn begin_block(&mut self)
        ensures blocks { self.new.blocks ≡ another_block self.old.blocks }
        ensures addresses { self.new.addresses ≡ self.old.addresses }
        ensures dummy { self.new.dummy ≡ self.old.dummy }
    {
        self.blocks = self.blocks.saturating_add(1);
    }

    /// Before the first line of a further source: its local labels and its dummy sections are its own.
    pub fn begin_source(&mut self)
        ensures blocks { self.new.blocks ≡ another_block self.old.blocks }
        ensures addresses { self.new.addresses ≡ self.old.addresses }
        ensures dummy { self.new.dummy ≡ None }
    {
        self.begin_block();
        self.dummy = None;
    }
}

/// Whether a text stands in another one.
#[tactic(auto, using(crate::proofs::Names::stands))]
fn stands_in(part: &str, text: &str) -> bool
    ensures { MatchBool result (HasSubslice text.now part.now) (¬ (HasSubslice text.now part.now)) }
{
    text.contains(part)
}

/// How the name of a local label of this digit begins, outside of macros.
fn beginning(alloc: Global, digit: u8) -> Result<String, NoMemory>
    ensures { IfOk result (λ name. string_bytes name ≡ beginning digit) }
{
    Ok(format!(in alloc; "{}{digit}N", "Z")?)
}

/// Whether a name stands in a text that begins as that of a local label of this digit.
#[tactic(auto, using(crate::proofs::Names::stands_same))]
fn has_names_of(alloc: Global, digit: u8, text: &str) -> Result<bool, NoMemory>
    ensures { IfOk result (λ b. MatchBool b (HasSubslice text.now (beginning digit)) (¬ (HasSubslice text.now (beginning digit)))) }
{
    let part = beginning(alloc, digit)?;
    Ok(stands_in(part.as_str(), text))
}

/// Whether names that begin as those that the rules make for local labels stand in a text: `Z0N` to `Z9N`. `NoMemory` (9) where
/// memory runs out.
#[tactic(auto, using(crate::proofs::Names::no_name_before, crate::proofs::Names::one_name_less, crate::proofs::Names::has_a_name, crate::proofs::Names::has_no_name))]
pub fn has_local_names(alloc: Global, text: &str) -> Result<bool, NoMemory>
    ensures { IfOk result (λ b. MatchBool b (HasLocalNames text.now) (¬ (HasLocalNames text.now))) }
{
    for digit in 0..10 {
        if has_names_of(alloc, digit, text)? {
            return Ok(true);
        }
    }
    Ok(false)
}

/// The name of the local label of a digit in a block, before it is compared with the source.
fn first_name(alloc: Global, block: usize, digit: u8) -> Result<String, NoMemory>
    ensures { IfOk result (λ name. string_bytes name ≡ beginning digit ++ decimal block) }
{
    Ok(format!(in alloc; "{}{digit}N{block}", "Z")?)
}

/// Adds a `_` to a name.
fn push_underscore(name: &mut String) -> Result<(), NoMemory>
    ensures { OnOk result (string_bytes name.new ≡ string_bytes name.old ++ encode_utf8 95) }
{
    name.push('_').map_err(NoMemory::from)
}

/// A name with as few `_` after it as are needed for one that does not stand in the source.
#[tactic(auto, using(crate::proofs::Names::begins_long, crate::proofs::Names::grows_long, crate::proofs::Names::is_long, crate::proofs::Names::less_left))]
fn free_name(alloc: Global, source: &str, name: &str) -> Result<String, NoMemory>
    ensures { IfOk result (λ free. IsFree source.now name.now (string_bytes free)) }
{
    let mut free = String::from_str(alloc, name)?;
    while stands_in(free.as_str(), source) {
        push_underscore(&mut free)?;
    }
    Ok(free)
}

/// The name of the local label of a digit, in the block of this number.
pub(crate) fn local_name(
    alloc: Global,
    around: &Around<'_>,
    block: usize,
    digit: u8,
) -> Result<String, NoMemory>
    ensures { IfOk result (λ name. around.now.in_body ≡ false → IsNewName (record { source = around.now.source.now; blocks = block }) digit (string_bytes name)) }
{
    if around.in_body {
        Ok(format!(in alloc; "{}{digit}?", "Z")?)
    } else {
        let name = first_name(alloc, block, digit)?;
        free_name(alloc, around.source, name.as_str())
    }
}

/// The digit of a local label `$0` to `$9`, if a word is one.
pub(crate) fn local_digit(word: &str) -> Option<u8> {
    match word.as_bytes() {
        [b'$', digit] if digit.is_ascii_digit() => Some(*digit - b'0'),
        _ => None,
    }
}
