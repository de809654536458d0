//! The writing of a hex text, line by line.

ghost use Rattle.std.specs.Prelude.{◌≡◌, ◌≤◌, ◌++◌, ◌||◌, [], ◌∷◌, length, OnOk, string_bytes};
ghost use Rattle.c25_hex.specs.HexText as spec;
ghost use Rattle.c25_hex.specs.View.{code_of, stretch_of, stretch_text};

use crate::kind::Kind;
use crate::line::sum_of;
use crate::stretch::{Stretch, UPPER_HALF, alone, bytes_of_words, goes_on};
use arrayvec::ArrayVec;
use c25_meaning_common::no_memory::NoMemory;
use std::alloc::Global;
use std::collections::btree_map::Iter;

/// The text, and whether the base of the upper half has been set.
#[derive(Drop)]
pub(crate) struct Writer {
    pub text: String,
    pub has_base: bool,
}

/// The byte that makes a line's sum a multiple of 256.
fn check_sum(bytes: &[u8]) -> u8
    requires { length bytes.now ≤ 20 }
    ensures { bytes.now ++ result ∷ [] ≡ spec.with_sum bytes.now }
{
    ((256 - sum_of(bytes) % 256) % 256) as u8
}

/// The bytes of a line before its sum.
fn line_body(address: u16, kind: Kind, bytes: &[u8]) -> ArrayVec<u8, 21>
    requires { length bytes.now ≤ 16 }
    ensures { result.items ≡ spec.line_body address (code_of kind) bytes.now }
{
    let mut body = ArrayVec::new();
    body.push(bytes.len() as u8);
    body.push((address / 256) as u8);
    body.push((address % 256) as u8);
    body.push(kind.byte());
    body.try_extend_from_slice(bytes).unwrap();
    body
}

impl Writer {
    /// Writes one line.
    #[tactic(auto, unfolding(crate::specs::HexText::hex_line))]
    fn put_line(
        &mut self,
        alloc: Global,
        address: u16,
        kind: Kind,
        bytes: &[u8],
    ) -> Result<(), NoMemory>
        requires { length bytes.now ≤ 16 }
        ensures text { OnOk result (string_bytes self.new.text ≡ string_bytes self.old.text ++ (spec.hex_line address (code_of kind) bytes.now ++ 10 ∷ [])) }
        ensures base { self.new.has_base ≡ self.old.has_base }
    {
        let mut line = line_body(address, kind, bytes);
        let sum = check_sum(line.as_slice());
        line.push(sum);
        let digits = hex::encode_upper(alloc, line.as_slice())?;
        self.text.push_str(":")?;
        self.text.push_str(digits.as_str())?;
        self.text.push_str("\n")?;
        Ok(())
    }

    /// Writes the words of one line, and the line of the base before the first of the upper half.
    fn put_stretch(&mut self, alloc: Global, stretch: &Stretch) -> Result<(), NoMemory>
        ensures text { OnOk result (string_bytes self.new.text ≡ string_bytes self.old.text ++ stretch_text self.old.has_base (stretch_of stretch.now)) }
        ensures base { OnOk result (self.new.has_base ≡ (self.old.has_base || spec.needs_base self.old.has_base (stretch_of stretch.now))) }
    {
        if !self.has_base && stretch.address >= UPPER_HALF {
            self.put_line(alloc, 0, Kind::LinearBase, &[0, 1])?;
            self.has_base = true;
        }
        let bytes = bytes_of_words(stretch.words.as_slice());
        self.put_line(
            alloc,
            (2 * u32::from(stretch.address) % 65_536) as u16,
            Kind::Data,
            bytes.as_slice(),
        )
    }

    /// Writes ascending words, of whose first line `first` has the words so far.
    pub(crate) fn put_words(
        &mut self,
        alloc: Global,
        first: Stretch,
        rest: Iter<'_, u16, u16>,
    ) -> Result<(), NoMemory>
        ensures { OnOk result (string_bytes self.new.text ++ spec.text_of (spec.end_line ∷ [])
            ≡ string_bytes self.old.text ++ spec.text_of (spec.lines_on self.old.has_base (spec.stretches_on (stretch_of first) rest.entry))) }
    {
        let mut stretch = first;
        for (address, word) in rest {
            if goes_on(&stretch, *address) {
                stretch.words.push(*word);
            } else {
                self.put_stretch(alloc, &stretch)?;
                stretch = alone(*address, *word);
            }
        }
        self.put_stretch(alloc, &stretch)?;
        Ok(())
    }

    /// Writes the end line.
    pub(crate) fn put_end(&mut self, alloc: Global) -> Result<(), NoMemory>
        ensures { OnOk result (string_bytes self.new.text ≡ string_bytes self.old.text ++ spec.text_of (spec.end_line ∷ [])) }
    {
        self.put_line(alloc, 0, Kind::End, &[])
    }
}
