//! The texts of sources, by their names.

ghost use Rattle.std.specs.Prelude.{◌≡◌, ◌↔◌, [], ◌∷◌, ◌++◌, IsSome, IfSome, IsErrOf, OnOk, OnErr, is_some, false, length, take, string_bytes};
ghost use Rattle.std.specs.Option.{option_map};
ghost use Rattle.std.specs.Io.KnownBytes.{IsAtEnd};
ghost use Rattle.c25_meaning_expansion.specs.Files.{text_named, file_name};
ghost use Rattle.c25_meaning_expansion.specs.Rows.{file_number};
ghost use Rattle.c25_files.specs.Added.{AddsAll};
ghost use Rattle.c25_files.specs.declared.files.AddFault.TheVariants as fault;

use crate::text::Text;
use crate::{CannotRead, read_text};
use c25_meaning_common::failure::Failure;
use c25_meaning_common::no_memory::NoMemory;
use indexmap::IndexMap;
use std::alloc::Global;
use std::io::Read;
use std::marker::Model;
use thiserror::Error;

/// The fault of a name under which there is a text already (37).
#[derive(Clone, Copy, PartialEq, Debug, Error)]
#[error("{}", self.name())]
pub struct FileTwice;

impl FileTwice {
    ghost use Rattle.std.specs.Prelude.{◌≡◌, codes};

    /// The name of the fault shown to the user.
    pub fn name(&self) -> &'static str
        ensures { result.now ≡ codes "FileTwice" }
    {
        "FileTwice"
    }
}

/// Why the text of a reader is not added.
#[derive(Clone, Copy, PartialEq, Debug, Error)]
#[error("{}", self.name())]
pub enum AddFault {
    /// There is a text under this name already (37).
    FileTwice,
    /// What the reader has left cannot be read, is too long or is not UTF-8 (8).
    CannotRead,
}

impl AddFault {
    ghost use Rattle.std.specs.Prelude.{◌≡◌};
    ghost use Rattle.c25_files.specs.FaultNames.{fault_name};

    /// The name of the fault shown to the user.
    pub fn name(&self) -> &'static str
        ensures { result.now ≡ fault_name self.now }
    {
        match self {
            AddFault::FileTwice => "FileTwice",
            AddFault::CannotRead => "CannotRead",
        }
    }
}

/// Texts by their names, in the order in which they were added. Names are compared byte by byte.
#[derive(Drop)]
pub struct Files {
    alloc: Global,
    texts: IndexMap<String, Text>,
}

/// `Files` stands for the list of its names and texts.
impl Model for Files {
    ghost use Rattle.std.specs.Prelude.{ℕ, List};
    ghost use Rattle.c25_files.specs.Entries.{named_texts};

    ghost Value = { List (List ℕ × List ℕ) };

    ghost view = { λ files. named_texts files.texts.entries };
}

impl Files {
    /// No files; no memory is taken.
    pub fn new(alloc: Global) -> Files
        ensures { result ≡ [] }
    {
        Files {
            alloc,
            texts: IndexMap::new(alloc),
        }
    }

    /// How many files there are.
    pub fn len(&self) -> usize
        ensures { result ≡ length self.now }
    {
        self.texts.len()
    }

    /// Keeps only the first `count` files.
    pub fn truncate(&mut self, count: usize)
        ensures { self.new ≡ take count self.old }
    {
        self.texts.truncate(count);
    }

    /// The text of the file with this name, if there is one.
    pub fn text(&self, name: &str) -> Option<&str>
        ensures { option_map (λ text. text.now) result ≡ text_named self.now name.now }
    {
        match self.texts.get(name) {
            Some(text) => Some(text.as_str()),
            None => None,
        }
    }

    /// The number and the text of the file with this name, if there is one.
    pub fn find(&self, name: &str) -> Option<(usize, &Text)>
        ensures text { option_map (λ f. f.1.now) result ≡ text_named self.now name.now }
        ensures number { IfSome result (λ f. f.0 ≡ file_number self.now name.now) }
    {
        match self.texts.get_full(name) {
            Some((number, _, text)) => Some((number, text)),
            None => None,
        }
    }

    /// The name of the file with this number, or an empty text where there is none.
    pub fn name(&self, number: usize) -> &str
        ensures { result.now ≡ file_name self.now number }
    {
        match self.texts.get_index(number) {
            Some((name, _)) => name.as_str(),
            None => "",
        }
    }

    /// Puts a text after the others, under a name that none of them has.
    fn put(&mut self, name: &str, text: String) -> Result<(), NoMemory>
        requires { is_some (text_named self.old name.now) ≡ false }
        ensures ok { OnOk result (self.new ≡ self.old ++ (name.now, string_bytes text) ∷ []) }
        ensures err { OnErr result (self.new ≡ self.old) }
    {
        let name = String::from_str(self.alloc, name)?;
        self.texts.insert(name, Text::new(text))?;
        Ok(())
    }

    /// Adds a text under a new name. `FileTwice` (37) where there is a text under this name, `NoMemory` (9)
    /// where memory runs out; the files are then as before.
    pub fn add(&mut self, name: &str, text: &str) -> Result<(), Failure<FileTwice>>
        ensures twice { IsErrOf result (Failure.Fault (record {})) ↔ IsSome (text_named self.old name.now) }
        ensures ok { OnOk result (self.new ≡ self.old ++ (name.now, text.now) ∷ []) }
        ensures err { OnErr result (self.new ≡ self.old) }
    {
        if self.text(name).is_some() {
            return Err(Failure::Fault(FileTwice));
        }
        let text = String::from_str(self.alloc, text)?;
        self.put(name, text)?;
        Ok(())
    }

    /// Adds all that a reader has left, under a new name: the text that `add` would add, however the reads
    /// cut it. `FileTwice` (37) where there is a text under this name: nothing is read then. `CannotRead` (8)
    /// where a read fails, where 33,554,432 reads bring no end, where there are more than 16,777,216 bytes,
    /// and where they are not UTF-8; `NoMemory` (9) where memory runs out. After any of these the files are
    /// as before.
    pub fn add_from<R: Read>(&mut self, name: &str, reader: &mut R) -> Result<(), Failure<AddFault>>
        ensures twice { IsErrOf result (Failure.Fault fault.FileTwice) ↔ IsSome (text_named self.old name.now) }
        ensures unread { IsErrOf result (Failure.Fault fault.FileTwice) → reader.new ≡ reader.old }
        ensures ok { OnOk result (AddsAll (R.remaining reader.old) name.now self.old self.new) }
        ensures end { OnOk result (IsAtEnd (R.remaining reader.new)) }
        ensures err { OnErr result (self.new ≡ self.old) }
    {
        if self.text(name).is_some() {
            return Err(Failure::Fault(AddFault::FileTwice));
        }
        match read_text(self.alloc, reader) {
            Ok(text) => Ok(self.put(name, text)?),
            Err(Failure::NoMemory(error)) => Err(Failure::NoMemory(error)),
            Err(Failure::Fault(CannotRead)) => Err(Failure::Fault(AddFault::CannotRead)),
        }
    }
}
