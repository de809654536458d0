//! The words of a module that have a relocation, as flags.

ghost use Rattle.std.specs.Prelude.{◌≡◌, length, replicate, false, slice_get, IfOk, fold};
ghost use Rattle.c25_meaning_objects.specs.Module.{body_words};
ghost use Rattle.c25_module.specs.View.{body_data, contents, sections_data};
ghost use Rattle.c25_listing.specs.Flags.{flag_at, flag_by, flags_of, no_flags, raised, with_flag};

use c25_meaning_common::no_memory::NoMemory;
use c25_meaning_objects::object::Relocation;
use c25_module::{Body, Parts, Section};
use std::alloc::Global;
use std::marker::Model;

/// For each word of a section, whether it has a relocation.
#[derive(Drop)]
pub(crate) struct WordFlags {
    flags: Vec<bool>,
}

impl Model for WordFlags {
    ghost use Rattle.std.specs.Prelude.{Bool, List};

    ghost Value = { List Bool };

    ghost view = { λ w. w.flags.items };
}

/// For each word of each section, whether it has a relocation.
#[derive(Drop)]
pub(crate) struct Flags {
    sections: Vec<WordFlags>,
}

fn word_count(body: &Body) -> usize
    ensures { result ≡ length (body_words (body_data body.now)) }
{
    match body {
        Body::Initialised(words) => words.len(),
        Body::Uninitialised(_) => 0,
    }
}

impl WordFlags {
    /// Flags for so many words, none set.
    fn new(alloc: Global, count: usize) -> Result<WordFlags, NoMemory>
        ensures { IfOk result (λ w. w ≡ replicate count false) }
    {
        let flags = vec![in alloc; false; count]?;
        Ok(WordFlags { flags })
    }

    /// Sets the flag of the word at an offset.
    fn raise(&mut self, offset: usize)
        ensures { self.new ≡ raised self.old offset }
    {
        if let Some(flag) = self.flags.get_mut(offset) {
            *flag = true;
        }
    }

    fn at(&self, offset: usize) -> bool
        ensures { result ≡ flag_by (slice_get self.now offset) }
    {
        match self.flags.get(offset) {
            Some(flag) => *flag,
            None => false,
        }
    }
}

/// Flags for the words of sections, none set.
fn no_flags(alloc: Global, sections: &[Section]) -> Result<Flags, NoMemory>
    ensures { IfOk result (λ f. flags_of f ≡ no_flags (sections_data sections.now)) }
{
    let mut flags = Vec::new(alloc);
    for section in sections {
        flags.push(WordFlags::new(alloc, word_count(&section.body))?)?;
    }
    Ok(Flags { sections: flags })
}

impl Flags {
    /// Sets the flag of the word that a relocation is in.
    fn set(&mut self, relocation: &Relocation)
        ensures { flags_of self.new ≡ with_flag (flags_of self.old) relocation.now }
    {
        if let Some(flags) = self.sections.get_mut(relocation.section as usize) {
            flags.raise(relocation.offset as usize);
        }
    }

    /// Sets the flags of the words that relocations are in.
    fn set_all(&mut self, relocations: &[Relocation])
        ensures { flags_of self.new ≡ fold with_flag (flags_of self.old) relocations.now }
    {
        for relocation in relocations {
            self.set(relocation);
        }
    }

    /// Whether the word at an offset of a section has a relocation.
    pub(crate) fn at(&self, section: u16, offset: usize) -> bool
        ensures { result ≡ flag_at (flags_of self.now) section offset }
    {
        match self.sections.get(section as usize) {
            Some(flags) => flags.at(offset),
            None => false,
        }
    }
}

/// The flags of a module's words.
pub(crate) fn relocated_words(alloc: Global, parts: &Parts) -> Result<Flags, NoMemory>
    ensures { IfOk result (λ f. flags_of f ≡ fold with_flag (no_flags (contents parts.now).sections) (contents parts.now).relocations) }
{
    let mut flags = no_flags(alloc, &parts.sections)?;
    flags.set_all(&parts.relocations);
    Ok(flags)
}
