//! The text of a listing.

ghost use Rattle.std.specs.Prelude.{◌≡◌, IfOk};
ghost use Rattle.std.specs.String.{string_bytes};
ghost use Rattle.c25_meaning_assembly.specs.Listing as listing;
ghost use Rattle.c25_listing.specs.View.{entries_of};

use crate::listing::Listing;
use crate::printing::with_flags;
use c25_meaning_common::no_memory::NoMemory;
use std::alloc::Global;

impl Listing<'_> {
    /// The printed listing. Each expanded line has its number, then the offset of its first word and that
    /// word, both in hexadecimal, with `'` where the word has a relocation, and its text. A line that made no
    /// word has its number and its text alone; each further word has a printed line with its offset, the
    /// word, and its `'`.
    ///
    /// `NoMemory` where memory runs out.
    pub fn text(&self, alloc: Global) -> Result<String, NoMemory>
        ensures { IfOk result (λ text. string_bytes text ≡ listing.listing_text self.now.module (entries_of self.now.entries.items)) }
    {
        let words = with_flags(alloc, self.module.parts())?;
        let mut out = String::new(alloc);
        let mut line = String::new(alloc);
        for entry in &self.entries {
            words.push_entry(&mut out, &mut line, entry)?;
        }
        Ok(out)
    }
}
