//! What warnings are about: a linked program, with what was found of it.

ghost use Rattle.std.specs.Prelude.{◌≡◌, unwrap_or};
ghost use Rattle.c25_meaning_linking.specs.Linking.{line_at};
ghost use Rattle.c25_page_reports.specs.Warnings.{place_at};

use c25_link::Image;
use c25_pages::{Program, Table};
use c25_symbols::entries::SymbolEntry;

/// A linked program, its statements, a table of what is known of it, and the symbols that its modules define.
#[derive(Clone, Copy)]
pub(crate) struct Subject<'a> {
    pub(crate) image: &'a Image,
    pub(crate) program: &'a Program,
    pub(crate) table: &'a Table,
    pub(crate) symbols: &'a [SymbolEntry<'a>],
}

impl<'a> Subject<'a> {
    /// The file and the line of the instruction that is loaded at an address; `link` and 0 where they are not known.
    pub(crate) fn place_of(&self, load: u16) -> (&'a str, u32)
        ensures { (result.0.now, result.1) ≡ place_at self.now.image.now load }
    {
        match self.image.line_of(load) {
            Some(place) => place,
            None => ("link", 0),
        }
    }
}
