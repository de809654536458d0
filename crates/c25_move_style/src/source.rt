//! The styles that a source shows.

ghost use Rattle.std.specs.Prelude.{◌≡◌, IfOk, map};
ghost use Rattle.std.specs.Str.Lines.{lines};
ghost use Rattle.c25_move_lines.specs.declared.style.Style.TheVariants.{Early, Coff};
ghost use Rattle.c25_move_style.specs.Shown.{first_showing};

use crate::shown::first_showing;
use c25_meaning_common::no_memory::NoMemory;
use c25_move_lines::Style;
use std::alloc::{AllocError, Global};

/// The numbers of the first lines of a source that show each style, counted from 1; none where no line does. A source
/// that shows one style is written in it; one that shows both has to be asked about.
#[derive(Clone, Copy, PartialEq, Debug)]
pub struct ShownStyles {
    pub early: Option<usize>,
    pub coff: Option<usize>,
}

/// The lines of a text.
fn lines_in(alloc: Global, text: &str) -> Result<Vec<&str>, AllocError>
    ensures { IfOk result (λ v. map (λ l. l.now) v.items ≡ lines text.now) }
{
    text.lines().collect(alloc)
}

/// The styles that a source shows, up to the line that ends it. `NoMemory` (9) where memory runs out.
pub fn shown_styles(alloc: Global, text: &str) -> Result<ShownStyles, NoMemory>
    ensures early { IfOk result (λ s. s.early ≡ first_showing Early text.now) }
    ensures coff { IfOk result (λ s. s.coff ≡ first_showing Coff text.now) }
{
    let lines = lines_in(alloc, text)?;
    Ok(ShownStyles {
        early: first_showing(Style::Early, lines.as_slice()),
        coff: first_showing(Style::Coff, lines.as_slice()),
    })
}
