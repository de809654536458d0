//! The layout of an image.

ghost use Rattle.std.specs.Prelude.{IfOk};
ghost use Rattle.c25_layout.specs.Layout.{ArePartsOf};

use crate::blank::leave_out_blanks;
use crate::cells::{Cells, Reason};
use crate::erased::long_runs;
use crate::flow::Flow;
use crate::hint::Hint;
use crate::hinted::{take_tables, take_words};
use crate::layout::Part;
use crate::naming::name_targets;
use crate::rows::{Found, parts_of};
use c25_meaning_common::no_memory::NoMemory;
use c25_meaning_image::word_map::WordMap;
use std::alloc::Global;

/// The cells of an image, after hints were taken and before its flow is followed.
fn hinted_cells(alloc: Global, words: &WordMap, hints: &[Hint<String>]) -> Result<Cells, NoMemory> {
    let mut cells = Cells::new(alloc)?;
    take_words(&mut cells, hints);
    take_tables(words, &mut cells, hints);
    Ok(cells)
}

/// Follows the flow: from what hints name, from address 0, and then from the vectors. None is followed whose words are
/// erased.
fn follow_all(flow: &mut Flow<'_>) -> Result<(), NoMemory> {
    flow.enter_hints()?;
    flow.enter_vector(0, Reason::Code)?;
    flow.follow()?;
    flow.follow_vectors()?;
    flow.take_references();
    Ok(())
}

/// What each word of an image is taken for: the flow is followed, names are given, and runs of at least
/// `blank` erased words are left out; none for 0.
fn cells_of(
    alloc: Global,
    words: &WordMap,
    hints: &[Hint<String>],
    blank: u32,
) -> Result<Cells, NoMemory> {
    let mut flow = Flow {
        words,
        cells: hinted_cells(alloc, words, hints)?,
        hints,
        entries: Vec::new(alloc),
    };
    follow_all(&mut flow)?;
    let Flow { mut cells, .. } = flow;
    leave_out_blanks(words, &mut cells, blank);
    name_targets(&mut cells);
    Ok(cells)
}

/// The parts of the words of an image: what the flow comes to is instructions, all else data; what instructions and
/// hints refer to has a name; runs of at least `blank` erased words, FFFFh, that nothing comes to are left out, none
/// for 0.
///
/// Which words are taken for what is chosen. What is claimed holds of every choice: the rows of each part have the
/// words of the image at their addresses, the parts follow one another, and each word of the image is in a part but for
/// those that stand among `blank` erased words at least, one after the other. `NoMemory` where memory runs out.
pub fn parts_of_words(
    alloc: Global,
    words: &WordMap,
    hints: &[Hint<String>],
    blank: u32,
) -> Result<Vec<Part>, NoMemory>
    ensures { IfOk result (λ parts. ArePartsOf words.now blank parts.items) }
{
    let cells = cells_of(alloc, words, hints, blank)?;
    let long = long_runs(alloc, words, blank)?;
    let found = Found {
        words,
        cells: &cells,
        hints,
        long: &long,
    };
    parts_of(alloc, found)
}
