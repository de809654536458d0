//! The lines of files that the instructions on page 0 come from.

ghost use Rattle.std.specs.Prelude.{◌≡◌, ◌++◌, ℕ, List, true, map, IfOk, OnOk};
ghost use Rattle.std.specs.Option.{option_map};
ghost use Rattle.c25_meaning_image.specs.Marks.{fit_from};
ghost use Rattle.c25_meaning_linking.specs.Linking.{HasLines, line_at};
ghost use Rattle.c25_module.specs.View.{contents, files_data};
ghost use Rattle.c25_link.specs.Layout.{IsLaidOut, IsOwner, places_in};
ghost use Rattle.c25_link.specs.Lines.{module_places, file_at, files_view, lines_view};

use crate::layout::Layout;
use crate::marks::placed_mark;
use crate::placed_items::{PlacedItem, items_by_address};
use c25_meaning_image::mark::Mark;
use c25_module::{Module, Parts};
use std::alloc::{AllocError, Global};

/// An instruction on page 0 that has a line: its mark, the number of its module, the number of the file among
/// the module's files, and the line.
#[derive(Clone, Copy)]
pub(crate) struct LinePlace {
    mark: Mark,
    number: usize,
    file: u16,
    line: u32,
}

/// The instructions on page 0 that have a line, by their addresses, and the names of the files of each
/// module.
#[derive(Drop)]
pub(crate) struct SourceLines {
    places: Vec<LinePlace>,
    files: Vec<Vec<String>>,
}

/// Appends the instructions of a module that are on page 0 and have a line.
fn push_places(
    layout: &Layout<'_, '_>,
    number: usize,
    owner: &Parts,
    places: &mut Vec<LinePlace>,
) -> Result<(), AllocError>
    requires laid { IsLaidOut layout.now }
    requires owner { IsOwner layout.now number (contents owner.now) }
    ensures { OnOk result (places.new.items ≡ places.old.items ++ module_places layout.now.modules.now (places_in layout.now) number (contents owner.now)) }
{
    for (index, mark) in owner.marks.iter().enumerate() {
        match owner.lines.get(index) {
            Some(told) => {
                let part = layout.bases.get(number, usize::from(mark.section));
                if part.page == 0 {
                    places.push(LinePlace {
                        mark: placed_mark(&part, mark),
                        number,
                        file: told.file,
                        line: told.line,
                    })?;
                }
            }
            None => {}
        }
    }
    Ok(())
}

impl PlacedItem for LinePlace {
    ghost use Rattle.c25_link.specs.Lines.{module_places};

    ghost of_module = { module_places };

    ghost address_of = { λ l. l.mark.address };

    fn push_all(
        layout: &Layout<'_, '_>,
        number: usize,
        owner: &Parts,
        items: &mut Vec<LinePlace>,
    ) -> Result<(), AllocError> {
        push_places(layout, number, owner, items)
    }

    fn address(&self) -> u16 {
        self.mark.address
    }
}

/// Copies of texts.
fn copied(alloc: Global, texts: &[String]) -> Result<Vec<String>, AllocError>
    ensures { IfOk result (λ v. files_data v.items ≡ files_data texts.now) }
{
    let mut copies = Vec::new(alloc);
    for text in texts {
        copies.push(String::from_str(alloc, text)?)?;
    }
    Ok(copies)
}

/// The names of the files of each module.
fn all_files(alloc: Global, modules: &[Module]) -> Result<Vec<Vec<String>>, AllocError>
    ensures { IfOk result (λ v. files_view v.items ≡ map (λ m. m.files) modules.now) }
{
    let mut files = Vec::new(alloc);
    for module in modules {
        files.push(copied(alloc, &module.parts().files)?)?;
    }
    Ok(files)
}

/// The instructions on page 0 that have a line, by their addresses.
#[tactic(auto, using(crate::proofs::Told::has_lines))]
pub(crate) fn program_lines(
    alloc: Global,
    layout: &Layout<'_, '_>,
) -> Result<SourceLines, AllocError>
    requires { IsLaidOut layout.now }
    ensures { IfOk result (λ l. HasLines layout.now.modules.now (places_in layout.now) (lines_view l)) }
{
    let files = all_files(alloc, layout.modules)?;
    let places = items_by_address(alloc, layout)?;
    Ok(SourceLines { places, files })
}

/// The name of a file by its number in its module, and the number of the module; empty where there is none.
fn file_name(files: &[Vec<String>], number: usize, index: usize) -> &str
    ensures { result.now ≡ file_at (files_view files.now) number index }
{
    match files.get(number) {
        Some(names) => match names.get(index) {
            Some(name) => name,
            None => "",
        },
        None => "",
    }
}

impl SourceLines {
    /// The file and the line of the instruction that is loaded at an address, where it has one.
    #[tactic(auto, using(crate::proofs::Told::line_found, crate::proofs::Told::line_missing))]
    pub(crate) fn get(&self, address: u16) -> Option<(&str, u32)>
        requires { fit_from 0 (map (λ l. l.mark) (lines_view self.now)) ≡ true }
        ensures { option_map (λ r. (r.0.now, r.1)) result ≡ line_at address (lines_view self.now) }
    {
        match self
            .places
            .binary_search_by_key(&address, |place| place.mark.address)
        {
            Ok(index) => {
                let place = self.places[index];
                let file = file_name(&self.files, place.number, place.file as usize);
                Some((file, place.line))
            }
            Err(_) => None,
        }
    }
}
