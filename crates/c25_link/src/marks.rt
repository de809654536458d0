//! The marks of page 0: of instructions of sections without a run address, and of those with one.

ghost use Rattle.std.specs.Prelude.{◌≡◌, ◌<◌, ◌^◌, ◌+◌, ◌++◌, true, IfOk, OnOk, unwrap_or};
ghost use Rattle.c25_meaning_linking.specs.Linking.{HasMarks, HasRunMarks};
ghost use Rattle.c25_meaning_linking.specs.Words.{module_marks, module_run_marks};
ghost use Rattle.c25_module.specs.View.{contents};
ghost use Rattle.c25_link.specs.Layout.{IsLaidOut, IsOwner, places_in};

use crate::bases::PartBase;
use crate::layout::Layout;
use crate::placed_items::{PlacedItem, items_by_address};
use c25_meaning_image::mark::{Mark, RunMark};
use c25_meaning_objects::object::ModuleMark;
use c25_module::Parts;
use std::alloc::{AllocError, Global};

/// The mark of an instruction of a module at the address where it is loaded, in the part of its section.
pub(crate) fn placed_mark(part: &PartBase, mark: &ModuleMark) -> Mark
    requires { part.now.base + mark.now.offset < 2 ^ 16 }
    ensures { result ≡ record { address = part.now.base + mark.now.offset; size = mark.now.size } }
{
    Mark {
        address: (part.base + u32::from(mark.offset)) as u16,
        size: u16::from(mark.size),
    }
}

/// The run mark of an instruction of a module: where it is loaded, and where it runs.
fn placed_run_mark(part: &PartBase, mark: &ModuleMark) -> RunMark
    requires loaded { part.now.base + mark.now.offset < 2 ^ 16 }
    requires runs { unwrap_or part.now.run part.now.base + mark.now.offset < 2 ^ 16 }
    ensures { result ≡ record { load = part.now.base + mark.now.offset; run = unwrap_or part.now.run part.now.base + mark.now.offset; size = mark.now.size } }
{
    RunMark {
        load: (part.base + u32::from(mark.offset)) as u16,
        run: (part.run_base() + u32::from(mark.offset)) as u16,
        size: u16::from(mark.size),
    }
}

/// Appends the marks of a module's instructions on page 0 whose sections have no run address.
fn push_marks(
    layout: &Layout<'_, '_>,
    number: usize,
    owner: &Parts,
    marks: &mut Vec<Mark>,
) -> Result<(), AllocError>
    requires laid { IsLaidOut layout.now }
    requires owner { IsOwner layout.now number (contents owner.now) }
    ensures { OnOk result (marks.new.items ≡ marks.old.items ++ module_marks layout.now.modules.now (places_in layout.now) number (contents owner.now)) }
{
    for mark in &owner.marks {
        let part = layout.bases.get(number, usize::from(mark.section));
        if part.is_run_in_place() {
            marks.push(placed_mark(&part, mark))?;
        }
    }
    Ok(())
}

impl PlacedItem for Mark {
    ghost use Rattle.c25_meaning_linking.specs.Words.{module_marks};

    ghost of_module = { module_marks };

    ghost address_of = { λ m. m.address };

    fn push_all(
        layout: &Layout<'_, '_>,
        number: usize,
        owner: &Parts,
        items: &mut Vec<Mark>,
    ) -> Result<(), AllocError> {
        push_marks(layout, number, owner, items)
    }

    fn address(&self) -> u16 {
        self.address
    }
}

/// The instructions on page 0 of sections without a run address, by their addresses.
pub(crate) fn program_marks(alloc: Global, layout: &Layout<'_, '_>) -> Result<Vec<Mark>, AllocError>
    requires { IsLaidOut layout.now }
    ensures { IfOk result (λ v. HasMarks layout.now.modules.now (places_in layout.now) v.items) }
{
    items_by_address(alloc, layout)
}

/// Appends the run marks of a module's instructions on page 0 whose sections have a run address.
fn push_run_marks(
    layout: &Layout<'_, '_>,
    number: usize,
    owner: &Parts,
    run_marks: &mut Vec<RunMark>,
) -> Result<(), AllocError>
    requires laid { IsLaidOut layout.now }
    requires owner { IsOwner layout.now number (contents owner.now) }
    ensures { OnOk result (run_marks.new.items ≡ run_marks.old.items ++ module_run_marks layout.now.modules.now (places_in layout.now) number (contents owner.now)) }
{
    for mark in &owner.marks {
        let part = layout.bases.get(number, usize::from(mark.section));
        if part.is_copied() {
            run_marks.push(placed_run_mark(&part, mark))?;
        }
    }
    Ok(())
}

impl PlacedItem for RunMark {
    ghost use Rattle.c25_meaning_linking.specs.Words.{module_run_marks};

    ghost of_module = { module_run_marks };

    ghost address_of = { λ m. m.run };

    fn push_all(
        layout: &Layout<'_, '_>,
        number: usize,
        owner: &Parts,
        items: &mut Vec<RunMark>,
    ) -> Result<(), AllocError> {
        push_run_marks(layout, number, owner, items)
    }

    fn address(&self) -> u16 {
        self.run
    }
}

/// The instructions on page 0 of sections with a run address, by the addresses where they run.
pub(crate) fn program_run_marks(
    alloc: Global,
    layout: &Layout<'_, '_>,
    marks: &[Mark],
) -> Result<Vec<RunMark>, AllocError>
    requires laid { IsLaidOut layout.now }
    requires marks { HasMarks layout.now.modules.now (places_in layout.now) marks.now }
    ensures { IfOk result (λ v. HasRunMarks layout.now.modules.now (places_in layout.now) marks.now v.items) }
{
    items_by_address(alloc, layout)
}
