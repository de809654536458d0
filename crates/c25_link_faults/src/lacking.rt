//! Sections without a range.

ghost use Rattle.std.specs.Prelude.{◌≡◌, ◌++◌, ◌&&◌, List, [], IfOk, OnOk};
ghost use Rattle.c25_cmd.specs.View.{command_data, placing_of, placings_of, target_of};
ghost use Rattle.c25_meaning_linking.specs.GoodMap.{has_address, listed_request, placings_for, unlisted_request};
ghost use Rattle.c25_meaning_objects.specs.Module.{Contents};
ghost use Rattle.c25_meaning_linking.specs.Place.{all_sections, is_initialised, is_there};
ghost use Rattle.c25_place.specs.Requests.{is_due};
ghost use Rattle.c25_link_faults.specs.Faults.{lacks_range, without_range};
ghost use Rattle.c25_link_faults.specs.View.{HasFirst, lacking_listed, lacking_unlisted, loaded_names, names_view, ranges_view, section_names};

use crate::names::FirstNames;
use crate::ranges::{Range, lacks_range, ranges_for};
use crate::sections::{all_loaded, all_names, unlisted_names};
use c25_cmd::{Command, Placing, Target};
use c25_module::Module;
use std::alloc::{AllocError, Global};

/// The sections of modules, the initialised ones among them, and the ranges of a command.
#[derive(Drop)]
struct Sections<'a> {
    all: FirstNames<'a>,
    loaded: FirstNames<'a>,
    ranges: Vec<Range<'a>>,
}

/// The sections that a command lists; none where it has no `SECTIONS`.
pub(crate) fn placings_of(command: &Command) -> &[Placing]
    ensures { placings_of result.now ≡ placings_for (command_data command.now) }
{
    match &command.sections {
        Some(placings) => placings,
        None => &[],
    }
}

/// Whether a target is an address.
fn has_address(target: &Target) -> bool
    ensures { result ≡ has_address (target_of target.now) }
{
    match target {
        Target::At(_) => true,
        Target::Anywhere | Target::InRange(_) => false,
    }
}

impl<'a> Sections<'a> {
    /// Whether a module has a section of a name.
    #[tactic(auto, using(crate::proofs::Lacked::is_there_by))]
    fn is_there(&self, name: &str) -> bool
        ensures { (modules : List Contents) → HasFirst self.now.all [] (section_names (all_sections modules)) → result ≡ is_there name.now modules }
    {
        self.all.has(name)
    }

    /// Whether a module has an initialised section of a name.
    #[tactic(auto, using(crate::proofs::Lacked::is_initialised_by))]
    fn is_initialised(&self, name: &str) -> bool
        ensures { (modules : List Contents) → HasFirst self.now.loaded [] (loaded_names (all_sections modules)) → result ≡ is_initialised name.now modules }
    {
        self.loaded.has(name)
    }

    /// Whether a section that the command lists is one of the modules, and has an address or has none.
    fn is_due(&self, with_address: bool, placing: &Placing) -> bool
        ensures { (modules : List Contents) → HasFirst self.now.all [] (section_names (all_sections modules)) → result ≡ is_due with_address modules (placing_of placing.now) }
    {
        if with_address {
            has_address(&placing.target) && self.is_there(placing.name.as_str())
        } else {
            !has_address(&placing.target) && self.is_there(placing.name.as_str())
        }
    }

    /// Whether a section that the command lists has no range.
    fn is_rangeless(&self, placing: &Placing) -> bool
        ensures { (modules : List Contents) → HasFirst self.now.loaded [] (loaded_names (all_sections modules))
            → result ≡ lacks_range (ranges_view self.now.ranges.items) (listed_request modules (placing_of placing.now)) }
    {
        let initialised = self.is_initialised(placing.name.as_str());
        lacks_range(&self.ranges, &placing.target, placing.page, initialised)
    }

    /// Whether a section that the command lists is one of the modules, has an address or has none, and has no
    /// range.
    fn is_lacking(&self, with_address: bool, placing: &Placing) -> bool
        ensures { (modules : List Contents) → HasFirst self.now.all [] (section_names (all_sections modules)) → HasFirst self.now.loaded [] (loaded_names (all_sections modules))
            → result ≡ (is_due with_address modules (placing_of placing.now) && lacks_range (ranges_view self.now.ranges.items) (listed_request modules (placing_of placing.now))) }
    {
        self.is_due(with_address, placing) && self.is_rangeless(placing)
    }

    /// Whether a section that the command does not list has no range.
    fn is_lacking_unlisted(&self, name: &str) -> bool
        ensures { (modules : List Contents) → HasFirst self.now.loaded [] (loaded_names (all_sections modules))
            → result ≡ lacks_range (ranges_view self.now.ranges.items) (unlisted_request modules name.now) }
    {
        let initialised = self.is_initialised(name);
        lacks_range(&self.ranges, &Target::Anywhere, None, initialised)
    }
}

/// Appends the listed sections with an address, or those without, that have no range.
fn push_listed<'a>(
    with_address: bool,
    sections: &Sections<'_>,
    placings: &'a [Placing],
    names: &mut Vec<&'a str>,
) -> Result<(), AllocError>
    ensures { (modules : List Contents) → HasFirst sections.now.all [] (section_names (all_sections modules)) → HasFirst sections.now.loaded [] (loaded_names (all_sections modules))
        → OnOk result (names_view names.new.items ≡ names_view names.old.items ++ lacking_listed with_address modules (ranges_view sections.now.ranges.items) (placings_of placings.now)) }
{
    for placing in placings {
        if sections.is_lacking(with_address, placing) {
            names.push(placing.name.as_str())?;
        }
    }
    Ok(())
}

/// Appends the names of sections that the command does not list and that have no range.
fn push_unlisted<'a>(
    sections: &Sections<'_>,
    unlisted: &[&'a str],
    names: &mut Vec<&'a str>,
) -> Result<(), AllocError>
    ensures { (modules : List Contents) → HasFirst sections.now.loaded [] (loaded_names (all_sections modules))
        → OnOk result (names_view names.new.items ≡ names_view names.old.items ++ lacking_unlisted modules (ranges_view sections.now.ranges.items) (names_view unlisted.now)) }
{
    for name in unlisted {
        if sections.is_lacking_unlisted(name) {
            names.push(*name)?;
        }
    }
    Ok(())
}

/// The sections without a range, in the order of placement.
pub(crate) fn without_range<'a>(
    alloc: Global,
    modules: &'a [Module],
    command: &'a Command,
) -> Result<Vec<&'a str>, AllocError>
    ensures { IfOk result (λ names. names_view names.items ≡ without_range modules.now (command_data command.now)) }
{
    let placings = placings_of(command);
    let sections = Sections {
        all: all_names(alloc, modules)?,
        loaded: all_loaded(alloc, modules)?,
        ranges: ranges_for(alloc, command)?,
    };
    let unlisted = unlisted_names(alloc, modules, placings)?;
    let mut names = Vec::new(alloc);
    push_listed(true, &sections, placings, &mut names)?;
    push_listed(false, &sections, placings, &mut names)?;
    push_unlisted(&sections, unlisted.list(), &mut names)?;
    Ok(names)
}
