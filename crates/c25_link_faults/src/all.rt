//! All faults of modules that are linked under a command.

ghost use Rattle.std.specs.Prelude.{◌≡◌, ◌++◌, ◌∷◌, List, [], Some, filter, map, option_map, IfOk, OnOk};
ghost use Rattle.c25_cmd.specs.View.{command_data};
ghost use Rattle.c25_meaning_linking.specs.Command.{IsCommand};
ghost use Rattle.c25_meaning_linking.specs.Words.{definitions};
ghost use Rattle.c25_meaning_linking.specs.declared.link_fault.LinkFault.TheVariants as variant;
ghost use Rattle.c25_meaning_objects.specs.Module.{Contents};
ghost use Rattle.c25_link_faults.specs.Faults.{AreLinkFaults, each_with, independent, is_other, name_faults, no_entry};
ghost use Rattle.c25_link_faults.specs.View.{HasFirst, fault_view, faults_view, names_of, names_view};
ghost use Rattle.c25_place.specs.View.{refusal_of};

use crate::definitions::{all_definitions, defined_twice, names_of};
use crate::lacking::without_range;
use crate::names::FirstNames;
use crate::uses::{is_missing, unresolved};
use c25_cmd::Command;
use c25_link::link;
use c25_meaning_common::failure::Failure;
use c25_meaning_common::no_memory::NoMemory;
use c25_meaning_common::placed::Placed;
use c25_meaning_linking::link_fault::LinkFault;
use c25_module::Module;
use c25_place::refusal;
use std::alloc::{AllocError, Global};

/// A fault at a name.
#[derive(Clone, Copy)]
struct NameFault<'a> {
    fault: LinkFault,
    name: &'a str,
}

/// Appends this fault at each name.
fn push_each<'a>(
    fault: LinkFault,
    names: &[&'a str],
    faults: &mut Vec<NameFault<'a>>,
) -> Result<(), AllocError>
    ensures { OnOk result (faults_view faults.new.items ≡ faults_view faults.old.items ++ each_with fault (names_view names.now)) }
{
    for name in names {
        faults.push(NameFault { fault, name: *name })?;
    }
    Ok(())
}

/// Appends that no module defines the entry of this name, if these definitions have it not.
fn push_undefined<'a>(
    defined: &FirstNames<'_>,
    name: &'a str,
    faults: &mut Vec<NameFault<'a>>,
) -> Result<(), AllocError>
    ensures { (modules : List Contents) → HasFirst defined.now [] (names_of (definitions modules))
        → OnOk result (faults_view faults.new.items ≡ faults_view faults.old.items ++ each_with variant.NoEntry (no_entry modules (Some name.now))) }
{
    if is_missing(defined, name) {
        faults.push(NameFault {
            fault: LinkFault::NoEntry,
            name,
        })?;
        Ok(())
    } else {
        Ok(())
    }
}

/// Appends that no module defines the entry, where a command names one and these definitions have it not.
fn push_entry<'a>(
    defined: &FirstNames<'_>,
    entry: Option<&'a str>,
    faults: &mut Vec<NameFault<'a>>,
) -> Result<(), AllocError>
    ensures { (modules : List Contents) → HasFirst defined.now [] (names_of (definitions modules))
        → OnOk result (faults_view faults.new.items ≡ faults_view faults.old.items ++ each_with variant.NoEntry (no_entry modules (option_map (λ name. name.now) entry.entry))) }
{
    match entry {
        Some(name) => push_undefined(defined, name, faults),
        None => Ok(()),
    }
}

/// The name of the entry, where a command gives one.
fn entry_of(command: &Command) -> Option<&str>
    ensures { option_map (λ name. name.now) result ≡ (command_data command.now).entry }
{
    match &command.entry {
        Some(name) => Some(name),
        None => None,
    }
}

/// The faults of names: those that are defined twice, those that are used and not defined, the entry.
fn name_faults<'a>(
    alloc: Global,
    modules: &'a [Module],
    entry: Option<&'a str>,
) -> Result<Vec<NameFault<'a>>, AllocError>
    ensures { IfOk result (λ faults. faults_view faults.items ≡ name_faults modules.now (option_map (λ name. name.now) entry.entry)) }
{
    let definitions = all_definitions(alloc, modules)?;
    let defined = names_of(alloc, &definitions)?;
    let twice = defined_twice(alloc, &definitions)?;
    let used = unresolved(alloc, &defined, modules)?;
    let mut faults = Vec::new(alloc);
    push_each(LinkFault::DefinedTwice, twice.list(), &mut faults)?;
    push_each(LinkFault::Unresolved, used.list(), &mut faults)?;
    push_entry(&defined, entry, &mut faults)?;
    Ok(faults)
}

/// The faults of names and ranges, none of which comes from another fault.
fn independent<'a>(
    alloc: Global,
    modules: &'a [Module],
    command: &'a Command,
) -> Result<Vec<NameFault<'a>>, AllocError>
    ensures { IfOk result (λ faults. faults_view faults.items ≡ independent modules.now (command_data command.now)) }
{
    let mut faults = name_faults(alloc, modules, entry_of(command))?;
    let lacking = without_range(alloc, modules, command)?;
    push_each(LinkFault::NoRange, &lacking, &mut faults)?;
    Ok(faults)
}

/// Whether two faults have different numbers or names.
fn is_other(first: &Placed<String, LinkFault>, other: NameFault<'_>) -> bool
    ensures { result ≡ is_other (refusal_of first.now) (fault_view other.entry) }
{
    !(first.fault.number() == other.fault.number() && first.place.as_str() == other.name)
}

/// Appends copies of those faults that are other ones than the first.
fn push_others(
    alloc: Global,
    first: &Placed<String, LinkFault>,
    others: &[NameFault<'_>],
    faults: &mut Vec<Placed<String, LinkFault>>,
) -> Result<(), NoMemory>
    ensures { OnOk result (map refusal_of faults.new.items ≡ map refusal_of faults.old.items ++ filter (is_other (refusal_of first.now)) (faults_view others.now)) }
{
    for other in others {
        if is_other(first, *other) {
            faults.push(refusal(alloc, other.fault, other.name)?)?;
        }
    }
    Ok(())
}

/// The first fault, and after it all others of names and ranges.
fn with_others(
    alloc: Global,
    modules: &[Module],
    command: &Command,
    first: &Placed<String, LinkFault>,
) -> Result<Vec<Placed<String, LinkFault>>, NoMemory>
    ensures { IfOk result (λ faults. map refusal_of faults.items ≡ refusal_of first.now ∷ filter (is_other (refusal_of first.now)) (independent modules.now (command_data command.now))) }
{
    let others = independent(alloc, modules, command)?;
    let mut faults = Vec::new(alloc);
    faults.push(refusal(alloc, first.fault, first.place.as_str())?)?;
    push_others(alloc, first, &others, &mut faults)?;
    Ok(faults)
}

/// All faults of modules under a command: none where [`link`](c25_link::link) makes a program of them, else
/// the fault that it returns, and after it all others of names and ranges: each name that is defined twice,
/// each that is used and not defined, the entry that is not defined, each section without a range.
/// `NoMemory` where memory runs out.
#[tactic(auto, using(crate::proofs::Others::first_and_others))]
pub fn all_link_faults(
    alloc: Global,
    modules: &[Module],
    command: &Command,
) -> Result<Vec<Placed<String, LinkFault>>, NoMemory>
    requires { IsCommand (command_data command.now) }
    ensures { IfOk result (λ faults. AreLinkFaults modules.now (command_data command.now) (map refusal_of faults.items)) }
{
    match link(alloc, modules, command) {
        Ok(_) => Ok(Vec::new(alloc)),
        Err(Failure::NoMemory(error)) => Err(error),
        Err(Failure::Fault(first)) => with_others(alloc, modules, command, &first),
    }
}
