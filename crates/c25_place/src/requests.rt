//! The sections that are to be placed, in the order of placement.

ghost use Rattle.std.specs.Prelude.{◌≡◌, ◌≤◌, ◌++◌, ℕ, List, map, filter, None, IfOk, OnOk, IfSome, All};
ghost use Rattle.c25_cmd.specs.View.{target_of, placing_of, placings_of};
ghost use Rattle.c25_meaning_linking.specs.Command.{PlacingData};
ghost use Rattle.c25_meaning_linking.specs.GoodMap.{has_address, comes_first, comes_later, listed_request, unlisted_request, new_names, requests};
ghost use Rattle.c25_meaning_linking.specs.GoodMap as good;
ghost use Rattle.c25_meaning_objects.specs.Module.{Contents, SectionData};
ghost use Rattle.c25_meaning_linking.specs.Place.{all_sections};
ghost use Rattle.c25_module.specs.View.{section_data};
ghost use Rattle.c25_place.specs.Outputs.{output_of, KnowsOutputs};
ghost use Rattle.c25_place.specs.Requests.{is_due, request_by, unlisted, HasPages, HasNames};
ghost use Rattle.c25_place.specs.View.{requests_view, request_view, sections_view, wanted_view};

use crate::names::SeenNames;
use crate::outputs::{Output, Outputs};
use c25_cmd::{Placing, Target};
use c25_module::Section;
use std::alloc::{AllocError, Global};

/// Where a section is to stand.
#[derive(Clone, Copy)]
pub(crate) enum Wanted<'a> {
    Anywhere,
    InRange(&'a str),
    At(u32),
}

/// A section that is to be placed.
#[derive(Clone, Copy)]
pub(crate) struct Request<'a> {
    pub name: &'a str,
    pub size: u128,
    pub initialised: bool,
    pub wanted: Wanted<'a>,
    pub page: Option<u8>,
    /// The section's run address, if the command gives one.
    pub run: Option<u32>,
}

/// The target that a command gives a section, as a request has it.
pub(crate) fn place_wanted(target: &Target) -> Wanted<'_>
    ensures { wanted_view result ≡ target_of target.now }
{
    match target {
        Target::Anywhere => Wanted::Anywhere,
        Target::InRange(name) => Wanted::InRange(name),
        Target::At(address) => Wanted::At(*address),
    }
}

/// Whether a target is an address.
fn has_address(target: &Target) -> bool
    ensures { result ≡ has_address (target_of target.now) }
{
    match target {
        Target::At(_) => true,
        _ => false,
    }
}

/// The request of a section that the command lists.
fn listed_request<'a>(placing: &'a Placing, output: Output) -> Request<'a>
    ensures request { (modules : List Contents) → request_view modules result ≡ request_by modules output (placing_of placing.now) }
    ensures page { result.page ≡ placing.now.page }
{
    Request {
        name: &placing.name,
        size: output.size,
        initialised: output.initialised,
        wanted: place_wanted(&placing.target),
        page: placing.page,
        run: placing.run,
    }
}

/// The request of a section that the command does not list.
fn unlisted_request<'a>(name: &'a str, output: Output) -> Request<'a>
    ensures request { (modules : List Contents) → request_view modules result ≡ request_by modules output (unlisted name.now) }
    ensures page { result.page ≡ None }
{
    Request {
        name,
        size: output.size,
        initialised: output.initialised,
        wanted: Wanted::Anywhere,
        page: None,
        run: None,
    }
}

/// Appends the listed sections that a module has: those with an address, or those without.
#[tactic(auto, using(crate::proofs::Asked::asked_by, crate::proofs::Asked::there_by, crate::proofs::Asked::not_there_by, crate::proofs::Asked::due, crate::proofs::Asked::not_due, crate::proofs::Asked::not_due_there, crate::proofs::Asked::listed_more, crate::proofs::Asked::listed_same))]
fn push_listed<'a>(
    with_address: bool,
    outputs: &Outputs<'_>,
    placings: &'a [Placing],
    requests: &mut Vec<Request<'a>>,
) -> Result<(), AllocError>
    requires pages { All (λ p. IfSome p.page (λ n. n ≤ 1)) placings.now }
    requires requests { HasPages requests.old.items }
    ensures listed { (modules : List Contents) → KnowsOutputs outputs.now (all_sections modules)
        → OnOk result (requests_view modules requests.new.items ≡ requests_view modules requests.old.items ++ map (listed_request modules) (filter (is_due with_address modules) (placings_of placings.now))) }
    ensures pages { OnOk result (HasPages requests.new.items) }
{
    for placing in placings {
        if has_address(&placing.target) == with_address {
            match outputs.get(&placing.name) {
                Some(output) => requests.push(listed_request(placing, output))?,
                None => {}
            }
        }
    }
    Ok(())
}

/// The names of the listed sections.
#[tactic(auto, using(crate::proofs::Asked::names_more))]
fn listed_names<'a>(alloc: Global, placings: &'a [Placing]) -> Result<SeenNames<'a>, AllocError>
    ensures { IfOk result (λ names. HasNames names (map (λ p. p.name) (placings_of placings.now))) }
{
    let mut names = SeenNames::new(alloc);
    for placing in placings {
        names.insert(&placing.name)?;
    }
    Ok(names)
}

/// Appends the sections whose names have not appeared yet, in the order of appearance.
#[tactic(auto, using(crate::proofs::Asked::asked_by, crate::proofs::Asked::name_new, crate::proofs::Asked::name_seen, crate::proofs::Asked::names_more))]
fn push_unlisted<'a>(
    outputs: &Outputs<'_>,
    sections: &[&'a Section],
    seen: &mut SeenNames<'a>,
    requests: &mut Vec<Request<'a>>,
) -> Result<(), AllocError>
    requires requests { HasPages requests.old.items }
    ensures unlisted { (modules : List Contents) (listed : List (List ℕ)) → KnowsOutputs outputs.now (all_sections modules)
        → sections_view sections.now ≡ all_sections modules → HasNames seen.old listed
        → OnOk result (requests_view modules requests.new.items ≡ requests_view modules requests.old.items ++ map (unlisted_request modules) (new_names listed (map (λ s. s.name) (sections_view sections.now)))) }
    ensures pages { OnOk result (HasPages requests.new.items) }
{
    for section in sections {
        if seen.insert(&section.name)? {
            match outputs.get(&section.name) {
                Some(output) => requests.push(unlisted_request(&section.name, output))?,
                None => {}
            }
        }
    }
    Ok(())
}

/// All sections that are to be placed: the listed ones with an address, the other listed ones, and
/// those that are not listed.
pub(crate) fn requests<'a>(
    alloc: Global,
    outputs: &Outputs<'_>,
    sections: &[&'a Section],
    placings: &'a [Placing],
) -> Result<Vec<Request<'a>>, AllocError>
    requires { All (λ p. IfSome p.page (λ n. n ≤ 1)) placings.now }
    ensures requests { (modules : List Contents) → KnowsOutputs outputs.now (all_sections modules) → sections_view sections.now ≡ all_sections modules
        → IfOk result (λ v. requests_view modules v.items ≡ requests modules (placings_of placings.now)) }
    ensures pages { IfOk result (λ v. HasPages v.items) }
{
    let mut requests = Vec::new(alloc);
    push_listed(true, outputs, placings, &mut requests)?;
    push_listed(false, outputs, placings, &mut requests)?;
    let mut seen = listed_names(alloc, placings)?;
    push_unlisted(outputs, sections, &mut seen, &mut requests)?;
    Ok(requests)
}
