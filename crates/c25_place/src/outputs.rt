//! The sections of a program: all modules' sections of one name, taken together.

ghost use Rattle.std.specs.Prelude.{◌≡◌, ◌<◌, ◌≤◌, ◌++◌, List, All, length, false, unwrap_or, IfOk, OnOk};
ghost use Rattle.c25_meaning_objects.specs.Module.{SectionData, body_size, has_words};
ghost use Rattle.c25_meaning_linking.specs.Place.{all_sections};
ghost use Rattle.c25_module.specs.View.{body_data, section_data, sections_data};
ghost use Rattle.c25_place.specs.Outputs.{output_of, AreSmall, KnowsOutputs};
ghost use Rattle.c25_place.specs.View.{sections_view};

use c25_module::{Body, Module, Section};
use std::alloc::{AllocError, Global};
use std::collections::HashMap;

/// The size of the modules' sections of one name in sum, and whether one of them is initialised. There may be
/// any number of them, of up to 65,536 words each.
#[derive(Clone, Copy)]
pub(crate) struct Output {
    pub size: u128,
    pub initialised: bool,
}

/// The sections of a program by their names.
#[derive(Drop)]
pub(crate) struct Outputs<'a> {
    found: HashMap<&'a str, Output>,
}

/// How many words the body of a section has.
pub fn body_size(body: &Body) -> u32
    requires { body_size (body_data body.now) ≤ 65536 }
    ensures { result ≡ body_size (body_data body.now) }
{
    match body {
        Body::Uninitialised(size) => *size,
        Body::Initialised(words) => words.len() as u32,
    }
}

/// Whether the body of a section has words that are loaded.
fn has_words(body: &Body) -> bool
    ensures { result ≡ has_words (body_data body.now) }
{
    match body {
        Body::Uninitialised(_) => false,
        Body::Initialised(_) => true,
    }
}

/// The sum so far, or that of no sections.
fn output_or_none(output: Option<Output>) -> Output
    ensures { result ≡ unwrap_or output (record { size = 0; initialised = false }) }
{
    match output {
        Some(output) => output,
        None => Output {
            size: 0,
            initialised: false,
        },
    }
}

/// Appends the sections of a module.
fn push_sections<'a>(own: &'a [Section], sections: &mut Vec<&'a Section>) -> Result<(), AllocError>
    requires own { All (λ s. body_size (body_data s.body) ≤ 65536) own.now }
    requires sections { AreSmall sections.old.items }
    ensures sections { OnOk result (sections_view sections.new.items ≡ sections_view sections.old.items ++ sections_data own.now) }
    ensures small { OnOk result (AreSmall sections.new.items) }
{
    for section in own {
        sections.push(section)?;
    }
    Ok(())
}

/// The sections of all modules.
pub(crate) fn all_sections<'a>(
    alloc: Global,
    modules: &'a [Module],
) -> Result<Vec<&'a Section>, AllocError>
    ensures sections { IfOk result (λ v. sections_view v.items ≡ all_sections modules.now) }
    ensures small { IfOk result (λ v. AreSmall v.items) }
{
    let mut sections = Vec::new(alloc);
    for module in modules {
        push_sections(&module.parts().sections, &mut sections)?;
    }
    Ok(sections)
}

impl<'a> Outputs<'a> {
    /// The sums of these sections, by name.
    #[tactic(auto, using(crate::proofs::Sized::output_more, crate::proofs::Sized::output_small))]
    pub(crate) fn new(alloc: Global, sections: &[&'a Section]) -> Result<Self, AllocError>
        requires small { AreSmall sections.now }
        requires few { length sections.now < 18446744073709551616 }
        ensures { IfOk result (λ o. KnowsOutputs o (sections_view sections.now)) }
    {
        let mut found = HashMap::new(alloc);
        for section in sections {
            let name = section.name.as_str();
            let before = output_or_none(found.get(name).copied());
            let output = Output {
                size: before.size + u128::from(body_size(&section.body)),
                initialised: before.initialised || has_words(&section.body),
            };
            found.insert(name, output)?;
        }
        Ok(Outputs { found })
    }

    /// The sum of the sections of a name, if there are any.
    pub(crate) fn get(&self, name: &str) -> Option<Output>
        ensures { (sections : List SectionData) → KnowsOutputs self.now sections → result ≡ output_of name.now sections }
    {
        self.found.get(name).copied()
    }
}
