//! Modules, linked under the text of a command file.

ghost use Rattle.std.specs.Prelude.{IfOk};
ghost use Rattle.c25_cmd.specs.View.{command_data};
ghost use Rattle.c25_meaning_linking.specs.Command.{IsCommand};
ghost use Rattle.c25_meaning_linking.specs.CommandText.{command_of};
ghost use Rattle.c25_meaning_common.specs.Results.{MeetsBy, told};
ghost use Rattle.c25_chain.specs.Linked.{AreTextsOf, HasTextsOf, Links, LinksText, LinksUnder};
ghost use Rattle.c25_chain.specs.Refusal.{refusal_of};
ghost use Rattle.c25_chain.specs.declared.fault.ChainFault.TheVariants as refusal;

use crate::fault::{ChainFault, Fault};
use crate::page::{Page, page_of};
use c25_cmd::{Command, read_command};
use c25_link::{Image, link};
use c25_linking_laws::linking::program_maps_have_their_form;
use c25_meaning_common::failure::Failure;
use c25_meaning_common::no_memory::NoMemory;
use c25_module::Module;
use std::alloc::Global;

/// A linked program and its texts.
#[derive(Drop)]
pub struct Linked {
    pub image: Image,
    /// Program memory.
    pub page0: Page,
    /// Data memory.
    pub page1: Page,
    /// The text of the map.
    pub map: String,
}

/// Reads the text of a command file. A wrong line is fault 60 to 63.
fn command_in(alloc: Global, text: &str) -> Result<Command, Fault>
    ensures told { MeetsBy refusal_of command_data (told refusal.Command (command_of text.now)) result }
    ensures kept { IfOk result (λ command. IsCommand (command_data command)) }
{
    match read_command(alloc, text) {
        Ok(command) => Ok(command),
        Err(Failure::NoMemory(error)) => Err(error.into()),
        Err(Failure::Fault(faulty)) => Err(Failure::Fault(ChainFault::Command(faulty))),
    }
}

/// Links modules under a command. The faults are 70 to 76 and 78.
fn image_of(alloc: Global, modules: &[Module], command: &Command) -> Result<Image, Fault>
    requires { IsCommand (command_data command.now) }
    ensures { Links modules.now (command_data command.now) result }
{
    match link(alloc, modules, command) {
        Ok(image) => Ok(image),
        Err(Failure::NoMemory(error)) => Err(error.into()),
        Err(Failure::Fault(faulty)) => Err(Failure::Fault(ChainFault::Link(faulty))),
    }
}

/// Links modules under the text of a command file.
fn image_under(alloc: Global, modules: &[Module], command: &str) -> Result<Image, Fault>
    ensures { LinksText modules.now command.now result }
{
    let command = command_in(alloc, command)?;
    image_of(alloc, modules, &command)
}

/// The text of a program's map, and both of its pages.
fn map_and_pages(alloc: Global, image: &Image) -> Result<(String, Page, Page), NoMemory>
    ensures { IfOk result (λ texts. AreTextsOf image.now texts.0 texts.1 texts.2) }
{
    let map = image.write_map(alloc)?;
    let page0 = page_of(alloc, image.words(0))?;
    match page_of(alloc, image.words(1)) {
        Ok(page1) => Ok((map, page0, page1)),
        Err(error) => Err(error),
    }
}

/// An image together with its texts.
fn with_texts(alloc: Global, image: Image) -> Result<Linked, NoMemory>
    ensures { IfOk result (HasTextsOf image) }
{
    match map_and_pages(alloc, &image) {
        Ok((map, page0, page1)) => Ok(Linked {
            image,
            page0,
            page1,
            map,
        }),
        Err(error) => Err(error),
    }
}

/// Links modules under the text of a command file, and writes the map and the hex texts of both pages. The
/// faults are those of a line of the command file (60 to 63) and of linking (70 to 76 and 78).
pub fn link_modules(alloc: Global, modules: &[Module], command: &str) -> Result<Linked, Fault>
    ensures { LinksUnder modules.now command.now result }
{
    program_maps_have_their_form();
    let image = image_under(alloc, modules, command)?;
    match with_texts(alloc, image) {
        Ok(linked) => Ok(linked),
        Err(error) => Err(error.into()),
    }
}
