//! The address that a command file gives `.bss`.

ghost use Rattle.std.specs.Prelude.{◌≡◌, Ok, IfOk, IfSome};
ghost use Rattle.c25_cmd.specs.View.{command_data, placings_of, target_of};
ghost use Rattle.c25_meaning_linking.specs.CommandText.{command_of};
ghost use Rattle.c25_meaning_linking.specs.GoodMap.{placings_for};
ghost use Rattle.c25_moving.specs.BssPlace as meaning;

use c25_cmd::{Command, Placing, Target, read_command};
use c25_meaning_common::failure::Failure;
use c25_meaning_common::no_memory::NoMemory;
use std::alloc::Global;

/// The address that a command gives `.bss`, and its page.
#[derive(Clone, Copy)]
pub(crate) struct Given {
    pub address: u32,
    pub page: u8,
}

/// The address of a target, with its page.
fn given_at(target: &Target, page: Option<u8>) -> Option<Given>
    ensures { result ≡ meaning.given_at (target_of target.now) page }
{
    match target {
        Target::At(address) => Some(Given {
            address: *address,
            page: page.unwrap_or(0),
        }),
        Target::InRange(_) => None,
        Target::Anywhere => None,
    }
}

/// The address that placings give `.bss`.
#[tactic(auto, unfolding(crate::specs::BssPlace::given_in))]
fn given_in(placings: &[Placing]) -> Option<Given>
    ensures { result ≡ meaning.given_in (placings_of placings.now) }
{
    for placing in placings {
        if placing.name.as_str() == ".bss" {
            return given_at(&placing.target, placing.page);
        }
    }
    None
}

/// The address that a command gives `.bss`, if it does.
#[tactic(auto, unfolding(crate::specs::BssPlace::given_in))]
pub(crate) fn given_of(command: &Command) -> Option<Given>
    ensures { result ≡ meaning.given_in (placings_for (command_data command.now)) }
{
    match &command.sections {
        Some(placings) => given_in(placings.as_slice()),
        None => None,
    }
}

/// The command of a text, if the text is one.
pub(crate) fn command_in(alloc: Global, text: &str) -> Result<Option<Command>, NoMemory>
    ensures { IfOk result (λ o. IfSome o (λ c. command_of text.now ≡ Ok (command_data c))) }
{
    match read_command(alloc, text) {
        Ok(command) => Ok(Some(command)),
        Err(Failure::NoMemory(error)) => Err(error),
        Err(Failure::Fault(_)) => Ok(None),
    }
}

/// The address that the command of a text gives `.bss`, if the text is a command and gives one.
#[tactic(auto, using(crate::proofs::BssGiven::gives_by))]
pub(crate) fn given_by(alloc: Global, text: &str) -> Result<Option<Given>, NoMemory>
    ensures { IfOk result (λ o. IfSome o (meaning.Gives text.now)) }
{
    match command_in(alloc, text) {
        Ok(Some(command)) => Ok(given_of(&command)),
        Ok(None) => Ok(None),
        Err(error) => Err(error),
    }
}
