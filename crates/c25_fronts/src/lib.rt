//! What a command line says of reading sources: symbols that it defines, by a front for each source, which
//! defines them and then copies the source; and folders in which copied files are looked for.
#![tactic(auto)]

pub mod adding;
pub mod definition;
mod find;
pub mod folders;
pub mod front;
pub mod fronted;
pub mod places;
