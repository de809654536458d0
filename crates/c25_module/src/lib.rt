//! Modules of relocatable words: the lists that a module consists of, which lists are a module's, and
//! the type of lists that are.
#![tactic(auto)]

mod differing;
mod fits;
mod made;
mod making;
mod names;
mod parts;
mod sized;
mod spelling;

pub use differing::MAX_SYMBOLS;
pub use fits::{
    block_fits, line_fits, mark_fits, relocation_fits, section_fits, symbol_stands, used_with,
};
pub use made::Module;
pub use making::module;
pub use names::{is_section_name, is_symbol_name};
pub use parts::{Body, Parts, Section, Symbol};
pub use spelling::spells;
