//! Modules and their object records under one name: a front over `c25_module` (modules and their lists) and
//! `c25_records` (the records of an object, written and read).
#![tactic(auto)]

pub use c25_module::{
    Body, MAX_SYMBOLS, Module, Parts, Section, Symbol, is_section_name, is_symbol_name, module,
    spells,
};
pub use c25_records::{read_module, write_module};
