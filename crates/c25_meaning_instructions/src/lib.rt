//! The instruction set: mnemonics and instructions, the opcode table, spellings and printed texts; and laws
//! of the instruction set.
#![tactic(auto)]

pub mod insn;
pub mod laws;
pub mod mnemonic;
