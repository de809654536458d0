//! The plain types of the processor, of instructions and of the images of programs, under one name for users
//! of the repository, whose own crates use the crates of definitions instead.
#![tactic(auto)]

pub use c25_meaning_common::failure::Failure;
pub use c25_meaning_common::no_memory::NoMemory;
pub use c25_meaning_image::mark::{Mark, RunMark};
pub use c25_meaning_image::marks::{marks_fit, run_marks_fit};
pub use c25_meaning_image::word_map::WordMap;
pub use c25_meaning_instructions::insn::{Addr, Change, Insn, PlainOperand};
pub use c25_meaning_instructions::mnemonic::{
    ArMemName, BitName, JumpName, LongMemName, LongName, MemName, Mnemonic, PlainName, PortName,
    ShiftedName, ShortName, Spelling,
};
pub use c25_meaning_processor::registers::Regs;
pub use c25_meaning_processor::stop::Stop;
