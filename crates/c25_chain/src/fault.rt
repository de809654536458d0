//! The faults of the chain.

use c25_disk::fault::FileFault;
use c25_hex::hex_fault::HexFault;
use c25_meaning_common::failure::Failure;
use c25_meaning_common::placed::{FileLine, Placed};
use c25_meaning_language::statement::FaultKind;
use c25_meaning_linking::command_fault::CommandFault;
use c25_meaning_linking::link_fault::LinkFault;
use c25_meaning_objects::object::ObjectFault;
use c25_meaning_processor::sample::BadSamples;
use c25_meaning_processor::schedule::BadSchedule;
use c25_meaning_processor::script::BadCommand;
use std::fmt;
use thiserror::Error;

/// A fault of the chain, with its place. The code has names as `String`, the definitions as lists of bytes.
#[derive(Debug, Drop, Error)]
#[error_bound(Name: fmt::Display)]
pub enum ChainFault<Name> {
    /// A line of a source is wrong (10 to 13, 20 to 26, 31 to 36, 38, 50 to 56).
    #[error("{0}")]
    Source(Placed<FileLine<Name>, FaultKind>),
    /// A line of a source copies a file of this name that is not there (30). Line 0 stands for the source
    /// itself.
    #[error("{file}:{line}: {}", FaultKind::NoFile)]
    NoFile { file: Name, line: usize, name: Name },
    /// The bytes of an object file are invalid (40 to 45).
    #[error("{0}")]
    Object(Placed<Name, ObjectFault>),
    /// A line of the command file is wrong (60 to 63).
    #[error("command:{0}")]
    Command(Placed<usize, CommandFault>),
    /// The modules cannot be linked (70 to 76 and 78). The place is a symbol's or a section's name.
    #[error("link:{0}")]
    Link(Placed<Name, LinkFault>),
    /// A line of a hex text is wrong (80 to 89).
    #[error("hex:{0}")]
    Hex(Placed<usize, HexFault>),
    /// A line of the schedule is wrong (90).
    #[error("schedule:{line}: {}", BadSchedule)]
    Schedule { line: usize },
    /// A line of the samples is wrong (91).
    #[error("samples:{line}: {}", BadSamples)]
    Samples { line: usize },
    /// A line of a debugger's script is wrong (95).
    #[error("script:{line}: {}", BadCommand)]
    Script { line: usize },
    /// A file cannot be written (7) or read (8), or is given as a source twice (37).
    #[error("{0}")]
    File(Placed<Name, FileFault>),
}

/// Why the chain has no answer: a fault, or out of memory.
pub type Fault = Failure<ChainFault<String>>;
