//! Faults of all kinds, without their places.

use c25_disk::fault::FileFault;
use c25_hex::hex_fault::HexFault;
use c25_meaning_language::statement::FaultKind;
use c25_meaning_linking::command_fault::CommandFault;
use c25_meaning_linking::link_fault::LinkFault;
use c25_meaning_objects::object::ObjectFault;

/// A fault without its place.
#[derive(Clone, Copy)]
pub enum AnyFault {
    /// Memory ran out (9).
    Memory,
    /// A fault of a line of a source (10 to 13, 20 to 26, 30 to 36, 38, 50 to 56).
    Source(FaultKind),
    /// A fault of the bytes of an object (40 to 45).
    Object(ObjectFault),
    /// A fault of a line of the command file (60 to 63).
    Command(CommandFault),
    /// A fault of linking (70 to 76, 78).
    Link(LinkFault),
    /// The text of a map is invalid (77).
    Map,
    /// A word has no place in the EPROMs (79).
    Rom,
    /// A fault of a line of a hex text (80 to 89).
    Hex(HexFault),
    /// A line of the schedule is invalid (90).
    Schedule,
    /// A line of the samples is invalid (91).
    Samples,
    /// A line of a debugger's script is invalid (95).
    Script,
    /// A line of the hints for an image is invalid (92).
    Hint,
    /// A binary file has an odd number of bytes (93).
    OddLength,
    /// The files of a pair differ in length (94).
    LengthsDiffer,
    /// A binary file has more words than program memory (96).
    TooLong,
    /// An image comes to more sections than a module may have (97).
    TooManySections,
    /// A fault of a file (7, 8, 37).
    File(FileFault),
}
