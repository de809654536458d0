//! Printing of texts and bytes.

ghost use Rattle.std.specs.Prelude.{◌≡◌, ◌++◌, ◌≤◌, IfOk, OnErr, OnOk, codes, length, take};
ghost use Rattle.std.specs.Io.KnownBytes.{Appends, Keeps};
ghost use Rattle.c25_report.specs.declared.ending.Ending.TheVariants as ending;
ghost use Rattle.c25_report.specs.Ending.{HasFront, IsPrinted, ending_of};

use crate::ending::Ending;
use c25_board::board::Outcome;
use std::io;
use std::io::{ErrorKind, Write};

/// A text could not be written to its end. A value of this type is made in this file alone, where a writer failed
/// or took nothing of what was left, so it shows that one did.
#[derive(Clone, Copy)]
pub struct Unwritten {
    refused: (),
}

/// A writer failed, or took nothing.
const UNWRITTEN: Unwritten = Unwritten { refused: () };

/// Writes the first of these bytes, and answers how many: 0 where the write was interrupted. `Unwritten`
/// where the writer took none or failed.
fn write_some<O: Write>(bytes: &[u8], out: &mut O) -> Result<usize, Unwritten>
    ensures most { IfOk result (λ count. count ≤ length bytes.now) }
    ensures ok { IfOk result (λ count. Appends (O.contents out.old) (O.contents out.new) (take count bytes.now)) }
    ensures err { OnErr result (Keeps (O.contents out.old) (O.contents out.new)) }
{
    match out.write(bytes) {
        Ok(0) => Err(UNWRITTEN),
        Ok(count) => Ok(count),
        Err(error) => {
            if error.kind() == ErrorKind::Interrupted {
                return Ok(0);
            }
            Err(UNWRITTEN)
        }
    }
}

/// Prints bytes. `Unwritten` where the writer fails or takes none of the bytes that are left; an interrupted
/// write is tried again. After an error some of the first bytes may have been printed.
#[tactic(auto, using(crate::proofs::Fronts::more_written))]
pub fn print_bytes<O: Write>(bytes: &[u8], out: &mut O) -> Result<(), Unwritten>
    ensures ok { OnOk result (Appends (O.contents out.old) (O.contents out.new) bytes.now) }
    ensures err { OnErr result (HasFront bytes.now (O.contents out.old) (O.contents out.new)) }
{
    let mut rest = bytes;
    for _turn in 0..u64::MAX {
        if rest.is_empty() {
            return Ok(());
        }
        match write_some(rest, out) {
            Ok(count) => rest = rest.split_at(count).1,
            Err(unwritten) => return Err(unwritten),
        }
    }
    Err(UNWRITTEN)
}

/// Prints a text. `Unwritten` as for [`print_bytes`]: some of the text's first bytes may then have been
/// printed.
pub fn print_text<O: Write>(text: &str, out: &mut O) -> Result<(), Unwritten>
    ensures ok { OnOk result (Appends (O.contents out.old) (O.contents out.new) text.now) }
    ensures err { OnErr result (HasFront text.now (O.contents out.old) (O.contents out.new)) }
{
    print_bytes(text.as_bytes(), out)
}

/// How the program ends after a printed run with this outcome.
pub fn ending_of(outcome: Outcome) -> Ending
    ensures { result ≡ ending_of outcome }
{
    match outcome {
        Outcome::Ran => Ending::Done,
        Outcome::Left(_, _) => Ending::Left,
        Outcome::SinkFault(_) => Ending::Sunk,
    }
}

/// Prints the answers of a debugger. The ending is `Done`, or `Unprinted` where they cannot be written.
pub fn print_answers<O: Write>(text: &str, out: &mut O) -> Ending
    ensures { IsPrinted text.now ending.Done result (O.contents out.old) (O.contents out.new) }
{
    match print_text(text, out) {
        Ok(()) => Ending::Done,
        Err(_) => Ending::Unprinted,
    }
}

/// Prints a line. No contract says what was printed after an error, since std's `Write` says nothing of that.
pub(crate) fn print_line<E: Write>(line: &str, err: &mut E) -> io::Result<()>
    ensures { OnOk result (Appends (E.contents err.old) (E.contents err.new) (line.now ++ codes "\n")) }
{
    writeln!(err, "{line}")
}
