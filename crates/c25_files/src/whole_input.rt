//! Reading all that a reader has left.

ghost use Rattle.std.specs.Prelude.{◌≡◌, ◌≤◌, IfOk, IfSome, OnOk, length, string_bytes};
ghost use Rattle.std.specs.Io.KnownBytes.{IsAtEnd};
ghost use Rattle.c25_files.specs.Whole.{IsAllOf};

use c25_meaning_common::failure::Failure;
use std::alloc::Global;
use std::io::Read;
use thiserror::Error;

/// How many bytes a text may have.
const LIMIT: usize = 16_777_216;

/// The fault of a text that cannot be read: a read failed or there were too many, a byte past the limit came,
/// or the bytes are not UTF-8 (8).
#[derive(Clone, Copy, Debug, Error)]
#[error("{}", self.name())]
pub struct CannotRead;

impl CannotRead {
    ghost use Rattle.std.specs.Prelude.{◌≡◌, codes};

    /// The name of the fault shown to the user.
    pub fn name(&self) -> &'static str
        ensures { result.now ≡ codes "CannotRead" }
    {
        "CannotRead"
    }
}

/// All bytes that a reader has left, however its reads cut them. `CannotRead` (8) where a read fails, where
/// 33,554,432 reads bring no end, and where there are more than 16,777,216 bytes; `NoMemory` (9) where memory
/// runs out.
pub fn read_bytes<R: Read>(alloc: Global, reader: &mut R) -> Result<Vec<u8>, Failure<CannotRead>>
    ensures ok { IfOk result (λ bytes. IsAllOf (R.remaining reader.old) bytes.items) }
    ensures end { OnOk result (IsAtEnd (R.remaining reader.new)) }
{
    let mut bytes = Vec::new(alloc);
    let mut buffer = [0u8; 4096];
    for _ in 0..33_554_432 {
        let Ok(count) = reader.read(&mut buffer) else {
            return Err(Failure::Fault(CannotRead));
        };
        if count == 0 {
            return Ok(bytes);
        }
        if LIMIT.saturating_sub(bytes.len()) < count {
            return Err(Failure::Fault(CannotRead));
        }
        bytes.extend_from_slice(&buffer[..count])?;
    }
    Err(Failure::Fault(CannotRead))
}

/// All that a reader has left, as a text. `CannotRead` (8) where `read_bytes` says so, and where the bytes
/// are not UTF-8; `NoMemory` (9) where memory runs out.
pub fn read_text<R: Read>(alloc: Global, reader: &mut R) -> Result<String, Failure<CannotRead>>
    ensures ok { IfOk result (λ text. IsAllOf (R.remaining reader.old) (string_bytes text)) }
    ensures end { OnOk result (IsAtEnd (R.remaining reader.new)) }
{
    let bytes = read_bytes(alloc, reader)?;
    match String::from_utf8(bytes) {
        Ok(text) => Ok(text),
        Err(_not_utf8) => Err(Failure::Fault(CannotRead)),
    }
}
