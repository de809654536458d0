//! One line of a hex text.

ghost use Rattle.std.specs.Prelude.{◌≡◌, ◌≤◌, ◌+◌, length, sum, slice_index, IsTrue, OnOk, IfOk, MatchResult, Ok, Err};
ghost use Rattle.std.specs.List.{list_all};
ghost use Rattle.hex.specs.Hex.{is_hex_digit};
ghost use Rattle.c25_hex.specs.Hex as spec;
ghost use Rattle.c25_meaning_common.specs.Results.{Meets};
ghost use Rattle.c25_hex.specs.View.{code_of};

use crate::hex_fault::HexFault;
use crate::kind::Kind;
use c25_meaning_common::failure::Failure;
use std::alloc::Global;

fn is_hex_digit(byte: u8) -> bool
    ensures { result ≡ is_hex_digit byte }
{
    (byte >= b'A' && byte <= b'F')
        || (byte >= b'a' && byte <= b'f')
        || (byte >= b'0' && byte <= b'9')
}

fn all_digits(digits: &[u8]) -> bool
    ensures { result ≡ list_all is_hex_digit digits.now }
{
    digits.iter().all(|byte| is_hex_digit(*byte))
}

/// The bytes of a line: pairs of digits after the `:`.
#[tactic(auto, unfolding(crate::specs::Hex::bytes_of))]
pub(crate) fn bytes_of(alloc: Global, line: &[u8]) -> Result<Vec<u8>, Failure<HexFault>>
    ensures { Meets (λ bytes. bytes.items) (spec.bytes_of line.now) result }
{
    if line.is_empty() || line[0] != b':' {
        return Err(Failure::Fault(HexFault::BadStart));
    }
    let digits = &line[1..];
    if !all_digits(digits) {
        return Err(Failure::Fault(HexFault::BadDigit));
    }
    let mut bytes = vec![in alloc; 0u8; digits.len() / 2]?;
    match hex::decode_to_slice(digits, &mut bytes) {
        Ok(()) => Ok(bytes),
        Err(_) => Err(Failure::Fault(HexFault::BadCount)),
    }
}

/// The sum of a line's bytes.
pub(crate) fn sum_of(bytes: &[u8]) -> u32
    requires { length bytes.now ≤ 260 }
    ensures { result ≡ sum bytes.now }
{
    let mut total = 0;
    for byte in bytes {
        total += u32::from(*byte);
    }
    total
}

/// The record type of a line, once its count and its sum are right.
#[tactic(auto, unfolding(crate::specs::Hex::checked_line))]
pub(crate) fn kind_of(bytes: &[u8]) -> Result<Kind, HexFault>
    ensures checked { MatchResult result (λ _. spec.checked_line bytes.now ≡ Ok bytes.now) (λ f. spec.checked_line bytes.now ≡ Err f) }
    ensures kind { IfOk result (λ kind. code_of kind ≡ slice_index bytes.now 3) }
    ensures long { OnOk result (5 ≤ length bytes.now) }
    ensures counted { OnOk result (length bytes.now ≡ slice_index bytes.now 0 + 5) }
    ensures fits { OnOk result (IsTrue (spec.count_fits (slice_index bytes.now 3) (slice_index bytes.now 0))) }
{
    if bytes.len() < 5 || bytes.len() != bytes[0] as usize + 5 {
        return Err(HexFault::BadCount);
    }
    if sum_of(bytes) % 256 != 0 {
        return Err(HexFault::BadSum);
    }
    let Some(kind) = Kind::from_byte(bytes[3]) else {
        return Err(HexFault::BadKind);
    };
    if !kind.has_count(bytes[0]) {
        return Err(HexFault::BadCount);
    }
    Ok(kind)
}
