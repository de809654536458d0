//! Samples of ports, counted, and the lines of those that were not read.

ghost use Rattle.std.specs.Prelude.{◌≡◌, ◌-◌, ◌^◌, ℕ, IfOk, length, min, string_bytes};
ghost use Rattle.c25_meaning_processor.specs.Samples.{samples_at};
ghost use Rattle.c25_unused_inputs.specs.Ports as meant;

use crate::pieces::{elsewhere_text, had_text, unread_text};
use c25_board::ports::Feed;
use c25_board::samples::Samples;
use c25_meaning_common::no_memory::NoMemory;
use std::alloc::Global;

/// How many input ports there are.
const PORTS: u16 = 16;

/// How many samples a port has left; 2^64 - 1 where it has more. They are taken; those of other ports stay.
fn take_all(samples: &mut Samples, port: u16) -> u64
    ensures count { result ≡ min (length (samples_at samples.old port)) (2 ^ 64 - 1) }
    ensures others { (other : ℕ) → (other ≡ port → ⊥) → samples_at samples.new other ≡ samples_at samples.old other }
{
    for count in 0..u64::MAX {
        if samples.take(port).is_none() {
            return count;
        }
    }
    u64::MAX
}

/// How many samples each of the ports 0 to 15 has left, 2^64 - 1 where it has more. They are taken.
pub fn counts_of(alloc: Global, samples: &mut Samples) -> Result<Vec<u64>, NoMemory>
    ensures { IfOk result (λ counts. counts.items ≡ meant.counts_of (samples_at samples.old)) }
{
    let mut counts = Vec::new(alloc);
    for port in 0..PORTS {
        counts.push(take_all(samples, port))?;
    }
    Ok(counts)
}

/// The count of a port; 0 where there is none.
pub fn count_at(counts: &[u64], port: u16) -> u64
    ensures { result ≡ meant.count_at counts.now port }
{
    match counts.get(usize::from(port)) {
        Some(count) => *count,
        None => 0,
    }
}

/// The line of a port that had samples and has so many left, if it has any.
fn unread_line(alloc: Global, port: u16, had: u64, left: u64) -> Result<String, NoMemory>
    ensures { IfOk result (λ text. string_bytes text ≡ meant.unread_line port had left) }
{
    if left == 0 {
        return Ok(String::new(alloc));
    }
    unread_text(alloc, port, had, left)
}

/// The lines of the ports of whose samples some are left, by how many each port had and has left.
pub fn unread_lines(alloc: Global, had: &[u64], left: &[u64]) -> Result<String, NoMemory>
    ensures { IfOk result (λ text. string_bytes text ≡ meant.unread_lines had.now left.now) }
{
    let mut text = String::new(alloc);
    for port in 0..PORTS {
        let line = unread_line(alloc, port, count_at(had, port), count_at(left, port))?;
        text.push_str(line.as_str())?;
    }
    Ok(text)
}

/// The line of a port that has so many samples, if it has any.
fn had_line(alloc: Global, port: u16, had: u64) -> Result<String, NoMemory>
    ensures { IfOk result (λ text. string_bytes text ≡ meant.had_line port had) }
{
    if had == 0 {
        return Ok(String::new(alloc));
    }
    had_text(alloc, port, had)
}

/// The lines of all ports that have samples.
fn had_lines(alloc: Global, had: &[u64]) -> Result<String, NoMemory>
    ensures { IfOk result (λ text. string_bytes text ≡ meant.had_below had.now 16) }
{
    let mut text = String::new(alloc);
    for port in 0..PORTS {
        let line = had_line(alloc, port, count_at(had, port))?;
        text.push_str(line.as_str())?;
    }
    Ok(text)
}

/// What is said of a port without samples where other ports have some; nothing where none has any.
pub fn elsewhere(alloc: Global, had: &[u64], port: u16) -> Result<String, NoMemory>
    ensures { IfOk result (λ text. string_bytes text ≡ meant.elsewhere had.now port) }
{
    let lines = had_lines(alloc, had)?;
    if lines.as_str().is_empty() {
        return Ok(String::new(alloc));
    }
    elsewhere_text(alloc, port, lines.as_str())
}
