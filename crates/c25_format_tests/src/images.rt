//! Tests of binary images, of hints for them, and of the texts of their parts. Words were taken apart by hand:
//! FF80 is `B` with a second word, CE26 `RET` (SPRU014, "Instruction Set Summary").

use crate::values::equal;
use c25_binary::binary_fault::BinaryFault;
use c25_binary::{words_of_file, words_of_pair};
use c25_layout::{command_text, parts_of_words, read_hints, source_text};
use c25_meaning_common::failure::Failure;
use c25_meaning_common::no_memory::NoMemory;
use c25_meaning_image::word_map::WordMap;
use c25_reach::{reach_line, reach_of};
use c25_rom::byte_order::ByteOrder;
use std::alloc::Global;

/// The first two words of an answer, or its fault.
fn first_two(
    answer: Result<WordMap, Failure<BinaryFault>>,
) -> Result<[Option<u16>; 2], Failure<BinaryFault>> {
    let words = answer?;
    Ok([words.get(0), words.get(1)])
}

#[test]
fn bytes_are_words(rt: HostRuntime) {
    let alloc = rt.alloc();
    let pair = words_of_pair(alloc, &[0xFF, 0x00], &[0x80, 0x20]);
    equal(&rt, first_two(pair), Ok([Some(0xFF80), Some(0x0020)]));
    let file = words_of_file(alloc, ByteOrder::LowFirst, &[0x80, 0xFF]);
    equal(&rt, first_two(file), Ok([Some(0xFF80), None]));
}

#[test]
fn half_words_are_refused(rt: HostRuntime) {
    let alloc = rt.alloc();
    let differ = words_of_pair(alloc, &[0xFF], &[]);
    let odd = words_of_file(alloc, ByteOrder::HighFirst, &[0xFF, 0x80, 0x00]);
    equal(
        &rt,
        first_two(differ),
        Err(Failure::Fault(BinaryFault::LengthsDiffer)),
    );
    equal(
        &rt,
        first_two(odd),
        Err(Failure::Fault(BinaryFault::OddLength)),
    );
}

/// How many hints a text has, or the number of its first faulty line; 0 out of memory.
fn hints_in(alloc: Global, text: &str) -> Result<usize, usize> {
    match read_hints(alloc, text) {
        Ok(hints) => Ok(hints.len()),
        Err(Failure::Fault(fault)) => Err(fault.place),
        Err(Failure::NoMemory(_)) => Err(0),
    }
}

#[test]
fn hints_are_read_line_by_line(rt: HostRuntime) {
    let alloc = rt.alloc();
    let all =
        "; what is known\ncode 34;by its PC\n\nTABLE 42 3 2\nlabel 20 START\nrun 100 3 FF00\n";
    equal(&rt, hints_in(alloc, all), Ok(4));
    equal(&rt, hints_in(alloc, "code 34\ndata FFFF 2\n"), Err(2));
    equal(&rt, hints_in(alloc, "label 20 2ND\n"), Err(1));
    equal(&rt, hints_in(alloc, "run 100 3 0200\n"), Err(1));
}

/// A program with a gap: `B 3` at 0, two erased words at 10h, `RET` at 3.
fn with_a_gap(alloc: Global) -> Result<WordMap, NoMemory> {
    let mut words = WordMap::new(alloc);
    for (address, word) in [
        (0, 0xFF80),
        (1, 3),
        (3, 0xCE26),
        (0x10, 0xFFFF),
        (0x11, 0xFFFF),
    ] {
        words.insert(address, word)?;
    }
    Ok(words)
}

/// The source and the command file of the program with a gap.
fn texts(alloc: Global, blank: u32) -> Result<(String, String), NoMemory> {
    let words = with_a_gap(alloc)?;
    let parts = parts_of_words(alloc, &words, &[], blank)?;
    let source = source_text(alloc, &parts)?;
    Ok((source, command_text(alloc, &parts)?))
}

/// The source of the program with a gap, without its erased words.
const SOURCE: &str =
    "\t.sect \"p0000\"\nL0000\tB L0003,*\t; 0000\n\t.sect \"p0003\"\nL0003\tRET\t; 0003\n";

/// Its command file.
const COMMAND: &str =
    "SECTIONS\n{\n  p0000 : load = 00000h PAGE 0\n  p0003 : load = 00003h PAGE 0\n}\n";

#[test]
fn an_image_is_a_source(rt: HostRuntime) -> Result<(), NoMemory> {
    let (source, command) = texts(rt.alloc(), 2)?;
    equal(&rt, source.as_str(), SOURCE);
    equal(&rt, command.as_str(), COMMAND);
    let (longer, _) = texts(rt.alloc(), 3)?;
    equal(
        &rt,
        longer.as_str().ends_with("\t.word 0FFFFh,0FFFFh\t; 0010\n"),
        true,
    );
    Ok(())
}

/// The line of what was reached of the program with a gap, which has five words.
fn reached(alloc: Global, blank: u32) -> Result<String, NoMemory> {
    let words = with_a_gap(alloc)?;
    let parts = parts_of_words(alloc, &words, &[], blank)?;
    reach_line(alloc, "old", 5, &reach_of(&parts))
}

#[test]
fn what_was_reached_is_counted(rt: HostRuntime) -> Result<(), NoMemory> {
    let all = reached(rt.alloc(), 0)?;
    let wanted = "old: 5 words, 2 instructions (3 words), 2 data, 0 left out as blank\n";
    equal(&rt, all.as_str(), wanted);
    let fewer = reached(rt.alloc(), 2)?;
    let wanted = "old: 5 words, 2 instructions (3 words), 0 data, 2 left out as blank\n";
    equal(&rt, fewer.as_str(), wanted);
    Ok(())
}
