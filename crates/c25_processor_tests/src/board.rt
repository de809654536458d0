//! A board with a program of six instructions, a sink of a fixed size, and what they print.

ghost use Rattle.std.specs.Prelude.{◌≡◌, IfOk};
ghost use Rattle.c25_board.specs.Board.{steps};

use crate::values::equal;
use c25_board::board::{Board, Outcome};
use c25_board::fixed_sink::FixedSink;
use c25_board::ports::{ListSink, NoSamples, Sink};
use c25_board::schedule::read_schedule;
use c25_core::{Halt, SinkFailed};
use c25_meaning_common::no_memory::NoMemory;
use c25_meaning_image::mark::Mark;
use c25_meaning_image::marks::marks_fit;
use c25_meaning_image::word_map::WordMap;
use c25_meaning_processor::stop::Stop;
use std::alloc::Global;
use std::fmt::Display;
use std::process::Abort;
use std::test::Fail;

/// `LDPK 4`, `LACK 65`, `SACL 0`, `OUT 0,PA1`, `CNFP` and a branch to itself (SPRU014, the instructions' pages).
const PROGRAM: [u16; 7] = [0xc804, 0xca41, 0x6000, 0xe100, 0xce05, 0xff80, 0x0005];

/// The places of the instructions of `PROGRAM`.
const MARKS: [Mark; 6] = [
    Mark {
        address: 0,
        size: 1,
    },
    Mark {
        address: 1,
        size: 1,
    },
    Mark {
        address: 2,
        size: 1,
    },
    Mark {
        address: 3,
        size: 1,
    },
    Mark {
        address: 4,
        size: 1,
    },
    Mark {
        address: 5,
        size: 2,
    },
];

/// A page with these words from address 0 on.
fn page_of(alloc: Global, words: &[u16]) -> Result<WordMap, NoMemory> {
    let mut page = WordMap::new(alloc);
    let mut address: u16 = 0;
    for word in words {
        page.insert(address, *word)?;
        address = address.wrapping_add(1);
    }
    Ok(page)
}

/// A board with `PROGRAM` on page 0, an empty schedule and no samples.
fn board_with(alloc: Global, page: &WordMap) -> Result<Board<NoSamples, ListSink>, Fail>
    ensures { IfOk result (λ board. steps board ≡ 0) }
{
    if !marks_fit(&MARKS) {
        return Err(Fail::from("these are no places of instructions"));
    }
    let none = WordMap::new(alloc);
    let schedule = read_schedule(alloc, "")?;
    let sink = ListSink::new(alloc);
    Ok(Board::new(alloc, page, &none, &MARKS, &[], schedule, NoSamples, sink)?)
}

/// Two runs make one run of nine steps. Under CNF 1 block B0 reads 0 as data, while `Board::data` still has
/// its words.
fn runs_twice(rt: &impl Abort, board: &mut Board<NoSamples, ListSink>)
    requires { steps board.old ≡ 0 }
{
    let first = (board.run(2), board.sink().words().len());
    equal(rt, first, (Outcome::Ran, 0));
    let second = (board.run(7), board.sink().words().len());
    equal(rt, second, (Outcome::Ran, 1));
    equal(rt, board.sink().words(), &[(1, 0x41)]);
    let (registers, kept) = (board.regs(), board.data().get(0x200).copied());
    let counted = (board.steps(), registers.acc, board.settled(), kept);
    equal(rt, counted, (9, 0x41, true, Some(0x41)));
    let words = [board.data_at(0x200), board.prog_at(0xff00)];
    equal(rt, (registers.pc, board.pc(), words), (5, 5, [0, 0x41]));
    equal(rt, board.sink().refused(), None);
}

#[test]
fn runs_are_one_run(rt: HostRuntime) -> Result<(), Fail> {
    let page = page_of(rt.alloc(), &PROGRAM)?;
    let mut board = board_with(rt.alloc(), &page)?;
    runs_twice(&rt, &mut board);
    Ok(())
}

/// A sink of three words, filled and cleared. `show_refusals` runs a board into such a sink, and on once it
/// is cleared.
#[test]
fn cleared_sinks_take_words_again(rt: HostRuntime) {
    let mut sink = FixedSink::<3>::new();
    let taken = [
        sink.put(1, 0x41).is_ok(),
        sink.put(1, 0x41).is_ok(),
        sink.put(1, 0x41).is_ok(),
        sink.put(1, 0x41).is_ok(),
    ];
    equal(&rt, taken, [true, true, true, false]);
    equal(&rt, sink.words(), &[(1, 0x41); 3]);
    sink.clear();
    equal(&rt, sink.put(1, 0x41).is_ok(), true);
    equal(&rt, sink.words(), &[(1, 0x41)]);
}

/// Whether what is printed is this text.
fn prints<D: Display>(alloc: Global, shown: &D, text: &str) -> bool {
    match format!(in alloc; "{shown}") {
        Ok(printed) => printed.as_str() == text,
        Err(_) => false,
    }
}

#[test]
fn halts_are_printed(rt: HostRuntime) {
    let left = Halt::Stop(Stop::PortDry);
    let printed = [
        prints(rt.alloc(), &left, "the code was left: PortDry"),
        prints(rt.alloc(), &Halt::Sink, "the sink failed"),
        prints(rt.alloc(), &SinkFailed, "the sink failed"),
    ];
    equal(&rt, printed, [true; 3]);
}
