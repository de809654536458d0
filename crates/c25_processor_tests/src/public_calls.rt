//! Each public call of the crates of the machine, by its name at the root of its crate.

ghost use Rattle.std.specs.Prelude.{◌≡◌, IfOk};
ghost use Rattle.c25_board.specs.Board.{steps};

use crate::bench::Bench;
use crate::values::equal;
use bitflags::Flags;
use c25_alu::{Acc, ProductShift, add, norm, product, shift_left, shifted_product, subc, subtract};
use c25_board::{
    Board, Feed, FixedSink, ListSink, Outcome, Samples, Sink, read_samples, read_schedule,
};
use c25_cmd::read_command;
use c25_core::{Core, Halt, Tick};
use c25_debug::{Session, read_script};
use c25_isa::{decode, encode, mnemonic, show, size_of};
use c25_link::{Image, link};
use c25_meaning::{
    Addr, Insn, Mark, MemName, Mnemonic, Regs, ShortName, Spelling, Stop, WordMap, marks_fit,
    run_marks_fit,
};
use c25_meaning_processor::lines::Lines;
use c25_meaning_processor::script::Cmd;
use std::alloc::Global;
use std::process::Abort;
use std::test::Fail;

/// 7FFFFFFFh plus 1 under OVM, less 1, and one step of its division by 7; -1 times 2, shifted left by 1 and then
/// by `NORM`.
#[test]
fn the_data_path(rt: HostRuntime) {
    let mut acc = Acc {
        value: 0x7fff_ffff,
        ov: false,
        c: false,
    };
    add(&mut acc, 1, true);
    subtract(&mut acc, 1, true);
    let quotient = subc(acc, shift_left(7, 15));
    equal(&rt, [acc.value, quotient.value], [0x7fff_fffe, 0xfff8_fffd]);
    let shifted = shifted_product(product(-1, 2), ProductShift::Left1);
    equal(
        &rt,
        (shifted, norm(shifted)),
        (0xffff_fffc, Some(0xffff_fff8)),
    );
}

/// `LACK 9`, encoded, decoded and found by its name.
#[test]
fn the_instruction_set(rt: HostRuntime) -> Result<(), Fail> {
    let lack = Insn::Short(ShortName::Lack, 0, 9);
    equal(&rt, encode(&lack).as_slice(), &[0xca09]);
    let is_read = matches!(decode(0xca09, 0), Some(Insn::Short(ShortName::Lack, _, 9)));
    let row = Mnemonic::Short(ShortName::Lack);
    let found = (is_read, size_of(row), mnemonic("lack"));
    equal(&rt, found, (true, 1, Some(Spelling::Row(row))));
    equal(&rt, show(rt.alloc(), &lack)?.as_str(), "LACK 9");
    Ok(())
}

/// A map of one word, and the place of one instruction.
#[test]
fn words_and_marks(rt: HostRuntime) -> Result<(), Fail> {
    let mut words = WordMap::new(rt.alloc());
    words.insert(0x40, 0xca09)?;
    equal(
        &rt,
        [words.get(0x40), words.get(0x41)],
        [Some(0xca09), None],
    );
    let mark = Mark {
        address: 0x40,
        size: 1,
    };
    equal(
        &rt,
        [marks_fit(&[mark]), marks_fit(&[mark, mark])],
        [true, false],
    );
    Ok(())
}

/// `LT 60h` once, after which there is no code.
fn runs_out(rt: &impl Abort, bench: &mut Bench) {
    let mut core = Core::new();
    let answers = [
        core.step(Lines::empty(), true, bench),
        core.step(Lines::empty(), true, bench),
    ];
    let out: Result<Tick, Halt> = Err(Halt::Stop(Stop::OutOfCode));
    equal(rt, answers, [Ok(Tick::Ran), out]);
    let registers: Regs = core.regs();
    equal(rt, registers.pc, 1);
}

#[test]
fn the_processor(rt: HostRuntime) -> Result<(), Fail> {
    let mut bench = Bench::new(rt.alloc())?;
    let placed = bench.place_insn(0, &Insn::Mem(MemName::Lt, Addr::Direct(0x60)));
    runs_out(&rt, &mut bench);
    placed.map(|_| ()).map_err(Fail::from)
}

/// A board over an image, with one sample of port 2 and an empty schedule.
fn board_over(alloc: Global, image: &Image) -> Result<Board<Samples, ListSink>, Fail>
    ensures { IfOk result (λ board. steps board ≡ 0) }
{
    let (marks, run_marks) = (image.marks(), image.run_marks());
    if !marks_fit(marks) || !run_marks_fit(marks, run_marks) {
        return Err(Fail::from("these are no places of instructions"));
    }
    let (page0, page1) = (image.words(0), image.words(1));
    let schedule = read_schedule(alloc, "")?;
    let samples = read_samples(alloc, "2 000A\n")?;
    let sink = ListSink::new(alloc);
    Ok(Board::new(
        alloc, page0, page1, marks, run_marks, schedule, samples, sink,
    )?)
}

/// A program without words: the first step leaves the code.
fn leaves_the_code(rt: &impl Abort, board: &mut Board<Samples, ListSink>)
    requires { steps board.old ≡ 0 }
{
    equal(rt, board.run(1), Outcome::Left(0, Stop::OutOfCode));
    equal(rt, board.sink().words(), &[]);
}

/// What a session answers to `break 40`.
fn sets_a_breakpoint(
    rt: &impl Abort,
    session: &mut Session<'_, Samples, ListSink>,
) -> Result<(), Fail> {
    let answer = session.command(&Cmd::Break(0x40))?;
    equal(rt, answer.as_str(), "set 0040\n");
    Ok(())
}

/// A board and a session over a program without words.
#[test]
fn the_board_and_the_debugger(rt: HostRuntime) -> Result<(), Fail> {
    let command = read_command(rt.alloc(), "")?;
    let image = link(rt.alloc(), &[], &command)?;
    let mut board = board_over(rt.alloc(), &image)?;
    leaves_the_code(&rt, &mut board);
    let mut session = Session::new(rt.alloc(), board, &image);
    sets_a_breakpoint(&rt, &mut session)
}

#[test]
fn feeds_sinks_and_scripts(rt: HostRuntime) -> Result<(), Fail> {
    let mut samples = read_samples(rt.alloc(), "2 000A\n")?;
    equal(&rt, [samples.take(2), samples.take(2)], [Some(10), None]);
    let mut sink = FixedSink::<1>::new();
    let put = [sink.put(3, 10).is_ok(), sink.put(3, 11).is_ok()];
    equal(&rt, put, [true, false]);
    let script = read_script(rt.alloc(), "break 40\n")?;
    let is_read = matches!(script.as_slice(), [Cmd::Break(0x40)]);
    equal(&rt, is_read, true);
    Ok(())
}
