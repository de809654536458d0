//! One example of each call of the processor, and steps that stop.

use crate::bench::Bench;
use crate::values::equal;
use bitflags::Flags;
use c25_core::{Bus, Core, Halt, QuickInsn, Tick, keeps_words, quick_of};
use c25_meaning_common::no_memory::NoMemory;
use c25_meaning_instructions::insn::{Addr, Change, Insn, PlainOperand};
use c25_meaning_instructions::mnemonic::{JumpName, MemName, PlainName, PortName, ShortName};
use c25_meaning_processor::lines::Lines;
use c25_meaning_processor::stop::Stop;
use std::process::Abort;
use std::test::Fail;

/// `LACK 9` (SPRU014, the instruction's page).
const LACK_9: u16 = 0xCA09;

/// One step without lines.
fn step(core: &mut Core, bench: &mut Bench) -> Result<Tick, Halt> {
    core.step(Lines::empty(), true, bench)
}

/// `CNFP` and a branch to block B0, where `LACK 9` stands that is loaded at 40h.
fn place_copied(bench: &mut Bench) -> Result<(), NoMemory> {
    let at = bench.place_insn(0, &Insn::Plain(PlainName::Cnfp, PlainOperand::Nothing))?;
    bench.place_insn(at, &Insn::Jump(JumpName::B, 0xFF00, Change::Keep, None))?;
    bench.set_program(0x40, LACK_9);
    bench.set_data(0x200, LACK_9);
    bench.place_in_b0(0xFF00, 0x40, 1)
}

/// Where the `LACK` in block B0 that comes next is loaded and runs, its size, and its number.
fn copied_lack(core: &Core, bench: &Bench) -> Option<(u16, u16, u16, i16)> {
    let mark = core.run_mark(bench)?;
    match core.copied(&mark, bench) {
        Some(Insn::Short(ShortName::Lack, _, number)) => {
            Some((mark.load, mark.run, mark.size, number))
        }
        _ => None,
    }
}

/// The processor goes to the copied instruction, and runs it.
fn runs_copied(rt: &impl Abort, bench: &mut Bench) {
    let mut core = Core::new();
    let steps = [step(&mut core, bench), step(&mut core, bench)];
    equal(rt, steps, [Ok(Tick::Ran); 2]);
    equal(rt, [core.is_in_b0(), core.settled()], [true; 2]);
    let words = [core.data_at(0x200, bench), core.program_at(0xFF00, bench)];
    equal(rt, (core.pc(), words), (0xFF00, [0, LACK_9]));
    equal(rt, copied_lack(&core, bench), Some((0x40, 0xFF00, 1, 9)));
    let third = step(&mut core, bench);
    let after = core.regs();
    equal(rt, (third, after.pc, after.acc), (Ok(Tick::Ran), 0xFF01, 9));
}

#[test]
fn copied_code_runs_in_b0(rt: HostRuntime) -> Result<(), Fail> {
    let mut bench = Bench::new(rt.alloc())?;
    let placed = place_copied(&mut bench);
    runs_copied(&rt, &mut bench);
    placed.map_err(Fail::from)
}

#[test]
fn instructions_are_read_beforehand(rt: HostRuntime) {
    let lack = Insn::Short(ShortName::Lack, 0, 9);
    let write = Insn::Mem(MemName::Tblw, Addr::Direct(0x60));
    let found = [
        matches!(quick_of(&lack), QuickInsn::Lack(_, 9)),
        keeps_words(&lack),
        keeps_words(&write),
    ];
    equal(&rt, found, [true, true, false]);
}

/// `IN 60h,PA2` and `OUT 60h,PA3`.
fn place_ports(bench: &mut Bench) -> Result<u16, NoMemory> {
    let at = bench.place_insn(0, &Insn::Port(PortName::In, Addr::Direct(0x60), 2))?;
    bench.place_insn(at, &Insn::Port(PortName::Out, Addr::Direct(0x60), 3))
}

/// A step without lines, and whether the registers are as before.
fn step_and_keep(core: &mut Core, bench: &mut Bench) -> (Result<Tick, Halt>, bool) {
    let before = core.regs();
    let answer = step(core, bench);
    (answer, core.regs() == before)
}

/// A port without a sample and a closed sink: the step changes nothing, and is tried again.
fn stops_twice(rt: &impl Abort, bench: &mut Bench) {
    let mut core = Core::new();
    let dry = step_and_keep(&mut core, bench);
    bench.samples[2] = Some(0xFF);
    let taken = step(&mut core, bench);
    bench.closed = true;
    let closed = step_and_keep(&mut core, bench);
    bench.closed = false;
    let put = step(&mut core, bench);
    let stops = [
        (Err(Halt::Stop(Stop::PortDry)), true),
        (Err(Halt::Sink), true),
    ];
    equal(rt, [dry, closed], stops);
    equal(rt, [taken, put], [Ok(Tick::Ran); 2]);
    let outputs = (bench.outputs.len(), bench.outputs.first().copied());
    equal(rt, outputs, (1, Some((3, 0xFF))));
}

#[test]
fn a_step_that_stops_changes_nothing(rt: HostRuntime) -> Result<(), Fail> {
    let mut bench = Bench::new(rt.alloc())?;
    let placed = place_ports(&mut bench);
    stops_twice(&rt, &mut bench);
    placed.map(|_| ()).map_err(Fail::from)
}
