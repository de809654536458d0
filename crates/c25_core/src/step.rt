//! One step, after its lines are latched and its instruction is fetched.

ghost use Rattle.std.specs.Prelude.{◌≡◌, ◌↔◌, true, IfOk};
ghost use Rattle.std.specs.Option.{ForSome};
ghost use Rattle.c25_meaning_processor.specs.Step.{is_unrepeatable, stepped};
ghost use Rattle.c25_meaning_instructions.specs.Table.{InRange};
ghost use Rattle.c25_core.specs.Met.{IsMet};

use crate::bus::{Bus, Halt, Tick};
use crate::execute::execute;
use c25_meaning_instructions::insn::Insn;
use c25_meaning_instructions::mnemonic::{MemName, PlainName, ShortName};
use c25_meaning_processor::registers::Registers;
use c25_meaning_processor::stop::Stop;

/// Whether an instruction may not be repeated.
pub fn is_unrepeatable(insn: &Insn) -> bool
    ensures { result ≡ is_unrepeatable insn.now }
{
    match insn {
        Insn::Jump(_, _, _, _) | Insn::Long(_, _, _) => true,
        Insn::Mem(name, _) => *name == MemName::Rpt,
        Insn::Short(name, _, _) => *name == ShortName::Rptk,
        Insn::Plain(name, _) => matches!(
            *name,
            PlainName::Cala | PlainName::Bacc | PlainName::Ret | PlainName::Trap | PlainName::Idle
        ),
        _ => false,
    }
}

/// Runs the instruction, unless the processor sleeps. The step stops with `OutOfCode` where there is no
/// instruction, and with `BadRepeat` where a repeat is running and the instruction may not be repeated; other
/// halts are those of `execute`.
#[tactic(auto, unfolding(c25_meaning_processor::specs::Step::stepped))]
pub fn turn<B: Bus>(
    registers: &mut Registers,
    bus: &mut B,
    insn: &Option<Insn>,
    bio: bool,
) -> Result<Tick, Halt>
    requires { ForSome insn.now InRange }
    ensures met { IsMet (stepped bio insn.now registers.old (B.world bus.old))
        result registers.new (B.world bus.old) (B.world bus.new)
        (B.failures bus.old) (B.failures bus.new) }
    ensures tick { IfOk result (λ tick. (tick ≡ Tick.Slept) ↔ (registers.old.asleep ≡ true)) }
{
    if registers.asleep {
        return Ok(Tick::Slept);
    }
    match insn {
        None => Err(Halt::Stop(Stop::OutOfCode)),
        Some(insn) => {
            if registers.repeating && is_unrepeatable(insn) {
                return Err(Halt::Stop(Stop::BadRepeat));
            }
            execute(registers, bus, insn, bio)?;
            Ok(Tick::Ran)
        }
    }
}
