//! Where an instruction leads, by its family and its name.

ghost use Rattle.std.specs.Prelude.{◌≡◌};
ghost use Rattle.c25_pages.specs.Flow.{flow_of};

use c25_meaning_instructions::insn::Insn;
use c25_meaning_instructions::mnemonic::{JumpName, MemName, PlainName};

/// Where an instruction leads.
#[derive(Clone, Copy)]
pub enum Flow {
    /// To the instruction after it.
    On,
    /// To an address.
    Goes(u16),
    /// To an address, or to the instruction after it.
    Branches(u16),
    /// To a routine at an address, which returns to the instruction after it.
    Calls(u16),
    /// Back from a routine.
    Returns,
    /// To the address in the accumulator.
    GoesByAccumulator,
    /// To a routine at the address in the accumulator.
    CallsByAccumulator,
    /// On, with one word more on the stack.
    Pushes,
    /// On, with one word less on the stack.
    Takes,
}

/// Where an instruction leads.
pub fn flow_of(insn: &Insn) -> Flow
    ensures { result ≡ flow_of insn.now }
{
    match insn {
        Insn::Jump(JumpName::B, target, _, _) => Flow::Goes(*target),
        Insn::Jump(JumpName::Call, target, _, _) => Flow::Calls(*target),
        Insn::Jump(_, target, _, _) => Flow::Branches(*target),
        Insn::Plain(PlainName::Trap, _) => Flow::Calls(0x1E),
        Insn::Plain(PlainName::Ret, _) => Flow::Returns,
        Insn::Plain(PlainName::Cala, _) => Flow::CallsByAccumulator,
        Insn::Plain(PlainName::Bacc, _) => Flow::GoesByAccumulator,
        Insn::Plain(PlainName::Push, _) | Insn::Mem(MemName::Pshd, _) => Flow::Pushes,
        Insn::Plain(PlainName::Pop, _) | Insn::Mem(MemName::Popd, _) => Flow::Takes,
        _ => Flow::On,
    }
}
