//! The data word that an instruction writes, with the registers as they are.

ghost use Rattle.std.specs.Prelude.{◌≡◌, ◌<◌, slice_index};
ghost use Rattle.c25_meaning_processor.specs.Operand.{address_of};
ghost use Rattle.c25_meaning_processor.specs.Status.{regs_of};
ghost use Rattle.c25_meaning_processor.specs.declared.registers.Registers.{Registers};
ghost use Rattle.c25_pages.specs.Written.{place_written};

use c25_meaning_instructions::insn::Addr;
use c25_meaning_processor::registers::Regs;
use c25_pages::Written;

/// DP, of the registers as they are shown.
fn page_of(regs: &Regs) -> u16
    ensures small { result < 512 }
    ensures page { (r : Registers) → r.dp < 512 → regs.now ≡ regs_of r → result ≡ r.dp }
{
    regs.st0 % 512
}

/// The word of the current auxiliary register, of the registers as they are shown.
fn current_ar(regs: &Regs) -> u16
    ensures { (r : Registers) → r.dp < 512 → regs.now ≡ regs_of r → result ≡ slice_index r.ar r.arp }
{
    regs.ar[usize::from(regs.st0 / 8192)]
}

/// CNF, of the registers as they are shown.
pub(crate) fn cnf_of(regs: &Regs) -> bool
    ensures { (r : Registers) → regs.now ≡ regs_of r → result ≡ r.cnf }
{
    regs.st1 / 4096 % 2 == 1
}

/// The address of an operand.
fn operand_address(operand: &Addr, page: u16, current: u16) -> u16
    requires { page < 512 }
    ensures { (r : Registers) → r.dp ≡ page → slice_index r.ar r.arp ≡ current → result ≡ address_of operand.now r }
{
    match operand {
        Addr::Direct(low) => page * 128 + low % 128,
        Addr::Indirect(_, _) => current,
    }
}

/// The address of the word that is written, by DP and the current auxiliary register.
fn place_of(written: &Written, page: u16, current: u16) -> Option<u16>
    requires { page < 512 }
    ensures { (r : Registers) → r.dp ≡ page → slice_index r.ar r.arp ≡ current → result ≡ place_written written.now r }
{
    match written {
        Written::Nothing => None,
        Written::Operand(operand) => Some(operand_address(operand, page, current)),
        Written::After(operand) => Some(operand_address(operand, page, current).wrapping_add(1)),
        Written::Status(Addr::Direct(low)) => Some(low % 128),
        Written::Status(Addr::Indirect(_, _)) => Some(current),
    }
}

/// The address of the data word that is written, if one is, with the registers as they are shown.
pub(crate) fn place_written(written: &Written, regs: &Regs) -> Option<u16>
    ensures { (r : Registers) → r.dp < 512 → regs.now ≡ regs_of r → result ≡ place_written written.now r }
{
    place_of(written, page_of(regs), current_ar(regs))
}
