//! What is known after an instruction.

ghost use Rattle.std.specs.Prelude.{◌≡◌};
ghost use Rattle.c25_bits.specs.Cut.{cut};
ghost use Rattle.c25_meaning_pages.specs.KnownAfter.{known_after, loaded_page};

use c25_meaning_instructions::insn::{Addr, Insn};
use c25_meaning_instructions::mnemonic::{MemName, PlainName, ShortName};
use c25_meaning_pages::known::{Known, Saved};

/// The DP that LDPK loads: the lowest nine bits of its number.
fn page_of(number: i16) -> u16
    ensures { result ≡ cut number 9 }
{
    number.cast_unsigned() % 512
}

/// The DP that LST loads from a direct operand, if it is known.
fn loaded_page(page: Option<u16>, saved: Option<Saved>, low: u16) -> Option<u16>
    ensures { result ≡ loaded_page page saved low }
{
    match (page, saved) {
        (Some(page), Some(saved)) => {
            if page == 0 && saved.address == low % 128 {
                Some(saved.page)
            } else {
                None
            }
        }
        _ => None,
    }
}

/// What is known of the registers after an instruction that acts once; a saved ST0 and the words that were pushed are left
/// as they were.
pub fn known_after(insn: &Insn, known: &Known) -> Known
    ensures { result ≡ known_after insn.now known.now }
{
    let after = Known {
        shadowed: false,
        once: true,
        asleep: false,
        ..*known
    };
    match insn {
        Insn::Mem(MemName::Ldp, _) => Known {
            page: None,
            ..after
        },
        Insn::Mem(MemName::Lst, Addr::Direct(low)) => Known {
            page: loaded_page(known.page, known.saved, *low),
            ..after
        },
        Insn::Mem(MemName::Lst, Addr::Indirect(_, _)) => Known {
            page: None,
            ..after
        },
        Insn::Mem(MemName::Rpt, _) | Insn::Short(ShortName::Rptk, _, _) => Known {
            once: false,
            ..after
        },
        Insn::Short(ShortName::Ldpk, _, number) => Known {
            page: Some(page_of(*number)),
            ..after
        },
        Insn::Plain(PlainName::Dint, _) => Known {
            masked: true,
            ..after
        },
        Insn::Plain(PlainName::Eint, _) => Known {
            masked: false,
            shadowed: true,
            ..after
        },
        Insn::Plain(PlainName::Idle, _) => Known {
            masked: false,
            asleep: true,
            ..after
        },
        _ => after,
    }
}
