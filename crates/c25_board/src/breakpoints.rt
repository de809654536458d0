//! The breakpoints that are set.

ghost use Rattle.std.specs.Prelude.{◌≡◌, []};
ghost use Rattle.c25_meaning_processor.specs.Goes.{is_breakpoint};
ghost use Rattle.c25_meaning_processor.specs.Set.{can_set, with_breakpoint, without_breakpoint};

use crate::bits::Bits;
use arrayvec::ArrayVec;
use std::marker::Model;

/// How many breakpoints are set at most.
pub const MOST: usize = 64;

/// The breakpoints that are set, which are program addresses. Contracts see them as a list in the order of
/// setting. The value itself has about 8 KiB, and takes no other memory.
#[derive(Drop)]
pub struct Breakpoints {
    list: ArrayVec<u16, MOST>,
    bits: Bits,
}

impl Model for Breakpoints {
    ghost use Rattle.std.specs.Prelude.{ℕ, List};
    ghost use Rattle.c25_board.specs.Bits.{KnowsAll};

    ghost Value = { List ℕ };

    ghost view = { λ b. b.list.items };

    ghost invariant = { λ b. KnowsAll b.list.items b.bits.words };
}

impl Breakpoints {
    /// A list without breakpoints.
    pub fn new() -> Self
        ensures { result ≡ [] }
    {
        Breakpoints {
            list: ArrayVec::new(),
            bits: Bits::new(),
        }
    }

    /// Sets a breakpoint, and says whether it is set now: one that was set stays set, and where 64 others are
    /// set it is not.
    pub fn set(&mut self, address: u16) -> bool
        ensures breakpoints { self.new ≡ with_breakpoint self.old address }
        ensures answer { result ≡ can_set self.old address }
    {
        if self.bits.has(address) {
            return true;
        }
        if self.list.is_full() {
            return false;
        }
        self.list.push(address);
        self.bits.set(address);
        true
    }

    /// Clears a breakpoint, and says whether it was set.
    pub fn clear(&mut self, address: u16) -> bool
        ensures breakpoints { self.new ≡ without_breakpoint self.old address }
        ensures answer { result ≡ is_breakpoint self.old address }
    {
        let was_set = self.bits.has(address);
        self.list.retain(|b| *b != address);
        self.bits.clear(address);
        was_set
    }

    /// Whether a breakpoint is set at an address.
    #[inline(always)]
    pub fn contains(&self, address: u16) -> bool
        ensures { result ≡ is_breakpoint self.now address }
    {
        self.bits.has(address)
    }

    /// The addresses, in the order of setting.
    pub fn as_slice(&self) -> &[u16]
        ensures { result.now ≡ self.now }
    {
        self.list.as_slice()
    }
}
