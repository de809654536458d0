//! The processor's registers.

ghost use Rattle.std.specs.Prelude.{◌≡◌, ◌<◌};

use crate::accumulator::{Acc, ProductShift};
use crate::lines::Lines;
use std::marker::Model;

/// The number of an auxiliary register, 0 to 7.
#[derive(Clone, Copy)]
pub struct ArNumber {
    number: u16,
}

impl Model for ArNumber {
    ghost use Rattle.std.specs.Prelude.{ℕ, ◌<◌};

    ghost Value = { ℕ };

    ghost view = { λ register. register.number };

    ghost invariant = { λ register. register.number < 8 };

    ghost inverse = { λ n. record { number = n } };
}

impl ArNumber {
    /// The register of this number.
    pub fn new(number: u16) -> ArNumber
        requires { number < 8 }
        ensures { result ≡ number }
    {
        ArNumber { number }
    }

    /// The number of the register.
    pub fn number(self) -> u16
        ensures value { result ≡ self }
        ensures small { result < 8 }
    {
        self.number
    }
}

/// The number of a data page of 128 words, 0 to 511.
#[derive(Clone, Copy)]
pub struct DataPage {
    page_number: u16,
}

impl Model for DataPage {
    ghost use Rattle.std.specs.Prelude.{ℕ, ◌<◌};

    ghost Value = { ℕ };

    ghost view = { λ page. page.page_number };

    ghost invariant = { λ page. page.page_number < 512 };

    ghost inverse = { λ n. record { page_number = n } };
}

impl DataPage {
    /// The page of this number.
    pub fn new(number: u16) -> DataPage
        requires { number < 512 }
        ensures { result ≡ number }
    {
        DataPage {
            page_number: number,
        }
    }

    /// The number of the page.
    pub fn number(self) -> u16
        ensures value { result ≡ self }
        ensures small { result < 512 }
    {
        self.page_number
    }
}

/// All that the processor itself holds (SPRU014, "Central Arithmetic Logic Unit", "Status Registers").
#[derive(Clone, Copy)]
pub struct Registers {
    /// The accumulator, with OV and C.
    pub acc: Acc,
    /// P, the product.
    pub p: u32,
    /// T, one factor of a product.
    pub t: u16,
    /// AR0 to AR7.
    pub ar: [u16; 8],
    /// The program counter.
    pub pc: u16,
    /// RPTC, how many repetitions come after the next one.
    pub rptc: u8,
    /// The hardware stack, the top first.
    pub stack: [u16; 8],
    /// ARP, the current auxiliary register.
    pub arp: ArNumber,
    /// ARB, the buffer of ARP: the auxiliary register that was current before.
    pub arb: ArNumber,
    /// DP, the data page of direct addresses.
    pub dp: DataPage,
    pub pm: ProductShift,
    /// OVM: overflows saturate.
    pub ovm: bool,
    /// INTM: no interrupt is taken while it is 1.
    pub intm: bool,
    /// CNF: block B0 is program memory.
    pub cnf: bool,
    /// SXM: memory words are taken with their sign.
    pub sxm: bool,
    /// TC: the result of the last test.
    pub tc: bool,
    /// HM: whether a hold stops the processor. The bit is only kept, since nothing here holds the processor.
    pub hm: bool,
    /// FSM: whether the serial port needs frame pulses. The bit is only kept.
    pub fsm: bool,
    /// XF: the level of the pin XF. The bit is only kept.
    pub xf: bool,
    /// FO: whether the serial port has words of 8 bits. The bit is only kept.
    pub fo: bool,
    /// TXM: whether the serial port makes the frame pulses itself. The bit is only kept.
    pub txm: bool,
    /// The interrupt lines that are latched.
    pub latched: Lines,
    /// Whether `IDLE` waits for an interrupt.
    pub asleep: bool,
    /// Whether `EINT` was the last instruction: no interrupt is taken before the next one.
    pub shadowed: bool,
    /// Whether a repeat is running: the next step is one of its repetitions.
    pub repeating: bool,
    /// How many repetitions the repeat that is running has done; 0 outside a repeat.
    pub repeated: u16,
}

/// The registers that a debugger shows.
#[derive(Clone, Copy, PartialEq, Debug)]
pub struct Regs {
    pub acc: u32,
    pub p: u32,
    pub t: u16,
    pub ar: [u16; 8],
    pub pc: u16,
    /// ST0: ARP in bits 15-13, OV 12, OVM 11, a one 10, INTM 9, DP 8-0.
    pub st0: u16,
    /// ST1: ARB in bits 15-13, CNF 12, TC 11, SXM 10, C 9, ones 8-7, HM 6, FSM 5, XF 4, FO 3, TXM 2, PM 1-0.
    pub st1: u16,
    pub rptc: u8,
    /// The hardware stack, the top first.
    pub stack: [u16; 8],
}
