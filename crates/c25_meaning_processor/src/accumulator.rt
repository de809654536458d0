//! The accumulator, and how products are shifted.

/// The accumulator with the two flags that its arithmetic sets.
#[derive(Clone, Copy, PartialEq, Debug)]
pub struct Acc {
    /// The accumulator's 32 bits.
    pub value: u32,
    /// OV: a result did not fit in 32 signed bits. It stays set until an instruction clears it.
    pub ov: bool,
    /// C: the carry of a sum; after a difference 0 stands for a borrow.
    pub c: bool,
}

/// PM: how the product is shifted where it is used (SPRU014, "Status Registers").
#[derive(Clone, Copy)]
pub enum ProductShift {
    /// PM 0: no shift.
    None,
    /// PM 1: left by 1.
    Left1,
    /// PM 2: left by 4.
    Left4,
    /// PM 3: right by 6, with the sign.
    Right6,
}
