//! Suppositions that a state does not meet.

/// Which supposition a state does not meet.
#[derive(Clone, Copy, PartialEq, Debug)]
pub enum Breach {
    /// IMR lets an interrupt line through that it is supposed not to let through.
    OtherLine,
    /// The instruction that acts writes this data word, which it is supposed not to write.
    WritesSpared(u16),
    /// The instruction that acts goes by the accumulator to this address, to which it is supposed not to go.
    GoesElsewhere(u16),
}
