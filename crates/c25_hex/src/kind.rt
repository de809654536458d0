//! The record types of Intel hex.

ghost use Rattle.std.specs.Prelude.{◌≡◌, ◌<◌, MatchOption};
ghost use Rattle.c25_hex.specs.Hex as spec;

/// The record type of a line, its fourth byte.
#[derive(Clone, Copy)]
pub(crate) enum Kind {
    /// Data bytes at an address relative to the base (00).
    Data,
    /// The end of the text (01).
    End,
    /// Extended segment address: a base in units of 16 bytes (02).
    SegmentBase,
    /// Start segment address, which has no meaning here (03).
    SegmentStart,
    /// Extended linear address: a base in units of 65,536 bytes (04).
    LinearBase,
    /// Start linear address, which has no meaning here (05).
    LinearStart,
}

impl Kind {
    ghost use Rattle.c25_hex.specs.View.{code_of};

    /// The record type of a byte, if there is one.
    pub(crate) fn from_byte(byte: u8) -> Option<Kind>
        ensures { MatchOption result (5 < byte) (λ kind. code_of kind ≡ byte) }
    {
        match byte {
            0 => Some(Kind::Data),
            1 => Some(Kind::End),
            2 => Some(Kind::SegmentBase),
            3 => Some(Kind::SegmentStart),
            4 => Some(Kind::LinearBase),
            5 => Some(Kind::LinearStart),
            _ => None,
        }
    }

    /// The byte of a record type.
    pub(crate) fn byte(self) -> u8
        ensures { result ≡ code_of self }
    {
        self as u8
    }

    /// Whether a line of this record type may have so many data bytes.
    pub(crate) fn has_count(self, count: u8) -> bool
        ensures { result ≡ spec.count_fits (code_of self) count }
    {
        match self {
            Kind::Data => true,
            Kind::End => count == 0,
            Kind::SegmentBase | Kind::LinearBase => count == 2,
            Kind::SegmentStart | Kind::LinearStart => count == 4,
        }
    }
}
