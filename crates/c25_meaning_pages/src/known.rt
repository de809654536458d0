//! What is known of the processor before a statement acts: DP, an ST0 saved in memory, INTM, EINT, repeats, sleep, and
//! words that were pushed (SPRU014, "Memory Addressing Modes", "Status Registers", "Interrupts", "Program Counter and
//! Stack").

/// A word of data page 0 in which an ST0 is saved.
#[derive(Clone, Copy, PartialEq, Debug)]
pub struct Saved {
    /// The data address of the word, below 128.
    pub address: u16,
    /// The DP of that ST0.
    pub page: u16,
}

/// What is known before a statement acts. Where a field says nothing, nothing is claimed.
#[derive(Clone, Copy, PartialEq, Debug)]
pub struct Known {
    /// DP, if it is known.
    pub page: Option<u16>,
    /// A word in which ST0 is saved, if one is known.
    pub saved: Option<Saved>,
    /// Whether INTM is surely 1.
    pub masked: bool,
    /// Whether EINT surely was the last instruction, so that no interrupt is taken yet.
    pub shadowed: bool,
    /// Whether surely no repeat is running.
    pub once: bool,
    /// Whether the processor surely is asleep, by IDLE, so that the statement does not act.
    pub asleep: bool,
    /// How many words the routine itself has on the stack: those that it pushed and has not taken again.
    pub pushed: u16,
}

/// Where a routine takes its own return from the stack, by POP or POPD: it goes on as a part of its caller.
#[derive(Clone, Copy, PartialEq, Debug)]
pub struct Dropped {
    /// The address of the instruction after the POP or POPD.
    pub next: u16,
    /// What is known there.
    pub known: Known,
}
