//! Places of instructions.

/// An instruction's place among the program words.
#[derive(Clone, Copy)]
pub struct Mark {
    /// The address of the instruction's first word.
    pub address: u16,
    /// How many words the instruction has, 1 or 2.
    pub size: u16,
}

/// The place of an instruction that runs in block B0: where its words are loaded, and where they run once the
/// program has moved them there.
#[derive(Clone, Copy)]
pub struct RunMark {
    /// The address at which the instruction's first word is loaded.
    pub load: u16,
    /// The address at which the instruction runs, FF00h or above.
    pub run: u16,
    /// How many words the instruction has, 1 or 2.
    pub size: u16,
}
