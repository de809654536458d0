//! What is known of each address of program memory besides the word there.

ghost use Rattle.std.specs.Prelude.{◌≡◌, ◌+◌, ◌<◌, IfSome};

use c25_meaning_common::no_memory::NoMemory;
use std::alloc::Global;

/// What a word is taken for.
#[derive(Clone, Copy, PartialEq)]
pub(crate) enum Taken {
    /// Nothing that is known: data, where nothing else is found out.
    Free,
    /// Data by a hint.
    Data,
    /// The first word of an instruction.
    First,
    /// The second word of an instruction.
    Second,
}

/// Why an address has a name, the weakest reason first.
#[derive(Clone, Copy, PartialEq, PartialOrd)]
pub(crate) enum Reason {
    Data,
    Code,
    Vector,
    Call,
}

/// The number of an instruction or a word that is an address, and where the word there is loaded.
#[derive(Clone, Copy)]
pub(crate) struct Reference {
    pub number: u16,
    pub target: u16,
}

/// What is known of one address.
#[derive(Clone, Copy)]
pub(crate) struct Cell {
    pub taken: Taken,
    /// Where the word here runs, if that is in block B0.
    pub runs_at: Option<u16>,
    /// Where the word that runs here is loaded, if that is elsewhere.
    pub loaded_at: Option<u16>,
    /// Why the address has a name.
    pub named: Option<Reason>,
    /// Whether the place where the word is loaded has a name of its own.
    pub load_named: bool,
    /// The address that the number of the instruction here is, or the word itself.
    pub refers: Option<Reference>,
    /// Whether the word is left out as blank.
    pub blank: bool,
}

impl Cell {
    /// An address of which nothing is known.
    const fn empty() -> Cell {
        Cell {
            taken: Taken::Free,
            runs_at: None,
            loaded_at: None,
            named: None,
            load_named: false,
            refers: None,
            blank: false,
        }
    }

    /// Whether the word here belongs to an instruction.
    pub(crate) fn is_code(&self) -> bool {
        self.taken == Taken::First || self.taken == Taken::Second
    }

    /// The cell with a reason for a name; the strongest one stays.
    pub(crate) fn named_for(self, reason: Reason) -> Cell {
        match self.named {
            Some(before) if before >= reason => self,
            _ => Cell {
                named: Some(reason),
                ..self
            },
        }
    }
}

/// The address so many words after another, if there is one.
pub(crate) fn after(address: u16, words: u16) -> Option<u16>
    ensures sum { IfSome result (λ place. place ≡ address + words) }
    ensures inside { IfSome result (λ place. address + words < 65536) }
{
    address.checked_add(words)
}

/// Whether two cells, one after the other, run one after the other.
pub(crate) fn run_on(first: Cell, second: Cell) -> bool {
    match (first.runs_at, second.runs_at) {
        (None, None) => true,
        (Some(one), Some(other)) => after(one, 1) == Some(other),
        _ => false,
    }
}

/// The cells of all addresses.
#[derive(Drop)]
pub(crate) struct Cells {
    cells: Vec<Cell>,
}

impl Cells {
    /// The cells of all addresses, of which nothing is known.
    pub(crate) fn new(alloc: Global) -> Result<Cells, NoMemory> {
        let mut cells = Vec::new(alloc);
        for _ in 0..65_536u32 {
            cells.push(Cell::empty())?;
        }
        Ok(Cells { cells })
    }

    /// What is known of an address.
    pub(crate) fn at(&self, address: u16) -> Cell {
        match self.cells.get(usize::from(address)) {
            Some(cell) => *cell,
            None => Cell::empty(),
        }
    }

    /// Puts down what is known of an address.
    pub(crate) fn put(&mut self, address: u16, cell: Cell) {
        match self.cells.get_mut(usize::from(address)) {
            Some(place) => *place = cell,
            None => {}
        }
    }

    /// Where the word that runs at an address is loaded: there, or where a hint says.
    pub(crate) fn loaded_at(&self, address: u16) -> u16 {
        self.at(address).loaded_at.unwrap_or(address)
    }

    /// Gives an address a reason for a name.
    pub(crate) fn name(&mut self, address: u16, reason: Reason) {
        self.put(address, self.at(address).named_for(reason));
    }

    /// Takes a word for something.
    pub(crate) fn take(&mut self, address: u16, taken: Taken) {
        self.put(
            address,
            Cell {
                taken,
                ..self.at(address)
            },
        );
    }

    /// Puts down that the number at an address is another address.
    pub(crate) fn refer(&mut self, address: u16, reference: Reference) {
        self.put(
            address,
            Cell {
                refers: Some(reference),
                ..self.at(address)
            },
        );
    }

    /// The address of the first word of the instruction that the word at an address belongs to, or the
    /// address itself.
    pub(crate) fn start_of(&self, address: u16) -> u16 {
        if self.at(address).taken == Taken::Second {
            address.saturating_sub(1)
        } else {
            address
        }
    }
}
