//! The lines of old sources, rewritten one at a time as the assembler reads them: what each rule makes of a line.
#![tactic(auto)]

mod around;
mod change;
mod constants;
mod directives;
mod draft;
mod fields;
mod floats;
mod job;
mod labels;
mod moved;
mod operands;
mod order;
mod passed;
mod pieces;
mod quotes;
mod rule;
mod style;
mod values;
mod works;

pub use around::{Address, Around, LongOrder, Progress, has_local_names};
pub use change::{Change, settled, unchanged};
pub use constants::hexadecimal;
pub use directives::renamed;
pub use moved::change_of;
pub use passed::pass_line;
pub use pieces::{Piece, PieceKind, pieces_of, text_of};
pub use rule::Rule;
pub use style::Style;
