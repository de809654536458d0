//! The part of a source's line where it is refused, found afterwards: by the text of the line and the fault
//! that was reported.
#![tactic(auto)]

mod defined;
mod fields;
pub mod laws;
mod operand_faults;
pub mod part;
mod refused;
mod room;
mod text_part;
mod tokens;
mod value_faults;
mod value_parts;
pub mod values;
pub mod wanted;
mod whole_lines;

pub use part::Part;
pub use refused::{first_refused, refused_part};
pub use value_parts::{Misfit, RefusedValue, refused_value};
