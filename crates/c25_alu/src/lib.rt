//! The data path of the processor: operations on the 32 bits of the accumulator and its flags (SPRU014,
//! "Central Arithmetic Logic Unit"). Nothing here allocates.
#![tactic(auto)]

mod addition;
mod division;
mod multiplication;
mod shifts;

pub use addition::{add, negate, subtract, take_absolute_value};
pub use c25_meaning_processor::accumulator::{Acc, ProductShift};
pub use division::subc;
pub use multiplication::{product, shifted_product};
pub use shifts::{
    moved_left, norm, rotate_left, rotate_right, scaled, shift_left, shift_left_once,
    shift_right_once,
};
