//! Lines of a source and their tokens (SPRU018, "Source Statement Format"). All parts borrow the line;
//! nothing takes memory.
#![tactic(auto)]

mod fields;
pub mod laws;
mod lexemes;
pub mod line;
pub mod tokens;

pub use fields::{past_blanks, past_field};
pub use lexemes::{constant_value, lexeme, quoted_len};
pub use line::{Line, first_word, is_comment_line, label_in, split_line};
