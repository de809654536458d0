//! In which style an old source is written, as its directives show.
#![tactic(auto)]

mod shown;
mod source;

pub use shown::shown_style;
pub use source::{ShownStyles, shown_styles};
