//! What each warning means: the texts of docs/WARNINGS.md by name, and the warnings of a program with their texts.
//!
//! `texts` is made of docs/WARNINGS.md. `page` has the parts of a page, `pages` the page of each warning, `named` finds
//! them by name, and `summaries` lists them. `explained` writes warnings, each with its page.
#![tactic(auto)]

mod explained;
mod named;
mod page;
mod pages;
mod summaries;
mod texts;

pub use explained::{explain_page_warnings, explain_warnings};
pub use named::page_named;
pub use page::Page;
pub use pages::{AnyWarning, page_of};
pub use summaries::list_of_warnings;
