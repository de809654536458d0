//! What is made of old sources.

use c25_move_files::new::NewFile;

/// The new files, the sources first, the text of the command file, and the report.
#[derive(Drop)]
pub struct Made {
    pub files: Vec<NewFile>,
    /// How many of the new files are sources.
    pub sources: usize,
    /// The text of the command file; empty where nothing has to be placed.
    pub command: String,
    pub report: String,
    /// Whether something is left to do.
    pub is_left: bool,
}
