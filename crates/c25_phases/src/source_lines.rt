//! Lists of lines in which a file's name is kept once for each run of its lines. The methods of `SourceLines`
//! are in `file_runs.rt`.

ghost use Rattle.std.specs.Prelude.{◌≡◌, ◌≤◌, length};
ghost use Rattle.c25_phases.specs.Runs.{total};

/// A run of lines of one file, one after another.
#[derive(Clone, Copy)]
pub(crate) struct FileRun<'a> {
    pub(crate) file: &'a str,
    /// How many lines the run has.
    pub(crate) count: usize,
}

/// Lines of files, one after another.
#[derive(Drop)]
pub(crate) struct SourceLines<'a> {
    /// The runs of lines, without the last one.
    pub(crate) runs: Vec<FileRun<'a>>,
    /// How many lines `runs` have.
    pub(crate) before: usize,
    /// The file of the last run.
    pub(crate) file: &'a str,
    /// The number of each line in its file, of all runs.
    pub(crate) numbers: Vec<u32>,
    ghost counted: { before ≡ total runs.items },
    ghost within: { before ≤ length numbers.items },
}
