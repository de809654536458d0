//! What is wrong with a command line of `dis`, or of `run` or `debug` for an image.

ghost use Rattle.std.specs.Prelude.{◌≡◌};
ghost use Rattle.c25_image_source.specs.Asked.{mistake_text};

/// What is wrong with a command line of `dis`, or of `run` or `debug` for an image.
#[derive(Clone, Copy, PartialEq, Debug)]
pub enum Mistake {
    /// Neither a file nor a pair is named.
    NoFile,
    /// Neither a file nor a pair is named for an image that is run.
    NoImage,
    /// A file is named, and one of a pair too.
    FileAndPair,
    /// `--low-first` stands where there is no binary file of words.
    LowFirst,
    /// No names are given for what is written.
    NoBase,
    /// `--from` stands where nothing is printed.
    From,
    /// An option for an image stands without `--source`.
    NoSource,
}

impl Mistake {
    /// The line that reports it.
    pub fn text(self) -> &'static str
        ensures { result.now ≡ mistake_text self }
    {
        match self {
            Mistake::NoFile => "c25: dis takes FILE, or with --source --high FILE and --low FILE",
            Mistake::NoImage => "c25: an image is --image FILE, or --high FILE and --low FILE",
            Mistake::FileAndPair => "c25: --high and --low stand in place of FILE",
            Mistake::LowFirst => "c25: --low-first is for FILE with --binary",
            Mistake::NoBase => "c25: --source stands without --out BASE",
            Mistake::From => "c25: --from is for printing, and --source prints nothing",
            Mistake::NoSource => {
                "c25: --high, --low, --binary, --low-first, --blank, --hints and --out stand with --source"
            }
        }
    }
}
