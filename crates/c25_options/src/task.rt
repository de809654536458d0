//! The task that a command line asks for.

/// How many steps a run has without `--steps`.
pub const DEFAULT_STEPS: u32 = 1000;

/// The files that a run reads in addition to its sources. A file that is not named stands for an empty text.
#[derive(Clone, Copy)]
pub struct RunFiles<'a> {
    /// The linker's command file.
    pub command: Option<&'a str>,
    /// The samples: the words that `IN` reads.
    pub samples: Option<&'a str>,
    /// The schedule: interrupts and levels of BIO by steps.
    pub schedule: Option<&'a str>,
}

/// What is printed and written of a run in addition to its outputs and to how it ended.
#[derive(Clone, Copy)]
pub struct RunResults<'a> {
    /// Whether the registers at the end of the run are printed.
    pub regs: bool,
    /// Whether the step of each output stands in front of it.
    pub when: bool,
    /// The file for how often each line of the sources was run, as `lcov` reads it.
    pub counts: Option<&'a str>,
    /// The file for how often each line of the sources was run, next to the listings.
    pub counts_list: Option<&'a str>,
}

/// How sources are read.
#[derive(Drop)]
pub struct SourceOptions<'a> {
    /// The symbols that are defined before each source, in their order: `NAME=VALUE` each, or `NAME` alone.
    pub definitions: Vec<&'a str>,
    /// The folders in which copied files are looked for, in their order.
    pub folders: Vec<&'a str>,
}

/// What is reported of faults in addition to the line of the first one.
#[derive(Clone, Copy)]
pub struct FaultOptions {
    /// Whether the first fault is explained.
    pub explain: bool,
    /// Whether all faults are reported.
    pub all: bool,
}

/// The EPROMs that are written of a program, as the command line has it.
#[derive(Clone, Copy)]
pub struct RomOptions<'a> {
    /// The argument of `--rom`: the devices, and how many words they have.
    pub size: Option<&'a str>,
    /// The argument of `--fill`: the word at the addresses where the program has none.
    pub fill: Option<&'a str>,
}

/// What `asm SOURCE --obj FILE [--list FILE] [-D NAME[=VALUE]].. [-I FOLDER].. [--explain] [--all]` asks for: to write
/// the object, and the listing.
#[derive(Drop)]
pub struct AssembleTask<'a> {
    pub source: &'a str,
    pub object: &'a str,
    pub listing: Option<&'a str>,
    pub reading: SourceOptions<'a>,
    pub faults: FaultOptions,
}

/// What `link COMMAND OBJECT.. --out BASE [--explain] [--all]` asks for: to write `BASE.p0.hex`, `BASE.p1.hex` and
/// `BASE.map`.
#[derive(Drop)]
pub struct LinkTask<'a> {
    pub command: &'a str,
    pub objects: Vec<&'a str>,
    pub base: &'a str,
    pub faults: FaultOptions,
}

/// What `build SOURCE.. --out BASE [--command FILE] [--symbols FILE] [--rom SIZE] [--fill WORD] [-D NAME[=VALUE]]..
/// [-I FOLDER].. [--explain] [--all]` asks for: to write what `link` does, and `BASE.1.lst`, `BASE.2.lst`, .., a listing
/// for each source; with `--symbols` also the names of the program and their addresses; with `--rom` the EPROMs of
/// program memory, of which it prints the sums.
#[derive(Drop)]
pub struct BuildTask<'a> {
    pub sources: Vec<&'a str>,
    pub base: &'a str,
    pub command: Option<&'a str>,
    pub symbols: Option<&'a str>,
    pub rom: RomOptions<'a>,
    pub reading: SourceOptions<'a>,
    pub faults: FaultOptions,
}

/// What `run SOURCE.. [--steps N] [--regs] [--when] [--counts FILE] [--counts-list FILE] [--command FILE]
/// [--samples FILE] [--schedule FILE] [-D NAME[=VALUE]].. [-I FOLDER].. [--explain] [--all]` asks for: to print the
/// outputs and how the run ended; with `--counts` and `--counts-list` also to write how often each line of the sources
/// was run.
#[derive(Drop)]
pub struct RunTask<'a> {
    pub sources: Vec<&'a str>,
    pub steps: u32,
    pub files: RunFiles<'a>,
    pub results: RunResults<'a>,
    pub reading: SourceOptions<'a>,
    pub faults: FaultOptions,
}

/// What `debug SOURCE.. [--script FILE] [--interactive] [--command FILE] [--samples FILE] [--schedule FILE]
/// [-D NAME[=VALUE]].. [-I FOLDER].. [--explain] [--all]` asks for: to print the answers to a debugger's script, or to
/// the commands of standard input, each before the next is read. With neither or with both there are no commands.
#[derive(Drop)]
pub struct DebugTask<'a> {
    pub sources: Vec<&'a str>,
    pub script: Option<&'a str>,
    pub interactive: bool,
    pub files: RunFiles<'a>,
    pub reading: SourceOptions<'a>,
    pub faults: FaultOptions,
}

/// How the words of an image are read, and what is known of them, as the command line has it.
#[derive(Clone, Copy)]
pub struct ImageOptions<'a> {
    /// The file of a pair that has the high bytes.
    pub high: Option<&'a str>,
    /// The file of a pair that has the low bytes.
    pub low: Option<&'a str>,
    /// Whether one file is binary.
    pub binary: bool,
    /// Whether the low byte of each word comes first in one binary file.
    pub low_first: bool,
    /// How many erased words, one after the other, are left out as blank.
    pub blank: Option<u32>,
    /// The hints.
    pub hints: Option<&'a str>,
}

/// An image that is run in place of sources, and the files that the run reads in addition to it.
#[derive(Clone, Copy)]
pub struct ImageRun<'a> {
    /// The file of the image, where it is not a pair.
    pub file: Option<&'a str>,
    pub options: ImageOptions<'a>,
    /// The samples: the words that `IN` reads.
    pub samples: Option<&'a str>,
    /// The schedule: interrupts and levels of BIO by steps.
    pub schedule: Option<&'a str>,
}

/// What `run` asks for where `--image FILE`, or `--high FILE --low FILE`, stands in place of SOURCE, with `[--binary]
/// [--low-first] [--blank N] [--hints FILE]`: the same as of a source and a command file that have the image's words.
#[derive(Clone, Copy)]
pub struct RunImageTask<'a> {
    pub image: ImageRun<'a>,
    pub steps: u32,
    pub results: RunResults<'a>,
    pub faults: FaultOptions,
}

/// What `debug` asks for where an image stands in place of SOURCE.
#[derive(Clone, Copy)]
pub struct DebugImageTask<'a> {
    pub image: ImageRun<'a>,
    pub script: Option<&'a str>,
    pub interactive: bool,
    pub faults: FaultOptions,
}

/// What `dis [FILE] [--from ADDRESS] [--source] [--high FILE] [--low FILE] [--binary] [--low-first] [--blank N]
/// [--hints FILE] [--out BASE] [--explain]` asks for: to print an object, or the words of a hex text, as instructions;
/// with `--source` to write the words of an image as the source `BASE.asm` and the command file `BASE.cmd`.
#[derive(Clone, Copy)]
pub struct DisassembleTask<'a> {
    pub file: Option<&'a str>,
    pub from: Option<&'a str>,
    pub source: bool,
    pub image: ImageOptions<'a>,
    pub base: Option<&'a str>,
    pub explain: bool,
}

/// What `check SOURCE.. [--command FILE] [--pages] [-D NAME[=VALUE]].. [-I FOLDER].. [--explain] [--all]` asks for: to
/// report all faults, or else the warnings; with `--pages` also all that was found of data pages.
#[derive(Drop)]
pub struct CheckTask<'a> {
    pub sources: Vec<&'a str>,
    pub command: Option<&'a str>,
    pub pages: bool,
    pub reading: SourceOptions<'a>,
    pub faults: FaultOptions,
}

/// How old sources are written, as the command line has it.
#[derive(Clone, Copy)]
pub struct OldOptions<'a> {
    /// The argument of `--style`: what directives and comments look like.
    pub style: Option<&'a str>,
    /// The argument of `--long-order`: which word of 32 bits is the first.
    pub long_order: Option<&'a str>,
    /// The argument of `--from`: the code page of sources that are no UTF-8.
    pub from: Option<&'a str>,
    /// Whether names that differ in the case of their letters alone are one name.
    pub ignore_case: bool,
}

/// What `move OLD.. --out FOLDER [--command FILE] [--style STYLE] [--long-order ORDER] [--from CODEPAGE] [--ignore-case]
/// [--hex FILE] [--quiet]` asks for: to write old sources and their command file into the folder as the assembler and the
/// linker read them, and to print what is reported of their lines; with `--hex` also whether their program has the words
/// of a hex text.
#[derive(Drop)]
pub struct MoveTask<'a> {
    pub sources: Vec<&'a str>,
    pub folder: &'a str,
    pub command: Option<&'a str>,
    pub writing: OldOptions<'a>,
    /// The hex text of the old program.
    pub hex: Option<&'a str>,
    /// Whether lines of which nothing is left are not reported.
    pub quiet: bool,
}

/// What the program is to do: a subcommand with its operands in order and the arguments of its options.
#[derive(Drop)]
pub enum Task<'a> {
    /// No command line: the source is standard input, and runs for `DEFAULT_STEPS` steps.
    RunStandardInput,
    Assemble(AssembleTask<'a>),
    Link(LinkTask<'a>),
    Build(BuildTask<'a>),
    Run(RunTask<'a>),
    RunImage(RunImageTask<'a>),
    Debug(DebugTask<'a>),
    DebugImage(DebugImageTask<'a>),
    /// `explain [WORD]`: to print what the fault, the warning, the instruction or the directive of this number or name means, or a
    /// list of faults and warnings.
    Explain { fault: Option<&'a str> },
    Disassemble(DisassembleTask<'a>),
    Check(CheckTask<'a>),
    Move(MoveTask<'a>),
}
