//! Command lines. Each case is a line: what reading it answers, `|`, and the arguments after the program's
//! name, separated by single blanks.

use c25_options::arranged::arranged;
use c25_options::fault::is_want_of_memory;
use c25_options::read::read_words;
use c25_options::task::{
    AssembleTask, BuildTask, CheckTask, DebugImageTask, DebugTask, DisassembleTask, FaultOptions,
    ImageOptions, ImageRun, LinkTask, MoveTask, OldOptions, RomOptions, RunFiles, RunImageTask,
    RunResults, RunTask, SourceOptions, Task,
};
use c25_options::tips::tip_on;
use std::alloc::{AllocError, Global};
use std::fmt;
use std::fmt::{Display, Formatter, Write};
use std::process::Abort;
use std::test::Fail;

/// The program's name and the arguments of a line.
fn arguments_of(alloc: Global, line: &str) -> Result<Vec<String>, AllocError> {
    let mut arguments = Vec::new(alloc);
    arguments.push(String::from_str(alloc, "c25")?)?;
    for argument in line.split(' ') {
        arguments.push(String::from_str(alloc, argument)?)?;
    }
    Ok(arguments)
}

/// Operands, a blank before each.
#[derive(Clone, Copy)]
struct Operands<'a>(&'a [&'a str]);

impl Display for Operands<'_> {
    fn fmt<W: Write>(&self, f: &mut Formatter<W>) -> fmt::Result {
        for argument in self.0 {
            write!(f, " {argument}")?;
        }
        Ok(())
    }
}

/// A flag by its name, shown where it was given.
#[derive(Clone, Copy)]
struct Flag(&'static str, bool);

impl Display for Flag {
    fn fmt<W: Write>(&self, f: &mut Formatter<W>) -> fmt::Result {
        if self.1 {
            write!(f, " {}", self.0)
        } else {
            Ok(())
        }
    }
}

/// An option by its name and its argument, shown where it was given.
#[derive(Clone, Copy)]
struct Value<'a>(&'static str, Option<&'a str>);

impl Display for Value<'_> {
    fn fmt<W: Write>(&self, f: &mut Formatter<W>) -> fmt::Result {
        match self.1 {
            Some(value) => write!(f, " {}={value}", self.0),
            None => Ok(()),
        }
    }
}

/// An option that may be given several times, by its name and its arguments.
#[derive(Clone, Copy)]
struct Values<'a>(&'static str, &'a [&'a str]);

impl Display for Values<'_> {
    fn fmt<W: Write>(&self, f: &mut Formatter<W>) -> fmt::Result {
        for value in self.1 {
            write!(f, " {}={value}", self.0)?;
        }
        Ok(())
    }
}

/// How sources are read, shown where options for it were given.
#[derive(Clone, Copy)]
struct Reading<'a>(&'a SourceOptions<'a>);

impl Display for Reading<'_> {
    fn fmt<W: Write>(&self, f: &mut Formatter<W>) -> fmt::Result {
        let definitions = Values("define", &self.0.definitions);
        let folders = Values("include", &self.0.folders);
        write!(f, "{definitions}{folders}")
    }
}

/// What is reported of faults, shown where it was asked for.
#[derive(Clone, Copy)]
struct Faults<'a>(&'a FaultOptions);

impl Display for Faults<'_> {
    fn fmt<W: Write>(&self, f: &mut Formatter<W>) -> fmt::Result {
        let explain = Flag("explain", self.0.explain);
        let all = Flag("all", self.0.all);
        write!(f, "{explain}{all}")
    }
}

/// The files of a run, shown where they were given.
#[derive(Clone, Copy)]
struct Files<'a>(&'a RunFiles<'a>);

impl Display for Files<'_> {
    fn fmt<W: Write>(&self, f: &mut Formatter<W>) -> fmt::Result {
        let command = Value("command", self.0.command);
        let samples = Value("samples", self.0.samples);
        let schedule = Value("schedule", self.0.schedule);
        write!(f, "{command}{samples}{schedule}")
    }
}

/// What is printed and written of a run, shown where it was asked for.
#[derive(Clone, Copy)]
struct Results<'a>(&'a RunResults<'a>);

impl Display for Results<'_> {
    fn fmt<W: Write>(&self, f: &mut Formatter<W>) -> fmt::Result {
        let regs = Flag("regs", self.0.regs);
        let when = Flag("when", self.0.when);
        let counts = Value("counts", self.0.counts);
        let counts_list = Value("counts-list", self.0.counts_list);
        write!(f, "{regs}{when}{counts}{counts_list}")
    }
}

/// The options for EPROMs, each after a blank.
#[derive(Clone, Copy)]
struct Rom<'a>(RomOptions<'a>);

impl Display for Rom<'_> {
    fn fmt<W: Write>(&self, f: &mut Formatter<W>) -> fmt::Result {
        let size = Value("rom", self.0.size);
        let fill = Value("fill", self.0.fill);
        write!(f, "{size}{fill}")
    }
}

/// The options for an image, each after a blank.
#[derive(Clone, Copy)]
struct Image<'a>(ImageOptions<'a>);

impl Display for Image<'_> {
    fn fmt<W: Write>(&self, f: &mut Formatter<W>) -> fmt::Result {
        let high = Value("high", self.0.high);
        let low = Value("low", self.0.low);
        let binary = Flag("binary", self.0.binary);
        let low_first = Flag("low-first", self.0.low_first);
        let hints = Value("hints", self.0.hints);
        write!(f, "{high}{low}{binary}{low_first}{hints}")?;
        match self.0.blank {
            Some(blank) => write!(f, " blank={blank}"),
            None => Ok(()),
        }
    }
}

/// An image that is run, and the files of its run, shown where they were given.
#[derive(Clone, Copy)]
struct RunOfImage<'a>(ImageRun<'a>);

impl Display for RunOfImage<'_> {
    fn fmt<W: Write>(&self, f: &mut Formatter<W>) -> fmt::Result {
        let file = Value("image", self.0.file);
        let options = Image(self.0.options);
        let samples = Value("samples", self.0.samples);
        let schedule = Value("schedule", self.0.schedule);
        write!(f, "{file}{options}{samples}{schedule}")
    }
}

/// How old sources are written, shown where options for it were given.
#[derive(Clone, Copy)]
struct Old<'a>(OldOptions<'a>);

impl Display for Old<'_> {
    fn fmt<W: Write>(&self, f: &mut Formatter<W>) -> fmt::Result {
        let style = Value("style", self.0.style);
        let long_order = Value("long_order", self.0.long_order);
        let from = Value("from", self.0.from);
        let ignore_case = Flag("ignore_case", self.0.ignore_case);
        write!(f, "{style}{long_order}{from}{ignore_case}")
    }
}

fn show_asm(alloc: Global, task: &AssembleTask<'_>) -> Result<String, AllocError> {
    let AssembleTask {
        source,
        object,
        listing,
        reading,
        faults,
    } = task;
    let listing = Value("listing", *listing);
    let (reading, faults) = (Reading(reading), Faults(faults));
    format!(in alloc; "asm {source} object={object}{listing}{reading}{faults}")
}

fn show_link(alloc: Global, task: &LinkTask<'_>) -> Result<String, AllocError> {
    let LinkTask {
        command,
        objects,
        base,
        faults,
    } = task;
    let (objects, faults) = (Operands(objects), Faults(faults));
    format!(in alloc; "link {command} :{objects} base={base}{faults}")
}

fn show_build(alloc: Global, task: &BuildTask<'_>) -> Result<String, AllocError> {
    let BuildTask {
        sources,
        base,
        command,
        symbols,
        rom,
        reading,
        faults,
    } = task;
    let (sources, faults) = (Operands(sources), Faults(faults));
    let command = Value("command", *command);
    let symbols = Value("symbols", *symbols);
    let rom = Rom(*rom);
    let reading = Reading(reading);
    format!(in alloc; "build{sources} base={base}{command}{symbols}{rom}{reading}{faults}")
}

fn show_run(alloc: Global, task: &RunTask<'_>) -> Result<String, AllocError> {
    let RunTask {
        sources,
        steps,
        files,
        results,
        reading,
        faults,
    } = task;
    let (sources, files) = (Operands(sources), Files(files));
    let (results, faults) = (Results(results), Faults(faults));
    let reading = Reading(reading);
    format!(in alloc; "run{sources} steps={steps}{files}{results}{reading}{faults}")
}

fn show_debug(alloc: Global, task: &DebugTask<'_>) -> Result<String, AllocError> {
    let DebugTask {
        sources,
        script,
        interactive,
        files,
        reading,
        faults,
    } = task;
    let (sources, files) = (Operands(sources), Files(files));
    let (script, faults) = (Value("script", *script), Faults(faults));
    let (interactive, reading) = (Flag("interactive", *interactive), Reading(reading));
    format!(in alloc; "debug{sources}{script}{interactive}{files}{reading}{faults}")
}

fn show_run_image(alloc: Global, task: &RunImageTask<'_>) -> Result<String, AllocError> {
    let RunImageTask {
        image,
        steps,
        results,
        faults,
    } = task;
    let (image, results, faults) = (RunOfImage(*image), Results(results), Faults(faults));
    format!(in alloc; "run of{image} steps={steps}{results}{faults}")
}

fn show_debug_image(alloc: Global, task: &DebugImageTask<'_>) -> Result<String, AllocError> {
    let DebugImageTask {
        image,
        script,
        interactive,
        faults,
    } = task;
    let (image, faults) = (RunOfImage(*image), Faults(faults));
    let (script, interactive) = (Value("script", *script), Flag("interactive", *interactive));
    format!(in alloc; "debug of{image}{script}{interactive}{faults}")
}

fn show_dis(alloc: Global, task: &DisassembleTask<'_>) -> Result<String, AllocError> {
    let DisassembleTask {
        file,
        from,
        source,
        image,
        base,
        explain,
    } = task;
    let (file, from) = (Value("file", *file), Value("from", *from));
    let (source, image) = (Flag("source", *source), Image(*image));
    let (base, explain) = (Value("base", *base), Flag("explain", *explain));
    format!(in alloc; "dis{file}{from}{source}{image}{base}{explain}")
}

fn show_check(alloc: Global, task: &CheckTask<'_>) -> Result<String, AllocError> {
    let CheckTask {
        sources,
        command,
        pages,
        reading,
        faults,
    } = task;
    let (sources, command) = (Operands(sources), Value("command", *command));
    let (pages, reading, faults) = (Flag("pages", *pages), Reading(reading), Faults(faults));
    format!(in alloc; "check{sources}{command}{pages}{reading}{faults}")
}

fn show_move(alloc: Global, task: &MoveTask<'_>) -> Result<String, AllocError> {
    let MoveTask {
        sources,
        folder,
        command,
        writing,
        hex,
        quiet,
    } = task;
    let (sources, command) = (Operands(sources), Value("command", *command));
    let (writing, hex) = (Old(*writing), Value("hex", *hex));
    let quiet = Flag("quiet", *quiet);
    format!(in alloc; "move{sources} folder={folder}{command}{writing}{hex}{quiet}")
}

fn show(alloc: Global, task: &Task<'_>) -> Result<String, AllocError> {
    match task {
        Task::RunStandardInput => String::from_str(alloc, "standard input"),
        Task::Assemble(task) => show_asm(alloc, task),
        Task::Link(task) => show_link(alloc, task),
        Task::Build(task) => show_build(alloc, task),
        Task::Run(task) => show_run(alloc, task),
        Task::RunImage(task) => show_run_image(alloc, task),
        Task::Debug(task) => show_debug(alloc, task),
        Task::DebugImage(task) => show_debug_image(alloc, task),
        Task::Explain { fault } => {
            let fault = Value("fault", *fault);
            format!(in alloc; "explain{fault}")
        }
        Task::Disassemble(task) => show_dis(alloc, task),
        Task::Check(task) => show_check(alloc, task),
        Task::Move(task) => show_move(alloc, task),
    }
}

/// What reading a command line answers: a task, or `refused`.
fn told(alloc: Global, arguments: &[String]) -> Result<String, Fail> {
    match read_words(alloc, arguments) {
        Ok(task) => show(alloc, &task).map_err(Fail::from),
        Err(fault) if is_want_of_memory(&fault) => Err("no memory".into()),
        Err(_) => String::from_str(alloc, "refused").map_err(Fail::from),
    }
}

/// What reading the arguments of a line answers.
fn answer(alloc: Global, line: &str) -> Result<String, Fail> {
    let arguments = arguments_of(alloc, line)?;
    told(alloc, &arguments)
}

/// The cases of a text that are answered otherwise than they say, a line each, with the answer.
fn differing(alloc: Global, cases: &str) -> Result<String, Fail> {
    let mut out = String::new(alloc);
    for case in cases.lines() {
        let Some((wanted, line)) = case.split_once(" | ") else {
            return Err(Fail::from("no bar"));
        };
        let answer = answer(alloc, line)?;
        if answer.as_str() != wanted {
            write!(out, "{line}: {answer}\n")?;
        }
    }
    Ok(out)
}

/// Checks that each case of a text is answered as it says.
fn are_answered(rt: &(impl Abort + AllocGlobal), cases: &str) -> Result<(), Fail> {
    let differing = differing(rt.alloc(), cases)?;
    assert_eq!(rt; differing.as_str(), "");
    Ok(())
}

/// Checks that a command line asks for the run of standard input.
fn run_standard_input(rt: &(impl Abort + AllocGlobal), arguments: &[String]) -> Result<(), Fail> {
    let answer = told(rt.alloc(), arguments)?;
    assert_eq!(rt; answer.as_str(), "standard input");
    Ok(())
}

/// Words after the program's name, with single blanks between them.
fn line_of(alloc: Global, words: &[String]) -> Result<String, AllocError> {
    let mut line = String::new(alloc);
    for word in words.iter().skip(1) {
        if !line.is_empty() {
            line.push(' ')?;
        }
        line.push_str(word.as_str())?;
    }
    Ok(line)
}

/// The arguments of a line in the order in which they are read.
fn order(alloc: Global, line: &str) -> Result<String, Fail> {
    let arguments = arguments_of(alloc, line)?;
    match arranged(alloc, &arguments) {
        Ok(Some(words)) => line_of(alloc, &words).map_err(Fail::from),
        Ok(None) => line_of(alloc, &arguments).map_err(Fail::from),
        Err(_) => Err("no memory".into()),
    }
}

/// The cases of a text whose arguments are read in another order than they say, a line each, with the order.
fn disordered(alloc: Global, cases: &str) -> Result<String, Fail> {
    let mut out = String::new(alloc);
    for case in cases.lines() {
        let Some((wanted, line)) = case.split_once(" | ") else {
            return Err(Fail::from("no bar"));
        };
        let order = order(alloc, line)?;
        if order.as_str() != wanted {
            write!(out, "{line}: {order}\n")?;
        }
    }
    Ok(out)
}

/// The tip on a line that is not read, without the blanks around it.
fn tip(alloc: Global, line: &str) -> Result<String, Fail> {
    let arguments = arguments_of(alloc, line)?;
    match read_words(alloc, &arguments) {
        Ok(_) => Err("a task".into()),
        Err(fault) => {
            let tip = tip_on(&fault, &arguments).trim();
            String::from_str(alloc, tip).map_err(Fail::from)
        }
    }
}

/// The cases of a text that have another tip than they say, a line each, with the tip.
fn tipped_otherwise(alloc: Global, cases: &str) -> Result<String, Fail> {
    let mut out = String::new(alloc);
    for case in cases.lines() {
        let Some((wanted, line)) = case.split_once(" | ") else {
            return Err(Fail::from("no bar"));
        };
        let tip = tip(alloc, line)?;
        if tip.as_str() != wanted {
            write!(out, "{line}: {tip}\n")?;
        }
    }
    Ok(out)
}

#[test]
fn refused_words_have_tips(rt: HostRuntime) -> Result<(), Fail> {
    let otherwise = tipped_otherwise(rt.alloc(), TIPS)?;
    assert_eq!(rt; otherwise.as_str(), "");
    Ok(())
}

#[test]
fn help_and_flags_stand_before_subcommands(rt: HostRuntime) -> Result<(), Fail> {
    let disordered = disordered(rt.alloc(), ARRANGED)?;
    assert_eq!(rt; disordered.as_str(), "");
    Ok(())
}

#[test]
fn no_arguments_run_standard_input(rt: HostRuntime) -> Result<(), Fail> {
    let mut arguments = Vec::new(rt.alloc());
    run_standard_input(&rt, &arguments)?;
    arguments.push(String::from_str(rt.alloc(), "c25")?)?;
    run_standard_input(&rt, &arguments)
}

#[test]
fn subcommands_take_their_arguments(rt: HostRuntime) -> Result<(), Fail> {
    are_answered(&rt, TASKS)
}

#[test]
fn numbers_of_steps_are_read(rt: HostRuntime) -> Result<(), Fail> {
    are_answered(&rt, STEPS)
}

#[test]
fn flags_and_values_are_told_apart(rt: HostRuntime) -> Result<(), Fail> {
    are_answered(&rt, REGS)?;
    are_answered(&rt, SYMBOLS)?;
    are_answered(&rt, FROM)?;
    are_answered(&rt, IMAGE)?;
    are_answered(&rt, EXPLAIN)?;
    are_answered(&rt, ALL)
}

#[test]
fn symbols_and_folders_are_given_in_order(rt: HostRuntime) -> Result<(), Fail> {
    are_answered(&rt, READING)
}

#[test]
fn old_sources_are_moved(rt: HostRuntime) -> Result<(), Fail> {
    are_answered(&rt, MOVE)
}

#[test]
fn images_are_run_in_place_of_sources(rt: HostRuntime) -> Result<(), Fail> {
    are_answered(&rt, IMAGES)
}

#[test]
fn other_command_lines_are_refused(rt: HostRuntime) -> Result<(), Fail> {
    are_answered(&rt, REFUSED)
}

const TASKS: &str = "\
asm a.asm object=a.obj | asm a.asm --obj a.obj
asm a.asm object=a.obj listing=a.lst | asm a.asm --obj a.obj --list a.lst
asm a.asm object=a.obj | asm a.asm -o a.obj
asm a.asm object=a.obj listing=a.lst | asm -oa.obj a.asm --list a.lst
asm a.asm object=a.obj listing=a.lst | asm --list=a.lst --obj=a.obj a.asm
asm a.asm object=a.obj listing=a.lst | asm --list a.lst a.asm --obj a.obj
link c.cmd : a.obj base=b | link c.cmd a.obj --out b
link c.cmd : a.obj b.obj c.obj base=b | link c.cmd a.obj b.obj c.obj --out b
link c.cmd : a.obj b.obj base=b | link c.cmd --out b a.obj b.obj
link c.cmd : a.obj b.obj base=b | link c.cmd -o b a.obj b.obj
link c.cmd : a.obj b.obj base=b | link c.cmd a.obj --out b b.obj
link c.cmd : a.obj a.obj base=b | link --out b c.cmd a.obj a.obj
build a.asm base=b | build a.asm --out b
build a.asm base=b | build a.asm -o=b
build a.asm b.asm base=b command=c.cmd | build a.asm b.asm --out b --command c.cmd
build a.asm b.asm base=b command=c.cmd | build --command c.cmd a.asm --out=b b.asm
run a.asm steps=1000 | run a.asm
run a.asm b.asm c.asm steps=1000 | run a.asm b.asm c.asm
run b.asm a.asm steps=3 command=c samples=s schedule=w | run b.asm a.asm --steps 3 --command c --samples s --schedule w
run b.asm a.asm steps=3 command=c samples=s schedule=w | run --schedule w b.asm --samples=s a.asm --command c --steps=3
run a.asm steps=1000 command=f samples=f schedule=f | run a.asm --command f --samples f --schedule f
run a.asm steps=1000 samples=s | run a.asm --samples s
run a.asm steps=1000 schedule=w | run a.asm --schedule w
debug a.asm script=d | debug a.asm --script d
debug a.asm interactive | debug a.asm -i
debug a.asm b.asm interactive samples=s | debug --interactive a.asm b.asm --samples s
debug a.asm script=d interactive | debug a.asm -i --script d
debug a.asm | debug a.asm
debug a.asm b.asm script=d command=c samples=s schedule=w | debug a.asm --schedule w --samples s b.asm --script d --command c
check a.asm | check a.asm
check a.asm b.asm command=c | check a.asm --command c b.asm
check a.asm explain all | check --all --explain a.asm
check a.asm command=c pages | check --pages a.asm --command c
check a.asm pages explain | check a.asm --explain --pages
refused | run a.asm --pages
explain | explain
explain fault=53 | explain 53
explain fault=256 | explain 256
explain fault=+0255 | explain +0255
explain fault=FieldRange | explain FieldRange
dis file=a.obj | dis a.obj
dis file=-a | dis -- -a
dis | dis
run run asm help steps=1000 | run run asm help
run -a --steps -- steps=1000 | run -- -a --steps --
run a b steps=1000 | run a -- b
run a b steps=2 | run a --steps 2 -- b
run - steps=1000 command=- | run - --command -
asm - object=- listing=- | asm - --obj - --list=-
run a steps=1000 command=-c | run a --command=-c
run a steps=1000 command=--steps | run a --command=--steps
run a steps=1000 command=c=d | run a --command=c=d
run a steps=1000 command= | run a --command=
run a steps=1000 samples==s | run a --samples==s
link - : - base=- | link - - --out -
debug a script=-- | debug a --script=--
";

const READING: &str = "\
asm a object=b define=N define=M=2 include=i | asm a -o b -D N -D M=2 -I i
asm a object=b define=N=5 | asm a -o b -DN=5
asm a object=b define=N=5 all | asm --all a -o b --define N=5
build a base=b define=N include=i include=j | build a -Ii -o b -D N -I j
run a steps=1000 define=N | run -D N a
debug a script=d include=i | debug a --script d --include i
check a define=N=-1 explain | check a -D N=-1 --explain
refused | run a -D
refused | run a -D --all
refused | run a -d N
refused | run a -i i
refused | link c a --out b -D N
refused | dis a -I i
refused | explain 53 -D N
";

const IMAGES: &str = "\
run of image=h steps=1000 | run --image h
run of image=b binary low-first samples=s schedule=w steps=5 regs when all | run --image b --binary --low-first --samples s --schedule w --steps 5 --regs --when --all
run of high=u low=v hints=h blank=16 steps=1000 counts=c counts-list=l explain | run --hints h --low v --high u --blank 16 --counts c --counts-list l --explain
run of image=h high=u steps=1000 | run --image h --high u
run of binary steps=1000 | run --binary
run of blank=0 steps=1000 | run --blank 0
debug of image=h script=d | debug --image h --script d
debug of image=h samples=s interactive explain | debug -i --image=h --samples s --explain
debug of low=v low-first | debug --low-first --low v
refused | run
refused | run --steps 5
refused | debug -i
refused | run a --image h
refused | run --image h -- a
refused | run a --high u --low v
refused | run a --binary
refused | run a --low-first
refused | run a --blank 16
refused | run a --hints h
refused | run --image h --command c
refused | run --image h -D N
refused | run --image h -I i
refused | debug a --image h --script d
refused | debug --image h --command c -i
refused | debug --hints h --define N -i
refused | run --image
refused | run --image h --image h
refused | run --image h --blank x
refused | build --image h -o b
refused | check --image h
refused | dis --image h
";

const MOVE: &str = "\
move a folder=d | move a --out d
move a b folder=d | move a -o d b
move a folder=d command=c | move --command c a -o d
move a folder=d style=1987 quiet | move a --quiet --style 1987 -o d
move a folder=d style=x long_order=y ignore_case | move a -od --ignore-case --long-order=y --style=x
move a folder=d from=latin1 | move a --from latin1 -o d
move a folder=d from=f ignore_case | move --ignore-case --from=f a --out d
move a folder=d hex=h | move --hex h a -o d
move a b folder=d command=c style=s long_order=l ignore_case hex=h quiet | move --quiet --hex h --ignore-case --long-order l --style s --command c a b --out d
move -a folder=d | move -o d -- -a
refused | move a
refused | move -o d
refused | move a -o d -o e
refused | move a -o d --quiet --quiet
refused | move a -o d --quiet=true
refused | move a -o d --ignore-case --ignore-case
refused | move a -o d --style
refused | move a -o d --style 1987 --style spru018
refused | move a -o d --long-order
refused | move a -o d --from
refused | move a -o d --from cp437 --from latin1
refused | move a -o d --hex
refused | move a -o d --hex h --hex h
refused | move a -o d --command c --command c
refused | move a -o d --explain
refused | move a -o d --all
refused | move a -o d -D N
refused | move a --obj d
refused | build a -o d --style 1987
refused | build a -o d --from latin1
refused | run a --quiet
";

const ALL: &str = "\
asm a object=o all | asm a --obj o --all
asm a object=o explain all | asm --all a --explain --obj o
build a b base=b all | build a --all b --out b
run a steps=1000 all | run a --all
run --all steps=1000 | run -- --all
debug a script=d explain all | debug a --explain --script d --all
link c : a base=b all | link c a --out b --all
link c : a base=b explain all | link --all c a --out b --explain
refused | link c a --out b --all --all
refused | dis a --all
refused | run a --all --all
refused | run a --all=true
refused | explain 53 --all
";

const ARRANGED: &str = "\
run a | run a
run a help --all | run a help --all
build --explain a -o b | --explain build a -o b
build --explain --all a -o b | --explain --all build a -o b
run --all a --explain | --all run a --explain
run --all --all a | --all --all run a
explain --explain 53 | --explain explain 53
--explain | --explain
--all --explain | --all --explain
--help --explain | --explain --help
--Explain run a | --Explain run a
--explain=true run a | --explain=true run a
-- --explain run a | -- --explain run a
--help | help
run --help | help run
run --help a | help run a
explain --help | help explain
--help --help | help --help
help --explain run | --explain help run
Help run | Help run
";

const TIPS: &str = "\
tip: build, run, debug and check take a command file as '--command FILE' | run a -c f
tip: build, run, debug and check take a command file as '--command FILE' | asm a -o b -c f
tip: build, run, debug and check take a command file as '--command FILE' | run a -v -c f
tip: 'c25 --version' prints the version | -v
tip: 'c25 --version' prints the version | run a -v
tip: 'c25 help' lists the subcommands, and 'c25 help run' prints the options of one | help help
tip: 'c25 help' lists the subcommands, and 'c25 help run' prints the options of one | help biuld
tip: link takes the command file first, an empty one will do: 'c25 link FILE.cmd a.obj -o a' | link a.obj -o a
tip: link takes the command file first, an empty one will do: 'c25 link FILE.cmd a.obj -o a' | link -o a A.OBJ
tip: link takes the command file first, an empty one will do: 'c25 link FILE.cmd a.obj -o a' | link a.obj b.obj
tip: the subcommand comes first: 'c25 run a.asm' runs the source a.asm | a.asm
tip: the subcommand comes first: 'c25 run a.asm' runs the source a.asm | main.s -o b
tip: name the source after the subcommand, as in 'c25 run a.asm' | run
tip: name the source after the subcommand, as in 'c25 run a.asm' | debug -i
tip: name the source after the subcommand, as in 'c25 run a.asm' | build -o a
tip: name the source after the subcommand, as in 'c25 run a.asm' | check
 | run a --image h
 | main
 | link c.cmd -o a.obj
 | link c.cmd a.obj
 | link -o a
 | asm a.obj
 | run a -x
 | run a -x -- -c
 | run a --steps ten -- -c
 | run a --help -c
 | biuld a -c f
 | -V
";

const STEPS: &str = "\
run a steps=0 | run a --steps 0
run a steps=5 | run a --steps=5
run a steps=5 | run a --steps +5
run a steps=5 | run a --steps=+5
run a steps=5 | run a --steps 0000000000000000000000005
run a steps=0 | run a --steps=-0
run a steps=0 | run a --steps=-000
run a steps=0 | run a --steps +0
run a steps=999 | run a --steps 999
run a steps=1001 | run a --steps 1001
run a steps=4294967295 | run a --steps 4294967295
run a steps=4294967295 | run a --steps=+0004294967295
refused | run a --steps 4294967296
refused | run a --steps 18446744073709551616
refused | run a --steps 99999999999999999999999999999999
refused | run a --steps=-1
refused | run a --steps -0
refused | run a --steps -1
refused | run a --steps=
refused | run a --steps=+
refused | run a --steps=-
refused | run a --steps=+-0
refused | run a --steps=-+0
refused | run a --steps=++5
refused | run a --steps ten
refused | run a --steps 10h
refused | run a --steps 0x10
refused | run a --steps 1,000
refused | run a --steps 5.0
refused | run a --steps
refused | run a --steps 5 --steps 5
refused | run a --steps=5 --steps 6
";

const REGS: &str = "\
run a steps=1000 regs | run a --regs
run a steps=1000 regs | run --regs a
run a b steps=5 command=c samples=s schedule=w regs | run a --regs b --steps 5 --command c --samples s --schedule w
run --regs steps=1000 | run -- --regs
run a --regs steps=1000 regs | run --regs -- a --regs
run a regs steps=1000 | run a regs
run a steps=1000 command=--regs | run a --command=--regs
refused | run --regs
refused | run a --regs --regs
refused | run a --regs=true
refused | run a --regs=false
refused | run a --regs=
refused | run a --reg
refused | run a --Regs
refused | run a -regs
refused | run a --no-regs
refused | run a --steps --regs
refused | debug a --script d --regs
refused | build a --out b --regs
refused | asm a --obj b --regs
refused | --regs run a
run a steps=1000 when | run a --when
run a steps=9 regs when | run --when a --regs --steps 9
run a steps=1000 counts=c | run a --counts c
run a steps=1000 counts-list=c | run a --counts-list c
run a b steps=1000 command=d when counts=c counts-list=l | run a --counts-list=l b --counts=c --when --command d
run a steps=1000 counts=--when | run a --counts=--when
run --when steps=1000 counts=-c | run --counts=-c -- --when
refused | run a --when --when
refused | run a --when=true
refused | run a --counts
refused | run a --counts --when
refused | run a --counts c --counts c
refused | run a --counts-list
refused | run a --counts-list c --counts-list d
refused | run a --count c
refused | run a --counts_list c
refused | run --counts c
refused | debug a --script d --when
refused | debug a --script d --counts c
refused | build a --out b --counts c
refused | check a --counts-list c
";

const SYMBOLS: &str = "\
build a base=b symbols=s | build a --out b --symbols s
build a base=b rom=4000 | build a --out b --rom 4000
build a base=b symbols=s rom=16:800 fill=0 | build --fill 0 a --rom=16:800 -o b --symbols s
build a base=b fill=1234 | build a -o b --fill=1234
refused | build a -o b --rom
refused | build a -o b --rom 1 --rom 2
refused | run a --rom 800
refused | link c o -o b --rom 800
build a base=b symbols=s | build --symbols=s --out=b a
build a c base=b command=d symbols=s | build a --symbols s c --command d -o b
build a base=b symbols=-s | build a --out b --symbols=-s
build a base=b symbols= | build a --out b --symbols=
build --symbols s base=b | build --out b -- --symbols s
refused | build a --out b --symbols
refused | build a --symbols --out b
refused | build a --out b --symbols -s
refused | build a --out b --symbols s --symbols s
refused | build a --out b --symbols=s --symbols t
refused | build a --out b --symbol s
refused | build a --symbols s
refused | build --symbols s --out b
refused | link c a --out b --symbols s
refused | asm a --obj b --symbols s
refused | run a --symbols s
refused | debug a --script d --symbols s
";

const FROM: &str = "\
dis file=a from=0400 | dis a --from 0400
dis file=a from=0400 | dis --from=0400 a
dis file=a from=zz | dis a --from zz
dis file=a from=-1 | dis a --from=-1
dis file=a from= | dis a --from=
dis file=a from=0 | dis --from 0 -- a
dis file=--from | dis -- --from
dis from=0400 | dis --from 0400
refused | dis a --from
refused | dis a --from -1
refused | dis a --from 0 --from 0
refused | dis a --from=0 --from 1
refused | dis a --from 0 1
refused | dis a --From 0
refused | dis a -f 0
refused | run a --from 0
refused | explain 53 --from 0
";

const IMAGE: &str = "\
dis file=a source base=b | dis --source a --out b
dis file=a source base=b | dis a -ob --source
dis source high=h low=l hints=n base=b | dis --source --high h --low l --hints n -o b
dis file=a source binary low-first base=b | dis --low-first --source --binary a -o b
dis file=a source blank=0 base=b explain | dis a --explain --source --blank 0 -o b
dis file=a source blank=4294967295 base=b | dis a --source --blank=4294967295 -o b
dis high=h | dis --high h
dis low=l | dis --low l
dis binary blank=16 base=b | dis --binary --blank +16 --out=b
dis file=--source | dis -- --source
refused | dis a --source=true
refused | dis a --source --source
refused | dis --binary --binary a
refused | dis a b --source -o c
refused | dis a --high
refused | dis --high h --high i
refused | dis --low l --low m
refused | dis a --hints h --hints i
refused | dis a -o b -o c
refused | dis a --blank
refused | dis a --blank 4294967296
refused | dis a --blank ten
refused | dis a --blank -1
refused | dis a --lowfirst
refused | run a --source
refused | build a -o b --blank 1
";

const EXPLAIN: &str = "\
asm a object=o explain | asm a -o o --explain
asm a object=o listing=l explain | asm --explain a --list l --obj o
link c : a b base=d explain | link c a --explain b --out d
link c : a --explain base=d | link --out d -- c a --explain
build a base=b explain | build --explain a --out b
build a base=b command=c symbols=s explain | build a --out b --command c --explain --symbols s
run a steps=1000 explain | run a --explain
run a steps=1000 regs explain | run --explain a --regs
run a steps=1000 command=--explain | run a --command=--explain
debug a script=d explain | debug a --script d --explain
debug a script=d command=c samples=s schedule=w explain | debug a --explain --script d --command c --samples s --schedule w
refused | asm a -o o --explain --explain
refused | link c a -o d --explain --explain
refused | build a -o b --explain --explain
refused | run a --explain --explain
refused | debug a --script d --explain --explain
refused | asm a -o o --explain=true
refused | run a --explain=
refused | run a --explain=53
refused | run --explain
refused | debug a --script --explain
refused | run a --Explain
refused | run a --expl
dis file=a explain | dis a --explain
dis file=a from=0400 explain | dis --explain a --from 0400
refused | dis a --explain --explain
refused | explain 53 --explain
refused | --explain run a
";

const REFUSED: &str = "\
refused | run
refused | run --steps 5
refused | run --
refused | debug -i
refused | debug a.asm -i -i
refused | debug a.asm --interactive=true
refused | run a.asm -i
refused | debug --script d
refused | debug a.asm --script
refused | debug a.asm --script d --steps 5
refused | debug a.asm --script d --script e
refused | explain 53 54
refused | explain -53
refused | explain --fault 53
refused | dis a.obj b.obj
refused | dis --file a.obj
refused | build a.asm
refused | build --out b
refused | build a.asm --out b --out b
refused | build a.asm --out b --samples s
refused | build a.asm --out b --list l
refused | asm a.asm
refused | asm --obj a.obj
refused | asm a.asm b.asm --obj a.obj
refused | asm a.asm --obj a.obj --obj a.obj
refused | asm a.asm --obj a.obj --list
refused | asm a.asm --obj a.obj --out b
refused | asm a.asm --obj a.obj --command c
refused | asm a.asm --obj --list l
refused | link c.cmd a.obj
refused | link c.cmd --out b
refused | link --out b
refused | link --command c.cmd a.obj --out b
refused | run a.asm --obj a.obj
refused | run a.asm --script d
refused | run a.asm --out b
refused | run a.asm --command c --command c
refused | run a.asm --command -c
refused | run a.asm --command --samples s
refused | run a.asm --samples --
refused | run a.asm --Steps 5
refused | run a.asm --step 5
refused | run a.asm --s 5
refused | run a.asm -s 5
refused | run a.asm -steps 5
refused | run a.asm --=5
refused | run a.asm -x
refused | run a.asm -h
refused | run a.asm --help
refused | run a.asm --version
refused | run a.asm -V
refused | run --help
refused | asm -h
refused | link --help
refused | build -h
refused | debug --help
refused | help
refused | help run
refused | -h
refused | --help
refused | --version
refused | -V
refused | --
refused | -- run a.asm
refused | -
refused | assemble a.asm
refused | Run a.asm
refused | ru a.asm
refused | a.asm
refused | a.asm --steps 5
refused | --steps 5
refused | --steps 5 run a.asm
refused | --command c run a.asm
";
