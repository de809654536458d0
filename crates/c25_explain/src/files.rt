//! Files and memory: explanations of faults, made of docs/FAULTS.md by docs/explanations.py --write.

ghost use Rattle.c25_explain.specs.Explanation.{IsExplanationOf};
ghost use Rattle.c25_explain.specs.declared.fault.AnyFault.TheVariants.{File, Memory};
ghost use Rattle.c25_disk.specs.declared.fault.FileFault.TheVariants as fault;

use crate::parts::Explanation;

pub(crate) fn cannot_write() -> Explanation
    ensures { IsExplanationOf (File fault.CannotWrite) result }
{
    Explanation {
        number: 7,
        name: "CannotWrite",
        meaning: r#"A file cannot be written. The files before it in this order stay written: the object, the listing
(asm); B.p0.hex, B.p1.hex, B.map (link, build), listings, the file of --symbols, the files of --rom
(build), the files of --counts and --counts-list (run). stdout: 7 CannotWrite means that a run or
the debugger cannot write to standard output: the disk of a file after `>` is full, or the program
that reads the output has ended.
"#,
        example: Some(
            r#"Given:

    $ c25 asm a.asm --obj none/a.obj
     NOP

Reported:

    none/a.obj: 7 CannotWrite
"#,
        ),
        advice: r#"Do: make the folder, which the program does not make; check rights and free space.
"#,
    }
}

pub(crate) fn cannot_read() -> Explanation
    ensures { IsExplanationOf (File fault.CannotRead) result }
{
    Explanation {
        number: 8,
        name: "CannotRead",
        meaning: r#"A file cannot be read, has more than 16,777,216 bytes, or is a text that is not UTF-8; or it is the
257th copied file, which is refused without being read.
"#,
        example: Some(
            r#"Given:

    $ c25 run a.asm

Reported:

    a.asm: 8 CannotRead
"#,
        ),
        advice: r#"Do: check the name, the rights and the folder. An object is not a text: link reads it, and run,
build, asm and debug want the source. The name of a copied file is taken as it stands, from the
folder in which the program runs and not from that of the source; a file that is not there is looked
for in the folders of -I. Old sources often have comments with letters beyond ASCII in another
encoding: convert them, as with iconv -f CP437 -t UTF-8.
"#,
    }
}

pub(crate) fn no_memory() -> Explanation
    ensures { IsExplanationOf Memory result }
{
    Explanation {
        number: 9,
        name: "NoMemory",
        meaning: r#"Memory ran out. No text gives this fault; the line is memory: 9 NoMemory.
"#,
        example: None,
        advice: r#"Do: give the program more memory, end other programs, or take fewer steps in a debugger session with
many outputs: each output is kept until the session ends.
"#,
    }
}

pub(crate) fn file_twice() -> Explanation
    ensures { IsExplanationOf (File fault.FileTwice) result }
{
    Explanation {
        number: 37,
        name: "FileTwice",
        meaning: r#"A source is named twice on the command line.
"#,
        example: Some(
            r#"Given:

    $ c25 run a.asm a.asm
     NOP

Reported:

    a.asm: 37 FileTwice
"#,
        ),
        advice: r#"Do: name it once. Put what several modules share in a file that each of them copies with .copy.
"#,
    }
}
