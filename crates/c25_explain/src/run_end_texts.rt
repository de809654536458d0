//! Ends of runs: explanations, made of docs/FAULTS.md by docs/explanations.py --write.

ghost use Rattle.std.specs.Prelude.{◌≡◌};
ghost use Rattle.c25_meaning_processor.specs.RunText.{stop_name};
ghost use Rattle.c25_meaning_processor.specs.declared.stop.Stop.TheVariants as stop;

use crate::run_ends::RunEnd;

pub(crate) fn out_of_code() -> RunEnd
    ensures { result.name.now ≡ stop_name stop.OutOfCode }
{
    RunEnd {
        name: "OutOfCode",
        meaning: r#"The program counter is not at an instruction of the program, or it is at the load address of one
that runs in block B0 (run =). Under CNF 1, where B0 is program memory, also: a word of the
instruction lies in B0, unless the instruction runs at that address of B0 and B0 holds its words as
they were loaded.
"#,
        example: r#"Given:

     NOP

Reported:

    left 1 OutOfCode
"#,
    }
}

pub(crate) fn code_write() -> RunEnd
    ensures { result.name.now ≡ stop_name stop.CodeWrite }
{
    RunEnd {
        name: "CodeWrite",
        meaning: r#"TBLW writes to a word of an instruction; for an instruction that runs in block B0, to a word at its
load address. Under CNF 1 a word of B0 may be written.
"#,
        example: r#"Given:

     LACK 0
     TBLW 60h

Reported:

    left 1 CodeWrite
"#,
    }
}

pub(crate) fn bad_repeat() -> RunEnd
    ensures { result.name.now ≡ stop_name stop.BadRepeat }
{
    RunEnd {
        name: "BadRepeat",
        meaning: r#"The instruction that is repeated is a branch, call or return, TRAP, IDLE, RPT, RPTK or an
instruction with a long immediate.
"#,
        example: r#"Given:

     RPTK 2
     B 0

Reported:

    left 1 BadRepeat
"#,
    }
}

pub(crate) fn port_dry() -> RunEnd
    ensures { result.name.now ≡ stop_name stop.PortDry }
{
    RunEnd {
        name: "PortDry",
        meaning: r#"IN reads a port that has no samples left. A run that uses up its samples ends so, with status 3 like
the others; the name says which it was. With --steps K, K being the number in that line, the same
run ends as ran K with status 0.
"#,
        example: r#"Given:

     IN 60h,PA2

Reported:

    left 0 PortDry
"#,
    }
}
