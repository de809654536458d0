//! Macros, conditional lines, loops, copied files: explanations of faults, made of docs/FAULTS.md by docs/explanations.py --write.

ghost use Rattle.c25_explain.specs.Explanation.{IsExplanationOf};
ghost use Rattle.c25_explain.specs.declared.fault.AnyFault.TheVariants.{Source};
ghost use Rattle.c25_meaning_language.specs.declared.statement.FaultKind.TheVariants as fault;

use crate::parts::Explanation;

pub(crate) fn no_file() -> Explanation
    ensures { IsExplanationOf (Source fault.NoFile) result }
{
    Explanation {
        number: 30,
        name: "NoFile",
        meaning: r#"A file that .copy or .include names is not among the files that were given. The program reads such a
file from the disk and never reports 30: where it cannot, it reports 8. A caller of run_chain gives
all files, and gets 30 at the line that copies, or at line 0 where the source itself is missing.
"#,
        example: Some(
            r#"Given:

    $ run_chain a.asm
     .copy "b.inc"

Reported:

    a.asm:1: 30 NoFile
"#,
        ),
        advice: r#"Do: add the file under exactly the name that stands in the line.
"#,
    }
}

pub(crate) fn open_block() -> Explanation
    ensures { IsExplanationOf (Source fault.OpenBlock) result }
{
    Explanation {
        number: 31,
        name: "OpenBlock",
        meaning: r#"An .if, .loop or .macro is not closed in the file, macro body or loop body in which it begins. The
line that is reported is the last one of that file or body, not the one that opens the block.
"#,
        example: Some(
            r#"Given:

     .if 1

Reported:

    a.asm:1: 31 OpenBlock
"#,
        ),
        advice: r#"Do: write the .endif, .endloop or .endm of the block; --explain shows the line that opened it, after
open:. Where that block looks whole, look upwards for one without its end. A block cannot begin in
one file or body and end in another.
"#,
    }
}

pub(crate) fn stray_end() -> Explanation
    ensures { IsExplanationOf (Source fault.StrayEnd) result }
{
    Explanation {
        number: 32,
        name: "StrayEnd",
        meaning: r#"An .endif, .else, .elseif, .endloop or .endm belongs to no open block, an .else or .elseif comes
after the .else, a .mexit is outside every macro, or a .break is outside every loop.
"#,
        example: Some(
            r#"Given:

     .endif

Reported:

    a.asm:1: 32 StrayEnd
"#,
        ),
        advice: r#"Do: count the blocks above the line. An .endif in a macro does not close an .if of its caller; a
.macro inside a macro needs an .endm of its own.
"#,
    }
}

pub(crate) fn depth() -> Explanation
    ensures { IsExplanationOf (Source fault.Depth) result }
{
    Explanation {
        number: 33,
        name: "Depth",
        meaning: r#"A 33rd block is opened: macro calls, copied files, loops and .ifs count together.
"#,
        example: Some(
            r#"Given:

    R .macro
     R
     .endm
     R

Reported:

    a.asm:2: 33 Depth
"#,
        ),
        advice: r#"Do: look for a macro that calls itself, or a file that copies itself, without an .if that ends it;
use .loop to repeat lines.
"#,
    }
}

pub(crate) fn lines() -> Explanation
    ensures { IsExplanationOf (Source fault.Lines) result }
{
    Explanation {
        number: 34,
        name: "Lines",
        meaning: r#"More than 200,000 lines are read for one source. Lines of macros and loops count each time, and so
do lines that are skipped.
"#,
        example: Some(
            r#"Given:

     .loop 200000
    * a line
     .endloop

Reported:

    a.asm:2: 34 Lines
"#,
        ),
        advice: r#"Do: look for a loop without its .break; reserve memory with .space, which takes one line.
"#,
    }
}

pub(crate) fn too_many_parameters() -> Explanation
    ensures { IsExplanationOf (Source fault.TooManyParameters) result }
{
    Explanation {
        number: 35,
        name: "TooManyParameters",
        meaning: r#"A macro has more than 32 parameters.
"#,
        example: Some(
            r#"Given:

    P .macro a,b,c,d,e,f,g,h,i,j,k,l,m,n,o,p,q,r,s,t,u,v,w,x,y,z,A,B,C,D,E,F,G
     .endm

Reported:

    a.asm:1: 35 TooManyParameters
"#,
        ),
        advice: r#"Do: pass several values in the last parameter, which takes all arguments that are left, commas too.
"#,
    }
}

pub(crate) fn redefined() -> Explanation
    ensures { IsExplanationOf (Source fault.Redefined) result }
{
    Explanation {
        number: 36,
        name: "Redefined",
        meaning: r#"A macro has the name of a macro that is defined already, or of a mnemonic in upper or lower case.
"#,
        example: Some(
            r#"Given:

    NOP .macro
     .endm

Reported:

    a.asm:1: 36 Redefined
"#,
        ),
        advice: r#"Do: rename the macro; copy a file of macros only once; move a .macro out of a macro that is called
more than once.
"#,
    }
}

pub(crate) fn long_line() -> Explanation
    ensures { IsExplanationOf (Source fault.LongLine) result }
{
    Explanation {
        number: 38,
        name: "LongLine",
        meaning: r#"A line has more than 1,024 bytes after substitution, its comment included, or takes more than 1,024
replacements.
"#,
        example: Some(
            r#"Given:

     .asg 1,k
     .loop 20
     .asg k+k,k
     .endloop

Reported:

    a.asm:3: 38 LongLine
"#,
        ),
        advice: r#"Do: use .eval in place of .asg to keep a value and not a text; split the line.
"#,
    }
}
