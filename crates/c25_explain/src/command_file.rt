//! Command file: explanations of faults, made of docs/FAULTS.md by docs/explanations.py --write.

ghost use Rattle.c25_explain.specs.Explanation.{IsExplanationOf};
ghost use Rattle.c25_explain.specs.declared.fault.AnyFault.TheVariants.{Command};
ghost use Rattle.c25_meaning_linking.specs.declared.command_fault.CommandFault.TheVariants as fault;

use crate::parts::Explanation;

pub(crate) fn syntax() -> Explanation
    ensures { IsExplanationOf (Command fault.Syntax) result }
{
    Explanation {
        number: 60,
        name: "Syntax",
        meaning: r#"A name, number or sign stands where it is not allowed, or the text ends too soon, which is reported
at its last line.
"#,
        example: Some(
            r#"Given:

     NOP
    --- command
    MEMORY {

Reported:

    command:1: 60 Syntax
"#,
        ),
        advice: r#"Do: name objects and outputs on the command line; write comments between `/*` and `*/`; put only the
section's own name inside braces; close each `{` by a `}` before the next MEMORY or SECTIONS; write
numbers as 16, 10h or 0x10: a leading 0, which elsewhere may mean octal, is refused. run = takes a
number from 0FF00h on, not the name of a range, and comes after the target and PAGE. UNION, GROUP,
fills, holes, alignment, assignments and -m are not supported. Page 0 is program memory and page 1
is data memory; there is no other page.
"#,
    }
}

pub(crate) fn range_overlap() -> Explanation
    ensures { IsExplanationOf (Command fault.RangeOverlap) result }
{
    Explanation {
        number: 61,
        name: "RangeOverlap",
        meaning: r#"A range shares a word with an earlier range of its page.
"#,
        example: Some(
            r#"Given:

     NOP
    --- command
    MEMORY { A : o = 0, l = 2
             B : o = 1, l = 2 }

Reported:

    command:2: 61 RangeOverlap
"#,
        ),
        advice: r#"Do: correct the origin or the length; put PAGE 1 : before ranges of data memory.
"#,
    }
}

pub(crate) fn range_size() -> Explanation
    ensures { IsExplanationOf (Command fault.RangeSize) result }
{
    Explanation {
        number: 62,
        name: "RangeSize",
        meaning: r#"A range has length 0, or goes on past word FFFFh.
"#,
        example: Some(
            r#"Given:

     NOP
    --- command
    MEMORY { P : o = 0, l = 0 }

Reported:

    command:1: 62 RangeSize
"#,
        ),
        advice: r#"Do: count lengths in words, not in bytes; leave out a range without words.
"#,
    }
}

pub(crate) fn twice() -> Explanation
    ensures { IsExplanationOf (Command fault.Twice) result }
{
    Explanation {
        number: 63,
        name: "Twice",
        meaning: r#"There is a second MEMORY, SECTIONS or -e, a second range of one name on one page, or a second entry
for a section.
"#,
        example: Some(
            r#"Given:

     NOP
    --- command
    -e A
    -e B

Reported:

    command:2: 63 Twice
"#,
        ),
        advice: r#"Do: put all ranges in one MEMORY and all sections in one SECTIONS. A range of page 0 and a range of
page 1 may have one name.
"#,
    }
}
