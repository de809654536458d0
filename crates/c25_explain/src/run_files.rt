//! Samples, schedule, script: explanations of faults, made of docs/FAULTS.md by docs/explanations.py --write.

ghost use Rattle.c25_explain.specs.Explanation.{IsExplanationOf};
ghost use Rattle.c25_explain.specs.declared.fault.AnyFault.TheVariants.{Samples, Schedule, Script};

use crate::parts::Explanation;

pub(crate) fn bad_schedule() -> Explanation
    ensures { IsExplanationOf Schedule result }
{
    Explanation {
        number: 90,
        name: "BadSchedule",
        meaning: r#"A line of the schedule is not a step and an event, or its step is less than that of the line before.
A step is a decimal number up to 4,294,967,295, counted from 0; an event is INT0, INT1, INT2, BIO0
or BIO1.
"#,
        example: Some(
            r#"Given:

     NOP
    --- schedule
    5 INT0
    4 INT1

Reported:

    schedule:2: 90 BadSchedule
"#,
        ),
        advice: r#"Do: sort the lines by step; take comments out. Several events may have one step.
"#,
    }
}

pub(crate) fn bad_samples() -> Explanation
    ensures { IsExplanationOf Samples result }
{
    Explanation {
        number: 91,
        name: "BadSamples",
        meaning: r#"A line of the samples is not a port and a word. A port is a decimal number from 0 to 15; a word has
exactly four hexadecimal digits, without h.
"#,
        example: Some(
            r#"Given:

     NOP
    --- samples
    16 0000

Reported:

    samples:1: 91 BadSamples
"#,
        ),
        advice: r#"Do: write a line for each word, as 2 00FF, and negative samples in two's complement, -1 as FFFF;
take comments out. Lines that a run printed can be used as samples, without its last line.
"#,
    }
}

pub(crate) fn bad_command() -> Explanation
    ensures { IsExplanationOf Script result }
{
    Explanation {
        number: 95,
        name: "BadCommand",
        meaning: r#"A line of a debugger's script is not a command. No line of the script is answered then, not even
those before it.
"#,
        example: Some(
            r#"Given:

    $ c25 debug a.asm --script script
     NOP
    --- script
    hop

Reported:

    script:1: 95 BadCommand
"#,
        ),
        advice: r#"Do: use step n, run n, break a, clear a, regs, data a n, prog a n, stack, where, list n or symbols,
with n decimal and a of one to four hexadecimal digits without h; data and prog may not go on past
word FFFFh. Take comments out.
"#,
    }
}
