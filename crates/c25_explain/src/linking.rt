//! Linking: explanations of faults, made of docs/FAULTS.md by docs/explanations.py --write.

ghost use Rattle.c25_explain.specs.Explanation.{IsExplanationOf};
ghost use Rattle.c25_explain.specs.declared.fault.AnyFault.TheVariants.{Link, Rom};
ghost use Rattle.c25_meaning_linking.specs.declared.link_fault.LinkFault.TheVariants as fault;

use crate::parts::Explanation;

pub(crate) fn unresolved() -> Explanation
    ensures { IsExplanationOf (Link fault.Unresolved) result }
{
    Explanation {
        number: 70,
        name: "Unresolved",
        meaning: r#"A name is used, and no module defines it as a global name.
"#,
        example: Some(
            r#"Given:

     .ref X
     CALL X

Reported:

    link:X: 70 Unresolved
"#,
        ),
        advice: r#"Do: name the source or object that defines it on the command line, and write the symbol after a .def
or .global in that module. A symbol that is declared and not used needs no definition.
"#,
    }
}

pub(crate) fn defined_twice() -> Explanation
    ensures { IsExplanationOf (Link fault.DefinedTwice) result }
{
    Explanation {
        number: 71,
        name: "DefinedTwice",
        meaning: r#"A second module defines the same global name.
"#,
        example: Some(
            r#"Given:

     .def GO
    GO NOP
    --- b.asm
     .def GO
    GO NOP

Reported:

    link:GO: 71 DefinedTwice
"#,
        ),
        advice: r#"Do: leave out .def or .global where only one module uses the name; define a common constant in a
copied file without .global.
"#,
    }
}

pub(crate) fn no_range() -> Explanation
    ensures { IsExplanationOf (Link fault.NoRange) result }
{
    Explanation {
        number: 72,
        name: "NoRange",
        meaning: r#"The range that SECTIONS names for a section does not exist, or the section's page has no range.
Without MEMORY the ranges are PROG (page 0, all of it) and DATA (page 1, 300h to FFFFh).
"#,
        example: Some(
            r#"Given:

     NOP
    --- command
    SECTIONS { .text : > ROM }

Reported:

    link:.text: 72 NoRange
"#,
        ),
        advice: r#"Do: check the spelling and the case; give each page that is used a range. Every module has a .text,
which needs a range even where it is empty.
"#,
    }
}

pub(crate) fn does_not_fit() -> Explanation
    ensures { IsExplanationOf (Link fault.DoesNotFit) result }
{
    Explanation {
        number: 73,
        name: "DoesNotFit",
        meaning: r#"No range has room for a section in one piece with each of its blocks (third operand of .bss) inside
one data page of 128 words; or at its address a section does not lie wholly in one range, or a block
of it ends in the next data page.
"#,
        example: Some(
            r#"Given:

     B 0
    --- command
    MEMORY { P : o = 0, l = 1 }

Reported:

    link:.text: 73 DoesNotFit
"#,
        ),
        advice: r#"Where the section has blocks, they may be the cause. The words of .bss follow one another in the
order of their lines, and nothing is left free between them. So three blocks of 100 words one after
another fit nowhere: wherever the section begins, one of them crosses a page, and no range is wide
enough.

Do: widen the range, split the section into two with names of their own, or give the section another
range. Two ranges that touch are not one range. A section with an address and no PAGE is on page 0,
an uninitialised one too. Where blocks are the cause, a wider range alone seldom helps: fill the
page before a block that crosses it, as by .bss HOLE,28 between two blocks of 100 words; put words
that are no blocks after all blocks; or reserve them by .usect, in a section of their own with an
address.
"#,
    }
}

pub(crate) fn overlap() -> Explanation
    ensures { IsExplanationOf (Link fault.Overlap) result }
{
    Explanation {
        number: 74,
        name: "Overlap",
        meaning: r#"At its address a section shares a word with a section that was placed before.
"#,
        example: Some(
            r#"Given:

     B 0
     .sect "b"
     NOP
    --- command
    SECTIONS { .text : > 0
               b : > 1 }

Reported:

    link:b: 74 Overlap
"#,
        ),
        advice: r#"Do: move one of the two; the map of the program without the addresses has the lengths. Sections
without an address never overlap: they go where there is room.
"#,
    }
}

pub(crate) fn reloc_range() -> Explanation
    ensures { IsExplanationOf (Link fault.RelocRange) result }
{
    Explanation {
        number: 75,
        name: "RelocRange",
        meaning: r#"A field does not take the address or value that linking gives it: a second word or .word takes
-32,768 to 65,535, a direct operand or LDPK takes 0 to 65,535. The name that is reported is that of
the section with the field.
"#,
        example: Some(
            r#"Given:

    X LAC X-1

Reported:

    link:.text: 75 RelocRange
"#,
        ),
        advice: r#"Do: look for a negative offset from the first label of a section, for a label after the last word of
a page (its address is 10000h), and for a global .set that is not an address; keep only the low bits
of a constant in the module that defines it, by &0FFFFh after its value.
"#,
    }
}

pub(crate) fn no_entry() -> Explanation
    ensures { IsExplanationOf (Link fault.NoEntry) result }
{
    Explanation {
        number: 76,
        name: "NoEntry",
        meaning: r#"The name of -e is not a global name that a module defines.
"#,
        example: Some(
            r#"Given:

    MAIN NOP
    --- command
    -e MAIN

Reported:

    link:MAIN: 76 NoEntry
"#,
        ),
        advice: r#"Do: write a .def with that name in the module that defines it. The entry is only printed in the map:
a run always begins at address 0, so put a branch there.
"#,
    }
}

pub(crate) fn bad_run() -> Explanation
    ensures { IsExplanationOf (Link fault.BadRun) result }
{
    Explanation {
        number: 78,
        name: "BadRun",
        meaning: r#"A section cannot run where run = says: outside FF00h to FFFFh, which is block B0 as program memory;
past the end of B0; or over a word of another section that runs there and was placed before. Or it
has no words that could be copied there, because it is uninitialised (.bss, .usect) or on page 1.
For one section, 72 to 74 are reported before 78.
"#,
        example: Some(
            r#"Given:

     NOP
    --- command
    SECTIONS { .text : run = 0 }

Reported:

    link:.text: 78 BadRun
"#,
        ),
        advice: r#"Do: write a number from 0FF00h on, with room for the section after it: B0 has 256 words. Put
sections that run there one after another, by their lengths in the map. For a table that is copied
to data memory, reserve words there with .bss; it needs no run =.
"#,
    }
}

pub(crate) fn past_rom() -> Explanation
    ensures { IsExplanationOf Rom result }
{
    Explanation {
        number: 79,
        name: "PastRom",
        meaning: r#"A word of program memory has no place in the EPROMs that build --rom writes: its address, which the
line has, is the size that was asked for or beyond. Of several such words it is the one with the
lowest address.
"#,
        example: Some(
            r#"Given:

    $ c25 build a.asm --out a --rom 1
     B 0

Reported:

    rom:0001: 79 PastRom
"#,
        ),
        advice: r#"Do: ask for larger EPROMs, up to --rom 10000; or place the section that stands there lower, by
MEMORY and SECTIONS of the command file. The map (B.map of a build without --rom) says which section
it is.
"#,
    }
}
