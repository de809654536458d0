//! Images: explanations of faults, made of docs/FAULTS.md by docs/explanations.py --write.

ghost use Rattle.c25_explain.specs.Explanation.{IsExplanationOf};
ghost use Rattle.c25_explain.specs.declared.fault.AnyFault.TheVariants.{Hint, LengthsDiffer, OddLength, TooLong, TooManySections};

use crate::parts::Explanation;

pub(crate) fn bad_hint() -> Explanation
    ensures { IsExplanationOf Hint result }
{
    Explanation {
        number: 92,
        name: "BadHint",
        meaning: r#"A line of the hints is no hint. Its first word is another one, it has no address, its words go on
past FFFFh or there are none, the words of run do not lie in block B0 where they run, the name of
label is invalid, or something comes after the hint that is no comment. Or it is one, and does not
go together with a line before it: it gives the name of one address to another, or a word another
place to run, or a place where another word runs.
"#,
        example: Some(
            r#"Given:

    $ c25 dis --source hex --hints hints --out old
    --- hex
    :02000000CE260A
    :00000001FF
    --- hints
    code 0
    label 0 1ST

Reported:

    hints:2: 92 BadHint
"#,
        ),
        advice: r#"Do: write code A, data A N, table A N, table A N STEP, label A NAME, ref A, noref A, run A N R or
noreturn A, each number in one to four hexadecimal digits without h. A comment begins with `;`.
"#,
    }
}

pub(crate) fn odd_length() -> Explanation
    ensures { IsExplanationOf OddLength result }
{
    Explanation {
        number: 93,
        name: "OddLength",
        meaning: r#"A binary file of words has an odd number of bytes: half a word stands at its end.
"#,
        example: Some(
            r#"Given:

    $ c25 dis --source --binary a.bin --out old
    --- a.bin
    AB

Reported:

    a.bin: 93 OddLength
"#,
        ),
        advice: r#"Do: see whether the file is one of a pair (--high, --low), or was cut off.
"#,
    }
}

pub(crate) fn lengths_differ() -> Explanation
    ensures { IsExplanationOf LengthsDiffer result }
{
    Explanation {
        number: 94,
        name: "LengthsDiffer",
        meaning: r#"The files of a pair have not the same number of bytes. The line has the name of the one with the low
bytes.
"#,
        example: Some(
            r#"Given:

    $ c25 dis --source --high u1.bin --low u2.bin --out old
    --- u1.bin
    A
    --- u2.bin
    AB

Reported:

    u2.bin: 94 LengthsDiffer
"#,
        ),
        advice: r#"Do: read both EPROMs again, each as a whole. Two of different sizes are no pair.
"#,
    }
}

pub(crate) fn too_long() -> Explanation
    ensures { IsExplanationOf TooLong result }
{
    Explanation {
        number: 96,
        name: "TooLong",
        meaning: r#"A binary file has more than 65,536 words, which is the size of program memory: more than 131,072
bytes in one file, or 65,536 in each of a pair.
"#,
        example: Some(
            r#"Given:

    $ c25 dis --source --binary a.bin --out old
    --- a.bin in hexadecimal, 131,074 times
    FF

Reported:

    a.bin: 96 TooLong
"#,
        ),
        advice: r#"Do: cut out the bytes of program memory, as by srec_cat a.bin -binary -crop 0 0x20000 -o b.bin
-binary.
"#,
    }
}

pub(crate) fn too_many_sections() -> Explanation
    ensures { IsExplanationOf TooManySections result }
{
    Explanation {
        number: 97,
        name: "TooManySections",
        meaning: r#"The words of an image come to more than 254 sections, the most that a module has besides .text. Each
unbroken run of words is one; words that are left out as blank, addresses without words, and words
that run elsewhere begin another. The first one too many begins at the address in the line. Nothing
is written.
"#,
        example: Some(
            r#"Given:

    $ c25 dis --source --binary a.bin --blank 1 --out old
    --- a.bin in hexadecimal, 255 times
    CE26FFFF

Reported:

    image:01FC: 97 TooManySections
"#,
        ),
        advice: r#"Do: give --blank a higher number, so that short runs of erased words stay in the source; fill what
has no words with FFFFh, as by srec_cat a.hex -intel -fill 0xFF 0 0x20000 -o b.hex -intel; or make a
source of each half of the image.
"#,
    }
}
