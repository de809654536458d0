//! Maps and hex texts: explanations of faults, made of docs/FAULTS.md by docs/explanations.py --write.

ghost use Rattle.c25_explain.specs.Explanation.{IsExplanationOf};
ghost use Rattle.c25_explain.specs.declared.fault.AnyFault.TheVariants.{Hex, Map};
ghost use Rattle.c25_hex.specs.declared.hex_fault.HexFault.TheVariants as fault;

use crate::parts::Explanation;

pub(crate) fn bad_map() -> Explanation
    ensures { IsExplanationOf Map result }
{
    Explanation {
        number: 77,
        name: "BadMap",
        meaning: r#"The text is not a map as write_map writes it: lines have another spelling or order, CR LF,
lower-case digits or an extra blank, or there is no line feed at the end. The fault has no line
number and is printed by its name alone.
"#,
        example: Some(
            r#"Given:

    $ read_map
    --- map
    C25 MAP 1
    SECTION 0 0000 5 .text
    END

Reported:

    BadMap
"#,
        ),
        advice: r#"Do: give the file that build or link wrote, unchanged.
"#,
    }
}

pub(crate) fn bad_start() -> Explanation
    ensures { IsExplanationOf (Hex fault.BadStart) result }
{
    Explanation {
        number: 80,
        name: "BadStart",
        meaning: r#"A line that is not blank does not begin with `:` in column 1.
"#,
        example: Some(
            r#"Given:

    $ c25 dis hex
    --- hex
    :02004000240595
    00000001FF

Reported:

    hex:2: 80 BadStart
"#,
        ),
        advice: r#"Do: take out comments, and blanks before the `:`. Texts of other formats (S-records, Tektronix) are
not read.
"#,
    }
}

pub(crate) fn bad_digit() -> Explanation
    ensures { IsExplanationOf (Hex fault.BadDigit) result }
{
    Explanation {
        number: 81,
        name: "BadDigit",
        meaning: r#"A character after the `:` is not a hexadecimal digit; a blank after the digits counts as such a
character.
"#,
        example: Some(
            r#"Given:

    $ c25 dis hex
    --- hex
    :0000000lFF

Reported:

    hex:1: 81 BadDigit
"#,
        ),
        advice: r#"Do: look for letters that look like digits, trailing blanks, and a CR without its LF.
"#,
    }
}

pub(crate) fn bad_count() -> Explanation
    ensures { IsExplanationOf (Hex fault.BadCount) result }
{
    Explanation {
        number: 82,
        name: "BadCount",
        meaning: r#"The number of digits is odd, or the line does not have five bytes more than its first byte says, or
the record type needs another count: 0 for 01, 2 for 02 and 04, 4 for 03 and 05.
"#,
        example: Some(
            r#"Given:

    $ c25 dis hex
    --- hex
    :0200400024

Reported:

    hex:1: 82 BadCount
"#,
        ),
        advice: r#"Do: write the text again; the line was cut off or joined with another one.
"#,
    }
}

pub(crate) fn bad_sum() -> Explanation
    ensures { IsExplanationOf (Hex fault.BadSum) result }
{
    Explanation {
        number: 83,
        name: "BadSum",
        meaning: r#"The bytes of the line do not add up to a multiple of 256.
"#,
        example: Some(
            r#"Given:

    $ c25 dis hex
    --- hex
    :02004000240594

Reported:

    hex:1: 83 BadSum
"#,
        ),
        advice: r#"Do: write the text again; a byte was changed. After a change by hand the last byte must be the two's
complement of the sum of all others.
"#,
    }
}

pub(crate) fn bad_kind() -> Explanation
    ensures { IsExplanationOf (Hex fault.BadKind) result }
{
    Explanation {
        number: 84,
        name: "BadKind",
        meaning: r#"The record type of the line is not one of 00 to 05.
"#,
        example: Some(
            r#"Given:

    $ c25 dis hex
    --- hex
    :0200400624058F

Reported:

    hex:1: 84 BadKind
"#,
        ),
        advice: r#"Do: have the other tool write plain Intel hex.
"#,
    }
}

pub(crate) fn odd_word() -> Explanation
    ensures { IsExplanationOf (Hex fault.OddWord) result }
{
    Explanation {
        number: 85,
        name: "OddWord",
        meaning: r#"One byte of a word is given and the other is not, which is reported at the end line. The byte
address of a word is twice its address, and its high byte comes first.
"#,
        example: Some(
            r#"Given:

    $ c25 dis hex
    --- hex
    :01004000249B
    :00000001FF

Reported:

    hex:2: 85 OddWord
"#,
        ),
        advice: r#"Do: give both bytes of each word in one text. Texts with high and low bytes apart, as for two
memories of 8 bits, are not read.
"#,
    }
}

pub(crate) fn twice() -> Explanation
    ensures { IsExplanationOf (Hex fault.Twice) result }
{
    Explanation {
        number: 86,
        name: "Twice",
        meaning: r#"A byte is given twice, even if with the same value.
"#,
        example: Some(
            r#"Given:

    $ c25 dis hex
    --- hex
    :02004000240595
    :02004000240595

Reported:

    hex:2: 86 Twice
"#,
        ),
        advice: r#"Do: read one text at a time; do not put two together.
"#,
    }
}

pub(crate) fn no_end() -> Explanation
    ensures { IsExplanationOf (Hex fault.NoEnd) result }
{
    Explanation {
        number: 87,
        name: "NoEnd",
        meaning: r#"The text ends without its end line. The fault is reported at the last line, or at line 0 of an empty
text.
"#,
        example: Some(
            r#"Given:

    $ c25 dis hex
    --- hex
    :02004000240595

Reported:

    hex:1: 87 NoEnd
"#,
        ),
        advice: r#"Do: write the text again; it was cut off. A whole text ends with :00000001FF.
"#,
    }
}

pub(crate) fn after_end() -> Explanation
    ensures { IsExplanationOf (Hex fault.AfterEnd) result }
{
    Explanation {
        number: 88,
        name: "AfterEnd",
        meaning: r#"A line that is not blank comes after the end line.
"#,
        example: Some(
            r#"Given:

    $ c25 dis hex
    --- hex
    :00000001FF
    :00000001FF

Reported:

    hex:2: 88 AfterEnd
"#,
        ),
        advice: r#"Do: separate the two texts that were put together; each page has a text of its own.
"#,
    }
}

pub(crate) fn address_range() -> Explanation
    ensures { IsExplanationOf (Hex fault.AddressRange) result }
{
    Explanation {
        number: 89,
        name: "AddressRange",
        meaning: r#"Bytes lie past the 65,536 of their base, or past byte address 1FFFFh, the last of 65,536 words.
"#,
        example: Some(
            r#"Given:

    $ c25 dis hex
    --- hex
    :02FFFF00000000

Reported:

    hex:1: 89 AddressRange
"#,
        ),
        advice: r#"Do: check whether the other tool counts in words where this format counts in bytes.
"#,
    }
}
