//! Objects: explanations of faults, made of docs/FAULTS.md by docs/explanations.py --write.

ghost use Rattle.c25_explain.specs.Explanation.{IsExplanationOf};
ghost use Rattle.c25_explain.specs.declared.fault.AnyFault.TheVariants.{Object};
ghost use Rattle.c25_meaning_objects.specs.declared.object.ObjectFault.TheVariants as fault;

use crate::parts::Explanation;

pub(crate) fn bad_magic() -> Explanation
    ensures { IsExplanationOf (Object fault.BadMagic) result }
{
    Explanation {
        number: 40,
        name: "BadMagic",
        meaning: r#"The file does not begin with C25O: it is not an object of this assembler.
"#,
        example: Some(
            r#"Given:

    $ c25 link command a.asm --out b
     NOP
    --- command

Reported:

    a.asm: 40 BadMagic
"#,
        ),
        advice: r#"Do: name the object and not the source, and the command file first. Objects of TI's tools (COFF) are
not read: assemble their sources.
"#,
    }
}

pub(crate) fn bad_version() -> Explanation
    ensures { IsExplanationOf (Object fault.BadVersion) result }
{
    Explanation {
        number: 41,
        name: "BadVersion",
        meaning: r#"The object has another version of the records than this program reads, or ends before the version.
"#,
        example: Some(
            r#"Given:

    $ c25 link command a.obj --out b
    --- command
    --- a.obj
    4332354F 7F 010000000B 01052E7465787400000000 FF00000000

Reported:

    a.obj: 41 BadVersion
"#,
        ),
        advice: r#"Do: use asm and link of one release.
"#,
    }
}

pub(crate) fn short() -> Explanation
    ensures { IsExplanationOf (Object fault.Short) result }
{
    Explanation {
        number: 42,
        name: "Short",
        meaning: r#"The file ends before its last record does.
"#,
        example: Some(
            r#"Given:

    $ c25 link command a.obj --out b
    --- command
    --- a.obj
    4332354F 01 010000000B 01052E7465787400000000 FF000000

Reported:

    a.obj: 42 Short
"#,
        ),
        advice: r#"Do: write or copy the file again; it was cut off, as by a full disk.
"#,
    }
}

pub(crate) fn bad_tag() -> Explanation
    ensures { IsExplanationOf (Object fault.BadTag) result }
{
    Explanation {
        number: 43,
        name: "BadTag",
        meaning: r#"A record has a tag that is unknown or that may not come after the records before it.
"#,
        example: Some(
            r#"Given:

    $ c25 link command a.obj --out b
    --- command
    --- a.obj
    4332354F 01 010000000B 01052E7465787400000000 0000000000 FF00000000

Reported:

    a.obj: 43 BadTag
"#,
        ),
        advice: r#"Do: copy the file again as binary; it was changed, as by a transfer that converts line ends.
"#,
    }
}

pub(crate) fn bad_field() -> Explanation
    ensures { IsExplanationOf (Object fault.BadField) result }
{
    Explanation {
        number: 44,
        name: "BadField",
        meaning: r#"A record does not have the form of its tag, or does not agree with the records before it: a name is
invalid or defined twice, a section or symbol with that number does not exist, a size or an order is
impossible, or the first section is not .text.
"#,
        example: Some(
            r#"Given:

    $ c25 link command a.obj --out b
    --- command
    --- a.obj
    4332354F 01 FF00000000

Reported:

    a.obj: 44 BadField
"#,
        ),
        advice: r#"Do: copy the file again as binary, as for 43.
"#,
    }
}

pub(crate) fn trailing() -> Explanation
    ensures { IsExplanationOf (Object fault.Trailing) result }
{
    Explanation {
        number: 45,
        name: "Trailing",
        meaning: r#"There are bytes after the last record.
"#,
        example: Some(
            r#"Given:

    $ c25 link command a.obj --out b
    --- command
    --- a.obj
    4332354F 01 010000000B 01052E7465787400000000 FF00000000 00

Reported:

    a.obj: 45 Trailing
"#,
        ),
        advice: r#"Do: copy each object again under a name of its own; the file was padded, or two were put together.
"#,
    }
}
