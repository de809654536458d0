//! The counts of small programs, as lcov reads them and next to their lines.

use c25_chain::{RunTexts, make_ready};
use c25_coverage::{LineCounts, coverage};
use c25_macro::files::Files;
use std::alloc::Global;
use std::process::Abort;
use std::test::Fail;

/// A file: its name and its text.
type Text<'a> = (&'a str, &'a str);

/// The files of these names and texts.
fn files_of(alloc: Global, texts: &[Text<'_>]) -> Result<Files, Fail> {
    let mut files = Files::new(alloc);
    for (name, text) in texts {
        files.add(name, text)?;
    }
    Ok(files)
}

/// Names as owned texts.
fn owned(alloc: Global, names: &[&str]) -> Result<Vec<String>, Fail> {
    let mut owned = Vec::new(alloc);
    for name in names {
        owned.push(String::from_str(alloc, name)?)?;
    }
    Ok(owned)
}

/// The counts of so many steps of these sources, whose files are given, under a schedule.
fn covered(
    alloc: Global,
    texts: &[Text<'_>],
    names: &[&str],
    schedule: &str,
    steps: u32,
) -> Result<LineCounts, Fail> {
    let files = files_of(alloc, texts)?;
    let sources = owned(alloc, names)?;
    let others = RunTexts {
        command: "",
        samples: "",
        schedule,
    };
    let ready = make_ready(alloc, &files, sources.as_slice(), others)?;
    Ok(coverage(alloc, &files, ready, steps)?)
}

/// The counts of so many steps of these sources as lcov reads them.
fn counted(
    alloc: Global,
    texts: &[Text<'_>],
    names: &[&str],
    schedule: &str,
    steps: u32,
) -> Result<String, Fail> {
    let covered = covered(alloc, texts, names, schedule, steps)?;
    Ok(covered.lcov)
}

/// The counts of so many steps of these sources next to their lines.
fn listed(alloc: Global, texts: &[Text<'_>], names: &[&str], steps: u32) -> Result<String, Fail> {
    let covered = covered(alloc, texts, names, "", steps)?;
    Ok(covered.list)
}

/// Checks that two texts are equal.
fn equal(rt: &impl Abort, found: &str, wanted: &str) {
    assert_eq!(rt; found, wanted);
}

#[test]
fn a_loop_and_a_line_that_is_never_reached(rt: HostRuntime) -> Result<(), Fail> {
    let text = " LARP 1\n LARK 1,2\nAGAIN: NOP\n BANZ AGAIN,*-\nEND: B END\n NOP\n";
    let found = counted(rt.alloc(), &[("a.asm", text)], &["a.asm"], "", 20)?;
    equal(
        &rt,
        &found,
        "TN:\nSF:a.asm\nBRDA:4,0,0,2\nBRDA:4,0,1,1\nBRF:2\nBRH:2\nDA:1,1\nDA:2,1\nDA:3,3\nDA:4,3\nDA:5,12\nDA:6,0\nLF:6\nLH:5\nend_of_record\n",
    );
    Ok(())
}

#[test]
fn a_loop_of_ten_turns_is_taken_nine_times(rt: HostRuntime) -> Result<(), Fail> {
    let text = " LARP 1\n LARK 1,9\nAGAIN: NOP\n BANZ AGAIN,*-\nEND: B END\n";
    let found = counted(rt.alloc(), &[("a.asm", text)], &["a.asm"], "", 25)?;
    equal(
        &rt,
        &found,
        "TN:\nSF:a.asm\nBRDA:4,0,0,9\nBRDA:4,0,1,1\nBRF:2\nBRH:2\nDA:1,1\nDA:2,1\nDA:3,10\nDA:4,10\nDA:5,3\nLF:5\nLH:5\nend_of_record\n",
    );
    Ok(())
}

#[test]
fn bioz_passes_until_bio_is_low(rt: HostRuntime) -> Result<(), Fail> {
    let text = "WAIT: BIOZ LOW\n B WAIT\nLOW: B LOW\n";
    let found = counted(rt.alloc(), &[("a.asm", text)], &["a.asm"], "4 bio0\n", 8)?;
    equal(
        &rt,
        &found,
        "TN:\nSF:a.asm\nBRDA:1,0,0,1\nBRDA:1,0,1,2\nBRF:2\nBRH:2\nDA:1,3\nDA:2,2\nDA:3,3\nLF:3\nLH:3\nend_of_record\n",
    );
    Ok(())
}

#[test]
fn an_interrupt_after_a_branch_is_no_way_of_it(rt: HostRuntime) -> Result<(), Fail> {
    let text =
        " B START\n B TAKEN\nSTART: LDPK 0\n LACK 1\n SACL 4\n EINT\n BZ START\nEND: B END\nTAKEN: B TAKEN\n";
    let found = counted(rt.alloc(), &[("a.asm", text)], &["a.asm"], "6 int0\n", 9)?;
    equal(
        &rt,
        &found,
        "TN:\nSF:a.asm\nBRDA:7,0,0,0\nBRDA:7,0,1,1\nBRF:2\nBRH:1\nDA:1,1\nDA:2,1\nDA:3,1\nDA:4,1\nDA:5,1\nDA:6,1\nDA:7,1\nDA:8,0\nDA:9,2\nLF:9\nLH:8\nend_of_record\n",
    );
    Ok(())
}

#[test]
fn a_branch_that_never_acts_has_no_counts(rt: HostRuntime) -> Result<(), Fail> {
    let text = " B END\n BZ END\nEND: B END\n";
    let found = counted(rt.alloc(), &[("a.asm", text)], &["a.asm"], "", 5)?;
    equal(
        &rt,
        &found,
        "TN:\nSF:a.asm\nBRDA:2,0,0,-\nBRDA:2,0,1,-\nBRF:2\nBRH:0\nDA:1,1\nDA:2,0\nDA:3,4\nLF:3\nLH:2\nend_of_record\n",
    );
    Ok(())
}

#[test]
fn a_branch_in_a_macro_has_the_sums_of_its_calls(rt: HostRuntime) -> Result<(), Fail> {
    let text = "TEST .macro\n BZ END\n .endm\n LACK 1\n TEST\n ZAC\n TEST\n NOP\nEND: B END\n";
    let found = counted(rt.alloc(), &[("a.asm", text)], &["a.asm"], "", 8)?;
    equal(
        &rt,
        &found,
        "TN:\nSF:a.asm\nBRDA:2,0,0,1\nBRDA:2,0,1,1\nBRF:2\nBRH:2\nDA:2,2\nDA:4,1\nDA:6,1\nDA:8,0\nDA:9,4\nLF:5\nLH:4\nend_of_record\n",
    );
    Ok(())
}

#[test]
fn each_repetition_is_a_step(rt: HostRuntime) -> Result<(), Fail> {
    let text = " RPTK 4\n SFL\nEND: B END\n";
    let found = counted(rt.alloc(), &[("a.asm", text)], &["a.asm"], "", 10)?;
    equal(
        &rt,
        &found,
        "TN:\nSF:a.asm\nDA:1,1\nDA:2,5\nDA:3,4\nLF:3\nLH:3\nend_of_record\n",
    );
    Ok(())
}

#[test]
fn the_vector_acts_in_the_step_of_the_interrupt(rt: HostRuntime) -> Result<(), Fail> {
    let text =
        " B START\n B TAKEN\nSTART: LDPK 0\n LACK 1\n SACL 4\n EINT\nWAIT: IDLE\n B WAIT\nTAKEN: EINT\n RET\n";
    let found = counted(rt.alloc(), &[("a.asm", text)], &["a.asm"], "10 int0\n", 20)?;
    equal(
        &rt,
        &found,
        "TN:\nSF:a.asm\nDA:1,1\nDA:2,1\nDA:3,1\nDA:4,1\nDA:5,1\nDA:6,1\nDA:7,2\nDA:8,1\nDA:9,1\nDA:10,1\nLF:10\nLH:10\nend_of_record\n",
    );
    Ok(())
}

#[test]
fn no_interrupt_is_taken_right_after_eint(rt: HostRuntime) -> Result<(), Fail> {
    let text =
        " B START\n B TAKEN\nSTART: LDPK 0\n LACK 1\n SACL 4\n EINT\n NOP\nEND: B END\nTAKEN: B TAKEN\n";
    let found = counted(rt.alloc(), &[("a.asm", text)], &["a.asm"], "2 int0\n", 9)?;
    equal(
        &rt,
        &found,
        "TN:\nSF:a.asm\nDA:1,1\nDA:2,1\nDA:3,1\nDA:4,1\nDA:5,1\nDA:6,1\nDA:7,1\nDA:8,0\nDA:9,2\nLF:9\nLH:8\nend_of_record\n",
    );
    Ok(())
}

#[test]
fn each_source_has_a_record(rt: HostRuntime) -> Result<(), Fail> {
    let texts = [
        ("a.asm", " .ref WORK\n CALL WORK\nEND: B END\n"),
        ("b.asm", " .def WORK\nWORK: LACK 1\n RET\n"),
    ];
    let found = counted(rt.alloc(), &texts, &["a.asm", "b.asm"], "", 6)?;
    equal(
        &rt,
        &found,
        "TN:\nSF:a.asm\nDA:2,1\nDA:3,3\nLF:2\nLH:2\nend_of_record\nTN:\nSF:b.asm\nDA:2,1\nDA:3,1\nLF:2\nLH:2\nend_of_record\n",
    );
    Ok(())
}

#[test]
fn a_line_that_is_copied_twice_has_the_sum(rt: HostRuntime) -> Result<(), Fail> {
    let texts = [
        (
            "a.asm",
            " .copy \"part.inc\"\n .copy \"part.inc\"\nEND: B END\n",
        ),
        ("part.inc", " LACK 1\n ADDK 2\n"),
    ];
    let found = counted(rt.alloc(), &texts, &["a.asm"], "", 6)?;
    equal(
        &rt,
        &found,
        "TN:\nSF:part.inc\nDA:1,2\nDA:2,2\nLF:2\nLH:2\nend_of_record\nTN:\nSF:a.asm\nDA:3,2\nLF:1\nLH:1\nend_of_record\n",
    );
    Ok(())
}

#[test]
fn a_step_that_stops_is_not_counted(rt: HostRuntime) -> Result<(), Fail> {
    let text = " LACK 1\n NOP\n";
    let found = counted(rt.alloc(), &[("a.asm", text)], &["a.asm"], "", 20)?;
    equal(
        &rt,
        &found,
        "TN:\nSF:a.asm\nDA:1,1\nDA:2,1\nLF:2\nLH:2\nend_of_record\n",
    );
    Ok(())
}

#[test]
fn each_line_stands_after_its_count(rt: HostRuntime) -> Result<(), Fail> {
    let text =
        "; three turns\n LARP 1\n LARK 1,2\nAGAIN: NOP\n BANZ AGAIN,*-\r\n\nEND: B END\n NOP";
    let found = listed(rt.alloc(), &[("a.asm", text)], &["a.asm"], 20)?;
    equal(
        &rt,
        &found,
        "a.asm\n            ; three turns\n         1   LARP 1\n         1   LARK 1,2\n         3  AGAIN: NOP\n         3   BANZ AGAIN,*-\n            taken 2, passed 1\n            \n        12  END: B END\n         0   NOP\n\n",
    );
    Ok(())
}

#[test]
fn each_file_with_instructions_is_listed(rt: HostRuntime) -> Result<(), Fail> {
    let texts = [
        ("a.asm", " .ref WORK\n CALL WORK\n .copy \"end.inc\"\n"),
        ("b.asm", " .def WORK\nWORK: LACK 1\n RET\n"),
        ("c.asm", "X .set 1\n"),
        ("end.inc", "END: B END\n"),
    ];
    let found = listed(rt.alloc(), &texts, &["a.asm", "b.asm", "c.asm"], 6)?;
    equal(
        &rt,
        &found,
        "a.asm\n             .ref WORK\n         1   CALL WORK\n             .copy \"end.inc\"\n\nend.inc\n         3  END: B END\n\nb.asm\n             .def WORK\n         1  WORK: LACK 1\n         1   RET\n\n",
    );
    Ok(())
}
