//! Lists of marks: which are those of one image, and what they say of an address.

ghost use Rattle.std.specs.Prelude.{◌≡◌, ◌+◌, ◌≤◌};
ghost use Rattle.c25_meaning_image.specs.Marks.{fit_from, is_code, is_load, load_is_free, run_at, run_fit, run_fits_behind, size_at, with_loads};

use crate::mark::{Mark, RunMark};

/// Whether marks may be the instructions of one image: each has one or two words, they ascend, no two share a
/// word, and each ends below address 65,536. An empty list passes.
pub fn marks_fit(marks: &[Mark]) -> bool
    ensures { result ≡ fit_from 0 marks.now }
{
    let mut end = 0;
    for mark in marks {
        let after = u32::from(mark.address) + u32::from(mark.size);
        if u32::from(mark.address) < end || mark.size < 1 || mark.size > 2 || after > 65_536 {
            return false;
        }
        end = after;
    }
    true
}

/// The size of the instruction that starts at an address, where one does.
#[tactic(auto, unfolding(crate::specs::Marks::size_at))]
pub fn size_at(marks: &[Mark], address: u16) -> Option<u16>
    ensures { result ≡ size_at marks.now address }
{
    marks
        .iter()
        .find(|mark| mark.address == address)
        .map(|mark| mark.size)
}

/// Whether the program word at an address belongs to an instruction.
#[tactic(auto, unfolding(crate::specs::Marks::is_code))]
pub fn is_code(marks: &[Mark], address: u16) -> bool
    ensures { result ≡ is_code marks.now address }
{
    marks.iter().any(|mark| {
        mark.address <= address
            && u32::from(address) < u32::from(mark.address) + u32::from(mark.size)
    })
}

/// The run mark of the instruction that runs at a program address of block B0, if there is one.
#[tactic(auto, unfolding(crate::specs::Marks::run_at))]
pub fn run_at(run_marks: &[RunMark], address: u16) -> Option<RunMark>
    ensures { result ≡ run_at run_marks.now address }
{
    for mark in run_marks {
        if mark.run == address {
            return Some(*mark);
        }
    }
    None
}

/// Whether a program word is a loaded word of an instruction that runs in block B0.
pub fn is_load(run_marks: &[RunMark], address: u16) -> bool
    ensures { result ≡ is_load run_marks.now address }
{
    run_marks.iter().any(|mark| {
        mark.load <= address && u32::from(address) < u32::from(mark.load) + u32::from(mark.size)
    })
}

/// Whether a program word is a loaded word of an instruction, of one that runs in block B0 or of one that
/// runs where it stands.
pub fn is_loaded_code(run_marks: &[RunMark], marks: &[Mark], address: u16) -> bool
    ensures { result ≡ is_code (with_loads run_marks.now marks.now) address }
{
    is_load(run_marks, address) || is_code(marks, address)
}

/// Whether an instruction has one or two words, runs at an address or later, and ends below address
/// 65,536 where it runs and where it is loaded.
fn run_fits_behind(end: u32, mark: &RunMark) -> bool
    ensures { result ≡ run_fits_behind end mark.now }
{
    end <= u32::from(mark.run)
        && 1 <= mark.size
        && mark.size <= 2
        && u32::from(mark.run) + u32::from(mark.size) <= 65_536
        && u32::from(mark.load) + u32::from(mark.size) <= 65_536
}

/// Whether the loaded words of a run mark belong to none of the instructions of these marks and run marks.
fn load_is_free(run_marks: &[RunMark], marks: &[Mark], mark: &RunMark) -> bool
    requires some { 1 ≤ mark.now.size }
    requires room { mark.now.load + mark.now.size ≤ 65536 }
    ensures { result ≡ load_is_free (with_loads run_marks.now marks.now) mark.now }
{
    let last = mark.load + (mark.size - 1);
    !is_loaded_code(run_marks, marks, mark.load) && !is_loaded_code(run_marks, marks, last)
}

/// Whether run marks may be the instructions of one image that run in block B0, next to the marks of those
/// that run where they stand: each has one or two words, they ascend by the addresses at which they run, from
/// FF00h on, where no two share a word, each ends below address 65,536 there and where it is loaded, and the
/// loaded words of each belong to no other instruction. An empty list of run marks passes.
pub fn run_marks_fit(marks: &[Mark], run_marks: &[RunMark]) -> bool
    ensures { result ≡ run_fit marks.now run_marks.now }
{
    let mut end = 0xFF00;
    let mut rest = run_marks;
    while let [mark, behind @ ..] = rest {
        if !run_fits_behind(end, mark) || !load_is_free(behind, marks, mark) {
            return false;
        }
        end = u32::from(mark.run) + u32::from(mark.size);
        rest = behind;
    }
    true
}
