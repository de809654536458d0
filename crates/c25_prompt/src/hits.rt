//! `hits`: how often a breakpoint was met.

ghost use Rattle.std.specs.Prelude.{◌≡◌, ◌≤◌, ◌++◌, ◌∷◌, [], IfOk, OnOk, string_bytes};
ghost use Rattle.c25_board.specs.Board.{state};
ghost use Rattle.c25_meaning_processor.specs.Goes.{is_met};
ghost use Rattle.c25_meaning_processor.specs.State.{State};
ghost use Rattle.c25_meaning_processor.specs.Signals.{signals_of};
ghost use Rattle.c25_meaning_processor.specs.WordStep.{WordStep};
ghost use Rattle.c25_prompt.specs.Back.{CanReach};
ghost use Rattle.c25_prompt.specs.Past.{IsHits, Meets, hits_text, one_if};

use crate::again::step_again;
use crate::going::PromptBoard;
use crate::start::Start;
use c25_debug::steps::{Answer, shown};
use c25_meaning_common::no_memory::NoMemory;
use c25_texts::appending::push_texts;
use c25_texts::digits::four;
use itoa::Buffer;
use std::alloc::Global;

/// One where a breakpoint at an address would be met, none otherwise.
fn met_once(board: &PromptBoard, address: u16) -> u32
    ensures met { result ≡ one_if (is_met (address ∷ []) (state board.now)) }
    ensures small { result ≤ 1 }
{
    if board.settled() && board.pc() == address {
        1
    } else {
        0
    }
}

/// After how many of the first n steps from the first state on a breakpoint at an address is met.
fn count_met<B: Start>(start: &B, n: u32, address: u16) -> Result<u32, NoMemory>
    requires { CanReach (B.schedule start.now) n (B.first start.now) }
    ensures { IfOk result (λ count. (last : State) × Meets WordStep (signals_of (B.schedule start.now)) address 0 n (B.first start.now) count last) }
{
    let mut board = start.board()?;
    let mut count = 0;
    for _done in 0..n {
        step_again(start, &mut board)?;
        count += met_once(&board, address);
    }
    Ok(count)
}

/// Appends the line that says how often a breakpoint was met.
fn push_hits(text: &mut String, address: u16, count: u32) -> Result<(), NoMemory>
    ensures { OnOk result (string_bytes text.new ≡ string_bytes text.old ++ hits_text address count) }
{
    let mut digits = Buffer::new();
    let address = four(address);
    push_texts(
        text,
        &["hits ", address.as_str(), " ", digits.format(count), "\n"],
    )
}

/// The answer to `hits`: after how many of the first n steps from the first state on a breakpoint at an address
/// is met.
pub(crate) fn answer_hits<B: Start>(
    alloc: Global,
    start: &B,
    n: u32,
    address: u16,
) -> Result<Answer, NoMemory>
    requires { CanReach (B.schedule start.now) n (B.first start.now) }
    ensures { IfOk result (λ answer. IsHits WordStep (signals_of (B.schedule start.now)) (B.first start.now) address n (string_bytes answer.text)) }
{
    let count = count_met(start, n, address)?;
    let mut text = String::new(alloc);
    push_hits(&mut text, address, count)?;
    Ok(shown(text))
}
