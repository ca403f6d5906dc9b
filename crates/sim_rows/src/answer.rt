//! What the program answers to a row.
ghost use Rattle.std.specs.Prelude.{IfOk};
ghost use Rattle.sim_rows.specs.Meant.{IsMeant};

use crate::row::{Answer, Row};
use sim_command::Word;
use sim_outside::{MemSink, SteadySource};
use sim_program::carry_out;
use sim_types::List;
use std::alloc::{AllocError, AllocGlobal, Global};
use std::random::RandomSource;
use std::sync::Wait;
use std::thread::Threads;

/// Room for each answer.
const ROOM: u64 = 33_554_432;

/// What the program answers to these words on the row's text.
pub fn answer_to_row<R: AllocGlobal + RandomSource + Threads + Wait + Sync>(
    rt: &R,
    said: &str,
    row: &Row,
) -> Result<Answer, AllocError> {
    let alloc = rt.alloc();
    let mut words = Vec::new(alloc);
    for word in said.split_whitespace() {
        words.push(Word::new(alloc, word.as_bytes())?)?;
    }
    let text = Vec::from_slice(alloc, row.text.as_slice())?;
    answer_to(rt, alloc, words.as_slice(), List::from_vec(text))
}

/// What the program answers to these words and this text. Where it is whole, it is one that the definitions give.
fn answer_to<R: AllocGlobal + RandomSource + Threads + Wait + Sync>(
    rt: &R,
    alloc: Global,
    words: &[Word],
    text: List<u8>,
) -> Result<Answer, AllocError>
    ensures meant { IfOk result (λ a. IsMeant words.now text a.status a.bytes.items) }
{
    let mut source = SteadySource::new(text);
    let mut sink = MemSink::new(alloc, ROOM)?;
    let status = carry_out(rt, words, &mut source, &mut sink);
    let bytes = Vec::from_slice(alloc, sink.bytes())?;
    Ok(Answer { status, bytes })
}
