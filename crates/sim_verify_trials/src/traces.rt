//! A long trace is cut and changed at each of its lines, and made as long as a text may be.
use itoa::Buffer;
use sim_batch::FreeGate;
use sim_command::{Status, Word};
use sim_desk::desk;
use sim_outside::{MemSink, SteadySource};
use sim_shop::shop_text;
use sim_types::{List, MOST_BYTES};
use std::alloc::{AllocError, Global};
use std::test::Fail;
use std::thread::Threads;

/// Room for an answer.
const ROOM: u64 = 1_048_576;

/// How many lines the trace has: 270 events, 93 numbers that are logged, and the end.
const LINES: u64 = 364;

/// A text, and the trace of its run.
#[derive(Drop)]
struct Traced {
    text: Vec<u8>,
    trace: Vec<u8>,
}

/// The shop of one machine, with its trace.
fn shop<R: Threads + Sync>(rt: &R, alloc: Global) -> Result<Traced, AllocError> {
    let text = shop_text(alloc, 1)?;
    let (_, trace) = answer(rt, alloc, b"run", Vec::from_slice(alloc, text.as_slice())?)?;
    Ok(Traced { text, trace })
}

/// What the top call answers to the command, with ten million units at most, on the text.
fn answer<R: Threads + Sync>(
    rt: &R,
    alloc: Global,
    command: &[u8],
    text: Vec<u8>,
) -> Result<(Status, Vec<u8>), AllocError> {
    let mut words = Vec::new(alloc);
    words.push(Word::new(alloc, command)?)?;
    words.push(Word::new(alloc, b"10000000")?)?;
    let mut source = SteadySource::new(List::from_vec(text));
    let mut sink = MemSink::new(alloc, ROOM)?;
    let status = desk(
        rt,
        alloc,
        &FreeGate,
        words.as_slice(),
        &mut source,
        &mut sink,
    );
    Ok((status, Vec::from_slice(alloc, sink.bytes())?))
}

impl Traced {
    /// The text with these bytes as its trace.
    fn given(&self, alloc: Global, trace: &[u8]) -> Result<Vec<u8>, AllocError> {
        let mut text = Vec::from_slice(alloc, self.text.as_slice())?;
        text.extend_from_slice(b"trace\n")?;
        text.extend_from_slice(trace)?;
        Ok(text)
    }

    /// Where the line ends that begins here, after its line feed.
    fn end_of_line(&self, start: usize) -> usize {
        for (place, byte) in self.trace.iter().enumerate().skip(start) {
            if *byte == b'\n' {
                return place.saturating_add(1);
            }
        }
        self.trace.len()
    }

    /// The trace with another byte in this place.
    fn changed(&self, alloc: Global, place: usize, byte: u8) -> Result<Vec<u8>, AllocError> {
        let mut trace = Vec::from_slice(alloc, self.trace.as_slice())?;
        if place < trace.len() {
            trace[place] = byte;
        }
        Ok(trace)
    }
}

/// The line that says that this line of a trace differs so.
fn said(alloc: Global, line: u64, why: &[u8]) -> Result<Vec<u8>, AllocError> {
    let mut digits = Buffer::new();
    let mut text = Vec::from_slice(alloc, b"no ")?;
    text.extend_from_slice(digits.format(line).as_bytes())?;
    text.extend_from_slice(why)?;
    Ok(text)
}

/// The digit after this one.
fn next_digit(digit: u8) -> u8 {
    match digit {
        b'0'..=b'8' => digit + 1,
        _ => b'0',
    }
}

#[test]
fn a_trace_that_is_cut_is_short_at_that_line(rt: HostRuntime) -> Result<(), Fail> {
    let alloc = rt.alloc();
    let shop = shop(&rt, alloc)?;
    let mut start = 0;
    for line in 1..LINES + 1 {
        let front = shop.trace.as_slice().get(..start).unwrap_or(b"");
        let (status, bytes) = answer(&rt, alloc, b"verify", shop.given(alloc, front)?)?;
        assert!(rt; status == Status::Ended);
        assert!(rt;
            bytes.as_slice() == said(alloc, line, b" short\n")?.as_slice(),
            "line {line}"
        );
        start = shop.end_of_line(start);
    }
    assert!(rt; start == shop.trace.len(), "there are as many lines");
    let whole = shop.given(alloc, shop.trace.as_slice())?;
    let (_, bytes) = answer(&rt, alloc, b"verify", whole)?;
    assert!(rt; bytes.as_slice() == b"yes\n".as_slice());
    Ok(())
}

// Each line ends with a number, and with another last digit it is the line of another run. Without its first letter it is the
// line of none.
#[test]
fn a_line_that_is_changed_is_found(rt: HostRuntime) -> Result<(), Fail> {
    let alloc = rt.alloc();
    let shop = shop(&rt, alloc)?;
    let mut start = 0;
    for line in 1..LINES + 1 {
        let end = shop.end_of_line(start);
        let last = end.saturating_sub(2);
        let digit = match shop.trace.as_slice().get(last) {
            Some(byte) => next_digit(*byte),
            None => b'0',
        };
        for (place, byte, why) in [
            (last, digit, b" step\n".as_slice()),
            (start, b'#', b" shape\n".as_slice()),
        ] {
            let trace = shop.changed(alloc, place, byte)?;
            let text = shop.given(alloc, trace.as_slice())?;
            let (_, bytes) = answer(&rt, alloc, b"verify", text)?;
            assert!(rt;
                bytes.as_slice() == said(alloc, line, why)?.as_slice(),
                "line {line}"
            );
        }
        start = end;
    }
    assert!(rt; start == shop.trace.len(), "there are as many lines");
    Ok(())
}

// The limit on bytes counts the whole text.
#[test]
fn a_text_is_too_long_with_its_trace(rt: HostRuntime) -> Result<(), Fail> {
    let alloc = rt.alloc();
    let shop = shop(&rt, alloc)?;
    let mut text = shop.given(alloc, shop.trace.as_slice())?;
    text.resize(MOST_BYTES as usize, b'\n')?;
    let (status, bytes) = answer(
        &rt,
        alloc,
        b"verify",
        Vec::from_slice(alloc, text.as_slice())?,
    )?;
    assert!(rt; status == Status::Ended);
    assert!(rt; bytes.as_slice().ends_with(b" extra\n"));
    text.push(b'\n')?;
    let (status, bytes) = answer(&rt, alloc, b"verify", text)?;
    assert!(rt; status == Status::Refused);
    assert!(rt; bytes.as_slice() == b"fault 0 TooLong\n".as_slice());
    Ok(())
}
