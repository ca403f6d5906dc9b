//! What a sink takes, and what one behind a sink that gathers takes.
use sim_outside::{Failed, Gathering, MemSink, NullSink, Sink, write_all};
use std::alloc::{AllocError, Global};

const PIECE: &[u8] = b"@0 0 0 init";

/// Whether a sink with so much room takes what fits of the piece, and fails where not all does.
fn takes_what_fits(alloc: Global, room: usize) -> bool {
    match MemSink::new(alloc, room as u64) {
        Ok(mut sink) => {
            write_all(&mut sink, PIECE).is_ok() == (room >= PIECE.len())
                && sink.bytes() == &PIECE[..room.min(PIECE.len())]
                && write_all(&mut sink, b"").is_ok()
        }
        Err(AllocError) => false,
    }
}

#[test]
fn writes_what_fits(rt: HostRuntime) {
    for room in 0..PIECE.len() + 1 {
        assert!(rt; takes_what_fits(rt.alloc(), room), "room {room}");
    }
    assert!(rt; write_all(&mut NullSink::new(), PIECE).is_ok());
}

/// How often the piece is written to a sink that gathers: 11,000 bytes, so they are passed on in two parts.
const TIMES: usize = 1000;

/// Writes the piece as often as that, or up to the first fault.
fn write_often<K: Sink>(out: &mut K) -> Result<(), Failed> {
    for _ in 0..TIMES {
        write_all(out, PIECE)?;
    }
    Ok(())
}

/// Whether a sink with so much room takes what fits of all that was gathered, and each flush fails where not all does.
fn takes_what_was_gathered(alloc: Global, room: usize) -> bool {
    let whole = TIMES * PIECE.len();
    match MemSink::new(alloc, room as u64) {
        Ok(sink) => {
            let mut gathering = Gathering::new(sink);
            let went_well = [
                write_often(&mut gathering).is_ok(),
                gathering.flush().is_ok(),
                gathering.flush().is_ok(),
            ];
            let sink = gathering.into_inner();
            went_well == [room >= 8192, room >= whole, room >= whole]
                && sink.bytes().len() == room.min(whole)
                && sink
                    .bytes()
                    .chunks(PIECE.len())
                    .all(|part| PIECE.starts_with(part))
        }
        Err(AllocError) => false,
    }
}

#[test]
fn gathers_what_fits(rt: HostRuntime) {
    for room in [0, 5, 8191, 8192, 9000, 10_999, 11_000, 12_000] {
        assert!(rt; takes_what_was_gathered(rt.alloc(), room), "room {room}");
    }
}
