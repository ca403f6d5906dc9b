//! What is taken from a source.
ghost use Rattle.std.specs.Prelude.{◌<◌};

use sim_outside::{MemSource, Source, SteadySource, TakeFault, take_all};
use sim_types::List;
use std::alloc::{AllocError, Global};
use std::test::Fail;

const TEXT: &[u8] = b"scenario 1\nuntil empty\n";

fn source_of(alloc: Global, piece: u32, fails: &[u64]) -> Result<MemSource, AllocError>
    requires { 0 < piece }
{
    let bytes = TEXT.to_vec(alloc)?;
    let fails = fails.to_vec(alloc)?;
    Ok(MemSource::new(List::from_vec(bytes), piece, List::from_vec(fails)))
}

/// Whether just these bytes are taken where they are to be at most one more than `most`.
fn gives<S: Source>(alloc: Global, source: &mut S, most: u32, want: &[u8]) -> bool {
    match take_all(alloc, source, most) {
        Ok(taken) => taken.as_slice() == want,
        Err(_) => false,
    }
}

/// Whether the read of this number fails, and then the bytes that were not taken before it are still there.
fn fails_once(alloc: Global, piece: u32, number: usize) -> bool
    requires { 0 < piece }
{
    let start = number.saturating_mul(piece as usize).min(TEXT.len());
    match source_of(alloc, piece, &[number as u64]) {
        Ok(mut source) => {
            matches!(take_all(alloc, &mut source, 100), Err(TakeFault::Read))
                && gives(alloc, &mut source, 100, &TEXT[start..])
        }
        Err(AllocError) => false,
    }
}

/// Whether the whole text is taken without the read of this number, which would fail.
fn takes_all(alloc: Global, piece: u32, number: usize) -> bool
    requires { 0 < piece }
{
    match source_of(alloc, piece, &[number as u64]) {
        Ok(mut source) => gives(alloc, &mut source, 100, TEXT),
        Err(AllocError) => false,
    }
}

/// Whether one byte more than this limit is taken, if there is one, and the others after that.
fn stops(alloc: Global, piece: u32, most: u32) -> bool
    requires { 0 < piece }
{
    let end = (most as usize).saturating_add(1).min(TEXT.len());
    match source_of(alloc, piece, &[]) {
        Ok(mut source) => {
            gives(alloc, &mut source, most, &TEXT[..end])
                && gives(alloc, &mut source, 100, &TEXT[end..])
        }
        Err(AllocError) => false,
    }
}

/// Each read fails once, and the bytes that were not taken before it are still there.
#[test]
fn takes_all_but_what_a_failing_read_leaves(rt: HostRuntime) {
    for piece in 1..10u32 {
        let reads = TEXT.len().div_ceil(piece as usize) + 1;
        for number in 0..reads {
            assert!(rt;
                fails_once(rt.alloc(), piece, number),
                "piece {piece} read {number}"
            );
        }
        assert!(rt; takes_all(rt.alloc(), piece, reads), "piece {piece}");
    }
}

/// One byte more than the limit is taken, and no byte after it.
#[test]
fn stops_one_byte_behind_the_limit(rt: HostRuntime) -> Result<(), Fail> {
    for most in 0..30u32 {
        for piece in 1..10u32 {
            assert!(rt;
                stops(rt.alloc(), piece, most),
                "limit {most} piece {piece}"
            );
        }
        let end = (most as usize + 1).min(TEXT.len());
        let mut source = SteadySource::new(List::from_vec(TEXT.to_vec(rt.alloc())?));
        assert!(rt;
            gives(rt.alloc(), &mut source, most, &TEXT[..end]),
            "limit {most}"
        );
    }
    Ok(())
}
