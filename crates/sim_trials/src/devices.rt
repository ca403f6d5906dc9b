//! Standard input and output, and a writer that fails.
use sim_outside::{Sink, StdSink, StdSource, take_all, write_all};
use std::io::{self, ErrorKind, Write};
use std::test::Fail;

#[test]
fn reads_standard_input_and_writes_standard_output(rt: HostRuntime) -> Result<(), Fail> {
    let mut source = StdSource::new(rt.stdin());
    let taken = take_all(rt.alloc(), &mut source, 4096)?;
    assert!(rt; taken.is_empty(), "a test's input is empty");
    let mut sink = StdSink::new(rt.stdout());
    write_all(&mut sink, b"read and written\n")?;
    sink.flush()?;
    Ok(())
}

/// A writer whose first flush fails.
#[derive(Drop)]
struct SlowToFlush {
    flushes: u8,
}

impl Write for SlowToFlush {
    fn write(&mut self, piece: &[u8]) -> io::Result<usize> {
        Ok(piece.len())
    }

    fn flush(&mut self) -> io::Result<()> {
        self.flushes = self.flushes.saturating_add(1);
        if self.flushes == 1 {
            return Err(ErrorKind::BrokenPipe.into());
        }
        Ok(())
    }
}

/// Each flush is one of the writer, and fails as that does.
#[test]
fn flushes_the_writer(rt: HostRuntime) -> Result<(), Fail> {
    let mut sink = StdSink::new(SlowToFlush { flushes: 0 });
    write_all(&mut sink, b"written\n")?;
    assert!(rt; sink.flush().is_err());
    assert!(rt; sink.flush().is_ok());
    Ok(())
}
