//! What the system tells of the words of a program, and what becomes of what is told on standard error, is in no clause.
use crate::{run, words_of};
use sim_command::{Status, usage_of};
use std::alloc::{Alloc, AllocError, AllocGlobal, Global};
use std::env::{Env, FillError};
use std::fmt::Display;
use std::io::{self, ErrorKind};
use std::sync::atomic::{AtomicU64, Ordering};
use std::test::Fail;

/// What a program is called with, in the place of the system, and how much it tells on standard error.
#[derive(Drop)]
struct FakeSystem<'t> {
    alloc: Global,
    words: &'t [&'t [u8]],
    lines: AtomicU64,
    /// How many of the lines are the usage.
    usages: AtomicU64,
}

impl<'t> FakeSystem<'t> {
    fn new(alloc: Global, words: &'t [&'t [u8]]) -> FakeSystem<'t> {
        FakeSystem {
            alloc,
            words,
            lines: AtomicU64::new(0),
            usages: AtomicU64::new(0),
        }
    }
}

impl Alloc for FakeSystem<'_> {
    type A = Global;

    fn alloc(&self) -> Global {
        self.alloc
    }
}

impl Env for FakeSystem<'_> {
    /// The program's name, and then the words.
    fn arg(&self, place: usize, buf: &mut [u8]) -> Result<usize, FillError> {
        let word = match place {
            0 => b"simq".as_slice(),
            _ => match self.words.get(place - 1) {
                Some(word) => *word,
                None => return Err(FillError::NotPresent),
            },
        };
        if word.len() > buf.len() {
            return Err(FillError::TooLong);
        }
        buf[..word.len()].copy_from_slice(word);
        Ok(word.len())
    }

    fn var(&self, _name: &str, _buf: &mut [u8]) -> Result<usize, FillError> {
        Err(FillError::NotPresent)
    }

    fn var_at(&self, _place: usize, _buf: &mut [u8]) -> Result<usize, FillError> {
        Err(FillError::NotPresent)
    }
}

impl Eprint for FakeSystem<'_> {
    fn eprint<D: Display + Drop>(&self, _value: D) -> io::Result<()> {
        Err(ErrorKind::Unsupported.into())
    }

    fn eprintln<D: Display + Drop>(&self, value: D) -> io::Result<()> {
        let line = format!(in self.alloc; "{value}")?;
        self.lines.fetch_add(1, Ordering::SeqCst);
        if line.as_str() == usage_of(Some(Status::Usage)) {
            self.usages.fetch_add(1, Ordering::SeqCst);
        }
        Ok(())
    }
}

/// Twenty words: one is longer than any buffer to begin with, one is empty, and two are no UTF-8.
const WORDS: [&[u8]; 20] = [
    b"batch",
    b"3",
    b"1000",
    b"",
    &[b'w'; 300],
    b"\xff\xfe",
    b"?",
    b"\xc3\xa9",
    b"\xc3",
    b"10",
    b"11",
    b"12",
    b"13",
    b"14",
    b"15",
    b"16",
    b"17",
    b"18",
    b"19",
    b"the last one",
];

#[test]
fn words_are_handed_over(rt: HostRuntime) -> Result<(), Fail> {
    let system = FakeSystem::new(rt.alloc(), &WORDS);
    let words = words_of(&system, rt.alloc())?;
    assert_eq!(rt; words.len(), WORDS.len());
    for (place, word) in words.iter().enumerate() {
        let told = match place {
            5 | 8 => b"?".as_slice(),
            _ => WORDS[place],
        };
        assert!(rt; word.bytes() == told, "word {place}");
    }
    Ok(())
}

#[test]
fn usage_alone_is_told(rt: HostRuntime) {
    for status in [
        Status::Ended,
        Status::Usage,
        Status::Refused,
        Status::Crash,
        Status::Limit,
        Status::ReadFault,
        Status::WriteFault,
        Status::Memory,
    ] {
        let system = FakeSystem::new(rt.alloc(), &WORDS);
        let _code = run(&system, |_| status);
        let wanted = u64::from(status.code() == 2);
        assert_eq!(rt;
            system.lines.load(Ordering::SeqCst),
            wanted,
            "lines at {}",
            status.code()
        );
        assert_eq!(rt;
            system.usages.load(Ordering::SeqCst),
            wanted,
            "usage at {}",
            status.code()
        );
    }
}
