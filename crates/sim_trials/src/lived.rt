//! What a live run prints and answers, and whether its journal runs again.
use crate::calls::{source_of, words_of};
use sim_batch::{FreeGate, Gate};
use sim_desk::desk;
use sim_inbox::Inbox;
use sim_live::live_desk;
use sim_outside::{MemSink, Sink};
use std::alloc::{AllocError, Global};
use std::str;
use std::sync::Wait;
use std::thread::Threads;

/// Room for each whole answer of these tests.
pub(crate) const ENOUGH: u64 = 1_000_000;

/// A process that is started by whatever comes in.
pub(crate) const LOGGING: &str =
    "scenario 1\nuntil empty\nport inn job\nprocess job v\nlog v\nend\n";

/// Two posters of three posts each.
pub(crate) const THREE_EACH: &str =
    "poster 0\ninn 1\ninn 2\ninn 3\nposter 1\ninn 4\ninn 5\ninn 6\n";

/// The entries of each of them, from its number on.
const OF_POSTER_0: [&str; 3] = ["0 0 inn 1", "0 1 inn 2", "0 2 inn 3"];

const OF_POSTER_1: [&str; 3] = ["1 0 inn 4", "1 1 inn 5", "1 2 inn 6"];

/// Runs the text live. The answer is the exit status.
pub(crate) fn live<R: Threads + Wait + Sync, G: Gate + Sync, I: Inbox, K: Sink>(
    rt: &R,
    alloc: Global,
    gate: &G,
    inbox: &I,
    line: &str,
    text: &str,
    out: &mut K,
) -> Result<u8, AllocError> {
    let words = words_of(alloc, line)?;
    let mut source = source_of(alloc, text, 8192, &[])?;
    let status = live_desk(rt, alloc, gate, inbox, words.as_slice(), &mut source, out);
    Ok(status.code())
}

/// Runs the text. The answer is the exit status.
fn run<R: Threads + Sync, K: Sink>(
    rt: &R,
    alloc: Global,
    line: &str,
    text: &str,
    out: &mut K,
) -> Result<u8, AllocError> {
    let words = words_of(alloc, line)?;
    let mut source = source_of(alloc, text, 8192, &[])?;
    let status = desk(rt, alloc, &FreeGate, words.as_slice(), &mut source, out);
    Ok(status.code())
}

/// What came of a live run of a text.
#[derive(Drop)]
pub(crate) struct Lived {
    pub(crate) code: u8,
    pub(crate) bytes: Vec<u8>,
}

impl Lived {
    /// Runs the text live, for at most `limit` units.
    pub(crate) fn of<R: Threads + Wait + Sync, G: Gate + Sync, I: Inbox>(
        rt: &R,
        alloc: Global,
        gate: &G,
        inbox: &I,
        limit: u32,
        text: &str,
    ) -> Result<Lived, AllocError> {
        let mut sink = MemSink::new(alloc, ENOUGH)?;
        let line = format!(in alloc; "live {limit}")?;
        let code = live(rt, alloc, gate, inbox, line.as_str(), text, &mut sink)?;
        let bytes = sink.bytes().to_vec(alloc)?;
        Ok(Lived { code, bytes })
    }

    /// The trace, and the entries of the journal.
    pub(crate) fn parts(&self) -> (&str, &str) {
        match str::from_utf8(self.bytes.as_slice()) {
            Ok(answer) => answer.rsplit_once("journal\n").unwrap_or(("", "")),
            Err(_) => ("", ""),
        }
    }

    /// Runs these lines with the journal after them. True if that run prints the same trace, and ends alike.
    pub(crate) fn runs_again<R: Threads + Sync>(
        &self,
        rt: &R,
        alloc: Global,
        limit: u32,
        front: &str,
    ) -> Result<bool, AllocError> {
        let (trace, entries) = self.parts();
        let line = format!(in alloc; "run {limit}")?;
        let text = format!(in alloc; "{front}journal\n{entries}")?;
        let mut sink = MemSink::new(alloc, ENOUGH)?;
        let code = run(rt, alloc, line.as_str(), text.as_str(), &mut sink)?;
        Ok(code == self.code && sink.bytes() == trace.as_bytes())
    }

    /// Whether the journal has `count` entries.
    pub(crate) fn has_entries(&self, count: usize) -> bool {
        let (_trace, entries) = self.parts();
        entries.lines().count() == count
    }

    /// Whether these are the entries of a poster, given its number and a space, each from this number on.
    fn has_of(&self, alloc: Global, poster: &str, wanted: &[&str]) -> Result<bool, AllocError> {
        let mut posts = Vec::new(alloc);
        let (_trace, entries) = self.parts();
        for line in entries.lines() {
            match post_in(line) {
                Some(post) if post.starts_with(poster) => posts.push(post)?,
                _ => (),
            }
        }
        Ok(posts.as_slice() == wanted)
    }

    /// Whether the journal has the posts of both posters with three each, each in its order, and nothing else.
    pub(crate) fn has_three_each(&self, alloc: Global) -> Result<bool, AllocError> {
        Ok(
            self.has_entries(6)
                && self.has_of(alloc, "0 ", &OF_POSTER_0)?
                && self.has_of(alloc, "1 ", &OF_POSTER_1)?,
        )
    }
}

/// What an entry says after its K: the poster, the serial, the port and the value.
fn post_in(line: &str) -> Option<&str> {
    let (_after, post) = line.strip_prefix("after ")?.split_once(' ')?;
    Some(post)
}

/// The text of these lines with the lines of posters after them.
pub(crate) fn with_posters(
    alloc: Global,
    front: &str,
    posters: &str,
) -> Result<String, AllocError> {
    format!(in alloc; "{front}{posters}")
}
