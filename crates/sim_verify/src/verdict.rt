//! What is said of a trace.
ghost use Rattle.std.specs.Prelude.{◌≡◌, true, [], ◌∷◌, ◌++◌};
ghost use Rattle.sim_outside.specs.Writes.{IsUnflushed, Writes};
ghost use Rattle.sim_verify.specs.VerdictTexts.{verdict_text, why_word};

use itoa::Buffer;
use sim_outside::{Failed, Sink, write_all};

/// What is said of a trace.
#[derive(Clone, Copy, Debug, PartialEq, Eq)]
pub enum Verdict {
    /// It is the trace of the scenario.
    Yes,
    /// This line, counted from 1, is the first that differs from the line of the scenario's trace.
    No { line: u64, why: Why },
}

/// How a line differs.
#[derive(Clone, Copy, Debug, PartialEq, Eq)]
pub enum Why {
    /// It is not there: the trace that was given has no more lines.
    Short,
    /// The scenario's trace has no such line.
    Extra,
    /// It is no line of any trace.
    Shape,
    /// It is a line of a trace, but the scenario does something else here.
    Step,
}

/// Writes a line that says it: `yes`, or `no LINE WHY`.
pub fn write_verdict<K: Sink>(verdict: Verdict, out: &mut K) -> Result<(), Failed>
    ensures writes { Writes (λ _. true) (K.tells out.old) (K.tells out.new) result
        (verdict_text verdict) }
    ensures unflushed { IsUnflushed (K.tells out.old) (K.tells out.new) }
{
    match verdict {
        Verdict::Yes => write_all(out, b"yes\n"),
        Verdict::No { line, why } => {
            let mut digits = Buffer::new();
            write_all(out, b"no ")?;
            write_all(out, digits.format(line).as_bytes())?;
            write_all(out, end_of_line(why))
        }
    }
}

/// Gives the end of the written line: a space, the word for how a line differs, and a line feed.
fn end_of_line(why: Why) -> &'static [u8]
    ensures { result.now ≡ 32 ∷ why_word why ++ 10 ∷ [] }
{
    match why {
        Why::Short => b" short\n",
        Why::Extra => b" extra\n",
        Why::Shape => b" shape\n",
        Why::Step => b" step\n",
    }
}
