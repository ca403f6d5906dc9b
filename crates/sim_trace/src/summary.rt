//! The lines that tell what runs come to.
ghost use Rattle.std.specs.Prelude.{◌≡◌, ℕ, ◌+◌, ◌≤◌, List, [], ◌∷◌, ◌++◌, length};
ghost use Rattle.std.specs.List.{join_with_byte};
ghost use Rattle.sim_trace.specs.SummaryTexts.{summary_words, replication_text, load_text, batch_text};

use crate::buffer::LineBuf;
use crate::words::{append_number, append_signed, append_sum, append_word, end_word};
use sim_types::Summary;

/// Puts the line of a replication into the buffer, as `render` does a line of a trace.
pub fn render_summary(index: u32, s: &Summary, out: &mut LineBuf)
    ensures { out.new ≡ replication_text index s.now }
{
    out.begin(b"rep");
    append_number(u64::from(index), out);
    append_summary(s, out);
    out.push(b'\n');
}

/// Puts the line of a machine shop with so many machines into the buffer, as `render` does a line of a trace.
pub fn render_load(size: u32, s: &Summary, out: &mut LineBuf)
    ensures { out.new ≡ load_text size s.now }
{
    out.begin(b"load");
    append_number(u64::from(size), out);
    append_summary(s, out);
    out.push(b'\n');
}

/// Puts the last line of a batch into the buffer, as `render` does a line of a trace: how many replications there were,
/// how many numbers they logged, and the sum of these numbers.
pub fn render_batch(count: u32, logs: u64, total: i128, out: &mut LineBuf)
    ensures { out.new ≡ batch_text count logs total }
{
    out.begin(b"batch");
    append_number(u64::from(count), out);
    append_number(logs, out);
    append_sum(total, out);
    out.push(b'\n');
}

/// Appends a space and the words of a summary.
fn append_summary(s: &Summary, out: &mut LineBuf)
    requires { length out.old + 113 ≤ 256 }
    ensures items { out.new ≡ out.old ++ 32 ∷ join_with_byte 32 (summary_words s.now) }
    ensures len { length out.new ≤ length out.old + 113 }
{
    append_word(end_word(s.end), out);
    append_signed(s.time, out);
    append_number(s.processed, out);
    append_number(s.logs, out);
    append_sum(s.total, out);
}
