//! The lines that tell what was measured at resources over a run.
ghost use Rattle.std.specs.Prelude.{◌≡◌};
ghost use Rattle.sim_trace.specs.WatchTexts.{row_text, watch_end_text};

use crate::buffer::LineBuf;
use crate::words::{append_number, append_signed, append_sum, append_word, end_word};
use sim_types::{End, WatchRow};

/// Puts the line of the resource at this place into the buffer, as `render` does a line of a trace.
pub fn render_row(res: u32, row: &WatchRow, out: &mut LineBuf)
    ensures { out.new ≡ row_text res row.now }
{
    out.begin(b"watch");
    append_number(u64::from(res), out);
    append_sum(row.psum, out);
    append_number(row.pmost, out);
    append_sum(row.gsum, out);
    append_number(row.gmost, out);
    append_sum(row.hsum, out);
    append_signed(row.hleast, out);
    append_signed(row.hmost, out);
    out.push(b'\n');
}

/// Puts the last line into the buffer, as `render` does a line of a trace: how the run ended and when, and how many events
/// were processed.
pub fn render_watch_end(end: End, time: i64, processed: u64, out: &mut LineBuf)
    ensures { out.new ≡ watch_end_text end time processed }
{
    out.begin(b"watch end");
    append_word(end_word(end), out);
    append_signed(time, out);
    append_number(processed, out);
    out.push(b'\n');
}
