// The lines, byte by byte, by panel_lines' functions and for the reasons that stand there. What is not written stays; a function answers
// the place after what it wrote.
ghost use Rattle.std.specs.Prelude.{◌≡◌, ◌+◌, ◌≤◌, length};
ghost use Rattle.panel_lines.specs.Parts.{Wrote};
ghost use Rattle.trace_lines.specs.Trace.{refusal_line, window_line, line_of};

use panel_lines::inner::write::{put, put_decimal};
use refusal::Refusal;
use sender::Held;

#[tactic(auto, using(crate::proofs::Lines::refusal_count))]
pub fn put_refusal(buf: &mut [u8], at: usize, k: u32) -> usize
    requires { at + length (refusal_line k) ≤ length buf.old }
    ensures { Wrote buf.old at buf.new result (refusal_line k) }
{
    let end = put(buf, at, b"refused ");
    let end = put_decimal(buf, end, k as u64);
    put(buf, end, b"\n")
}

#[tactic(auto, using(crate::proofs::Lines::window_count), unfolding(crate::specs::Trace::line_end))]
fn put_window(buf: &mut [u8], at: usize, window: u32, clipped: bool) -> usize
    requires { at + length (window_line window clipped) ≤ length buf.old }
    ensures { Wrote buf.old at buf.new result (window_line window clipped) }
{
    let end = put_decimal(buf, at, window as u64);
    if clipped {
        put(buf, end, b" c\n")
    } else {
        put(buf, end, b"\n")
    }
}

// The line of an event's reply.
#[tactic(auto, unfolding(crate::specs::Trace::line_of))]
pub fn put_line(buf: &mut [u8], at: usize, reply: Result<Held, Refusal>) -> usize
    requires { at + length (line_of reply) ≤ length buf.old }
    ensures { Wrote buf.old at buf.new result (line_of reply) }
{
    match reply {
        Ok(h) => put_window(buf, at, h.window, h.clipped),
        Err(refused) => put_refusal(buf, at, refused.number()),
    }
}
