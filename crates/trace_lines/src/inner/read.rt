// The trace's events. Bytes begin with the event that is read.
ghost use Rattle.std.specs.Prelude.{◌≡◌, ◌≤◌, length};
ghost use Rattle.trace_lines.specs.Trace.{kind_holds, size_of, event_in, start_of};
ghost use Rattle.trace_lines.specs.Parts.{event_size, counted_of};

use sender::{Ack, Event};
use wire::inner::read::{byte_at, float_at, word_at};

// The length that each kind has. A kind stays a byte: the enum of kinds is Event, and a second one without the moments is no plainer.
#[tactic(auto, using(std::proofs::lemmas::Bool::Decides::nat_tests), unfolding(crate::specs::Trace::kind_holds))]
fn kind_holds(length: u8, kind: u8) -> bool
    ensures { result ≡ kind_holds «length» kind }
{
    match kind {
        1 => length == 17,
        2 => length == 9,
        3 => length == 1,
        _ => false,
    }
}

// The size of the event, if it is whole.
#[tactic(auto, using(std::proofs::lemmas::Bool::Decides::nat_tests), unfolding(crate::specs::Parts::event_size, crate::specs::Trace::head_holds))]
fn event_size(bytes: &[u8]) -> Option<usize>
    ensures { result ≡ event_size bytes.now }
{
    let size = size_of(bytes);
    if kind_holds(byte_at(bytes, 0), byte_at(bytes, 1)) && size <= bytes.len() {
        return Some(size);
    }
    None
}

// The event, an ack, a send or a tick.
#[tactic(auto, using(std::proofs::lemmas::Bool::Decides::nat_tests), unfolding(crate::specs::Trace::event_in))]
pub fn event_in(bytes: &[u8]) -> Event
    ensures { result ≡ event_in bytes.now }
{
    match byte_at(bytes, 1) {
        1 => Event::Ack(Ack {
            sent: float_at(bytes, 2),
            received: float_at(bytes, 10),
            draw: None,
        }),
        2 => Event::Send(float_at(bytes, 2)),
        _ => Event::Tick,
    }
}

// The size of an event that is whole.
pub fn size_of(bytes: &[u8]) -> usize
    ensures { result ≡ size_of bytes.now }
{
    1 + byte_at(bytes, 0) as usize
}

// How many events the body is, if all are whole. The place moves on by each event's own size, so that no range or chunks stand for it.
pub fn count_events(body: &[u8]) -> Option<usize>
    ensures { result ≡ counted_of body.now }
{
    let mut at: usize = 0;
    let mut n: usize = 0;
    while at < body.len() {
        let size = event_size(&body[at..])?;
        at += size;
        n += 1;
    }
    Some(n)
}

// The trace's length, and what stands before its events.
#[tactic(auto, using(std::proofs::lemmas::Bool::Decides::nat_tests), unfolding(crate::specs::Trace::start_of))]
pub fn start_holds(bytes: &[u8]) -> bool
    ensures { result ≡ start_of bytes.now }
{
    let n = bytes.len();
    5 <= n && n <= 32768 && word_at(bytes, 0) as usize == n - 4 && byte_at(bytes, 4) == 1
}
