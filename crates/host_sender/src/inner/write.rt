// The bytes of a sender, field by field. What is not written stays.
// Each function is handed the buffer and a place, as in record: a struct of both is no plainer, since each contract would state the struct's
// buffer and place before and after.
ghost use Rattle.std.specs.Prelude.{◌≡◌, ◌∷◌, ◌++◌, ◌+◌, ◌≤◌, length};
ghost use Rattle.std.proofs.lemmas.List.Edits.{sets};
ghost use Rattle.wire.specs.Bytes.{bytes_of};
ghost use Rattle.host_sender.specs.Layout.{seconds_bytes, trips_bytes, pending_bytes, mode_bytes, sender_bytes, stored_in, stored_after};
ghost use Rattle.host_sender.specs.Parts.{memory_bytes, pace_bytes};

use quantities::Time;
use refusal::Refusal;
use sender::{Repeat, RepeatMode, Rtt, Sender};
use wire::inner::write::{put, put_action};

pub const SENDER_SIZE: usize = 108;

// A moment's or a span's seconds, if there is one.
// One function for this, put_trips and put_pending is no plainer: it would take a trait of what is put, with its size, its bytes and their law.
#[tactic(auto, using(crate::proofs::Writing::seconds_none))]
fn put_seconds(buf: &mut [u8], at: usize, seconds: Option<f64>)
    requires { at + 9 ≤ length buf.old }
    ensures { buf.new ≡ sets buf.old at (seconds_bytes seconds) }
{
    match seconds {
        None => put(buf, at, 9, 0),
        Some(x) => {
            buf[at] = 1;
            put(buf, at + 1, 8, floats::to_bits(x));
        }
    }
}

#[tactic(auto, using(crate::proofs::Writing::trips_none))]
fn put_trips(buf: &mut [u8], at: usize, trips: Option<Rtt>)
    requires { at + 17 ≤ length buf.old }
    ensures { buf.new ≡ sets buf.old at (trips_bytes trips) }
{
    match trips {
        None => put(buf, at, 17, 0),
        Some(rtt) => {
            put_seconds(buf, at, Some(rtt.shortest.0));
            put(buf, at + 9, 8, floats::to_bits(rtt.current.0));
        }
    }
}

#[tactic(auto, using(crate::proofs::Writing::pending_none))]
fn put_pending(buf: &mut [u8], at: usize, pending: Option<Repeat>)
    requires { at + 25 ≤ length buf.old }
    ensures { buf.new ≡ sets buf.old at (pending_bytes pending) }
{
    match pending {
        None => put(buf, at, 25, 0),
        Some(repeat) => {
            buf[at] = 1;
            put(buf, at + 1, 4, u64::from(repeat.left));
            put_action(buf, at + 5, repeat.action);
        }
    }
}

// The mode's byte and its two numbers; one that the mode does not use is 0.
#[tactic(auto, unfolding(crate::specs::Layout::mode_bytes, wire::specs::Bytes::bytes_of))]
fn numbers_of(mode: RepeatMode) -> (u8, u32, u32)
    ensures { mode_bytes mode ≡ result.0 ∷ (bytes_of 4 result.1 ++ bytes_of 4 result.2) }
{
    match mode {
        RepeatMode::Off => (0, 0, 0),
        RepeatMode::Always(n) => (1, n, 0),
        RepeatMode::Between(lo, hi) => (2, lo, hi),
    }
}

#[tactic(auto, using(crate::proofs::Writing::numbers_written))]
fn put_mode(buf: &mut [u8], at: usize, mode: RepeatMode)
    requires { at + 9 ≤ length buf.old }
    ensures { buf.new ≡ sets buf.old at (mode_bytes mode) }
{
    let (code, lo, hi) = numbers_of(mode);
    buf[at] = code;
    put(buf, at + 1, 4, u64::from(lo));
    put(buf, at + 5, 4, u64::from(hi));
}

// What the acks left.
#[tactic(auto, using(crate::proofs::Writing::memory_written))]
fn put_memory(buf: &mut [u8], s: Sender)
    requires { 53 ≤ length buf.old }
    ensures { buf.new ≡ sets buf.old 0 (memory_bytes s) }
{
    put_seconds(buf, 0, s.last_ack.map(Time::held));
    put_seconds(buf, 9, s.last_ack_send.map(Time::held));
    put_seconds(buf, 18, s.ack_ewma.map(|span| span.0));
    put_seconds(buf, 27, s.send_ewma.map(|span| span.0));
    put_trips(buf, 36, s.rtt);
}

// What paces the sender.
#[tactic(auto, using(crate::proofs::Writing::pace_written))]
fn put_pace(buf: &mut [u8], s: Sender)
    requires { 108 ≤ length buf.old }
    ensures { buf.new ≡ sets buf.old 53 (pace_bytes s) }
{
    put_pending(buf, 53, s.next_change);
    put_mode(buf, 78, s.repeat_actions);
    put_seconds(buf, 87, s.last_send.map(Time::held));
    put(buf, 96, 4, u64::from(s.window));
    put(buf, 100, 8, floats::to_bits(s.intersend_delay.0));
}

#[tactic(auto, using(crate::proofs::Writing::sender_written))]
pub fn write_sender(buf: &mut [u8], s: Sender)
    requires { 108 ≤ length buf.old }
    ensures { buf.new ≡ sets buf.old 0 (sender_bytes s) }
{
    put_memory(buf, s);
    put_pace(buf, s);
}

// Writes a sender where there is room for it.
#[tactic(auto, unfolding(crate::specs::Layout::stored_in, crate::specs::Layout::stored_after))]
pub fn store(out: &mut [u8], s: Sender) -> Result<usize, Refusal>
    ensures { (result ≡ stored_in out.old) × (out.new ≡ stored_after s out.old) }
{
    if out.len() < SENDER_SIZE {
        return Err(Refusal::ShortBuffer);
    }
    write_sender(out, s);
    Ok(SENDER_SIZE)
}
