// What a sender remembers, and how an ack changes it.
ghost use Rattle.std.specs.Prelude.{◌≡◌};
ghost use Rattle.sender.specs.Memory.{average_next, rtt_next, remembered, point_of, value_of, ratio_now};
ghost use Rattle.sender.specs.Acks.{window_now};
ghost use Rattle.sender.specs.Sender.{mode_holds, fresh_sender};

use crate::{RepeatMode, Rtt, Sender};
use quantities::{Time, TimeSpan};
use remy::point::Point;

#[tactic(auto, unfolding(crate::specs::Sender::mode_holds))]
pub fn mode_holds(mode: RepeatMode) -> bool
    ensures { result ≡ mode_holds mode }
{
    match mode {
        RepeatMode::Off | RepeatMode::Always(_) => true,
        RepeatMode::Between(lo, hi) => lo <= hi && hi <= 4294967294,
    }
}

pub fn fresh(mode: RepeatMode) -> Sender
    ensures { result ≡ fresh_sender mode }
{
    Sender {
        last_ack: None,
        last_ack_send: None,
        ack_ewma: None,
        send_ewma: None,
        rtt: None,
        next_change: None,
        repeat_actions: mode,
        last_send: None,
        window: 1,
        intersend_delay: TimeSpan(0.0),
    }
}

// The average after a gap to the last moment, where there was one: the first gap, later
// 0.875 times the old average plus 0.125 times the gap.
#[tactic(auto, unfolding(crate::specs::Memory::average_next, crate::specs::Memory::averaged))]
fn average_next(old: Option<TimeSpan>, last: Option<Time>, now: Time) -> Option<TimeSpan>
    ensures { result ≡ average_next old last now }
{
    let Some(before) = last else {
        return old;
    };
    let gap = now - before;
    let Some(average) = old else {
        return Some(gap);
    };
    Some(0.875 * average + 0.125 * gap)
}

// The shortest gives way only to a round trip below it.
#[tactic(auto, unfolding(crate::specs::Memory::rtt_next))]
fn rtt_next(old: Option<Rtt>, current: TimeSpan) -> Rtt
    ensures { result ≡ rtt_next old current }
{
    let shortest = match old {
        Some(rtt) => {
            if current < rtt.shortest {
                current
            } else {
                rtt.shortest
            }
        }
        None => current,
    };
    Rtt { shortest, current }
}

// The sender with an ack in its memory, nothing else changed.
pub fn remember(s: Sender, sent: Time, received: Time) -> Sender
    ensures { result ≡ remembered s sent received }
{
    Sender {
        last_ack: Some(received),
        last_ack_send: Some(sent),
        ack_ewma: average_next(s.ack_ewma, s.last_ack, received),
        send_ewma: average_next(s.send_ewma, s.last_ack_send, sent),
        rtt: Some(rtt_next(s.rtt, received - sent)),
        ..s
    }
}

#[tactic(auto, unfolding(crate::specs::Memory::value_of))]
fn value(average: Option<TimeSpan>) -> f64
    ensures { result ≡ value_of average }
{
    average.map_or(0.0, |span| span.0)
}

#[tactic(auto, unfolding(crate::specs::Memory::ratio_now))]
fn ratio(rtt: Option<Rtt>) -> f64
    ensures { result ≡ ratio_now rtt }
{
    rtt.map_or(0.0, |rtt| rtt.current / rtt.shortest)
}

pub fn point(s: Sender) -> Point
    ensures { result ≡ point_of s }
{
    Point::new(value(s.ack_ewma), value(s.send_ewma), ratio(s.rtt))
}

// The window that a call answers: 0 while a send stands.
#[tactic(auto, unfolding(crate::specs::Acks::window_in))]
pub fn window_now(s: Sender) -> u32
    ensures { result ≡ window_now s }
{
    match s.last_send {
        None => s.window,
        Some(_) => 0,
    }
}
