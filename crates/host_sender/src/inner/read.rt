// The fields of a sender, each read at its place; what lies past the end reads as no bytes. A struct of the bytes and a place is no plainer:
// read_sender would make one for each field.
ghost use Rattle.std.specs.Prelude.{◌≡◌, ◌≤◌};
ghost use Rattle.host_sender.specs.Layout.{moment_at, average_at, trips_at, pending_at, mode_at, sender_at, mode_whole};

use quantities::{Time, TimeSpan};
use sender::{Repeat, RepeatMode, Rtt, Sender};
use wire::inner::read::{action_at, byte_at, flag_at, float_at, word_at};

fn moment_at(bytes: &[u8], at: usize) -> Option<Time>
    requires { at ≤ 65000 }
    ensures { result ≡ moment_at bytes.now at }
{
    flag_at(bytes, at).then(|| Time::restored(float_at(bytes, at + 1)))
}

fn average_at(bytes: &[u8], at: usize) -> Option<TimeSpan>
    requires { at ≤ 65000 }
    ensures { result ≡ average_at bytes.now at }
{
    flag_at(bytes, at).then(|| TimeSpan(float_at(bytes, at + 1)))
}

fn trips_at(bytes: &[u8], at: usize) -> Option<Rtt>
    requires { at ≤ 65000 }
    ensures { result ≡ trips_at bytes.now at }
{
    flag_at(bytes, at).then(|| Rtt {
        shortest: TimeSpan(float_at(bytes, at + 1)),
        current: TimeSpan(float_at(bytes, at + 9)),
    })
}

fn pending_at(bytes: &[u8], at: usize) -> Option<Repeat>
    requires { at ≤ 60000 }
    ensures { result ≡ pending_at bytes.now at }
{
    flag_at(bytes, at).then(|| Repeat {
        left: word_at(bytes, at + 1),
        action: action_at(bytes, at + 5),
    })
}

// 0 is off and 1 always; any other byte is lo..=hi.
pub fn mode_at(bytes: &[u8], at: usize) -> RepeatMode
    requires { at ≤ 65000 }
    ensures { result ≡ mode_at bytes.now at }
{
    let lo = word_at(bytes, at + 1);
    match byte_at(bytes, at) {
        0 => RepeatMode::Off,
        1 => RepeatMode::Always(lo),
        _ => RepeatMode::Between(lo, word_at(bytes, at + 5)),
    }
}

#[tactic(auto, unfolding(crate::specs::Layout::sender_at))]
pub fn read_sender(bytes: &[u8]) -> Sender
    ensures { result ≡ sender_at bytes.now }
{
    Sender {
        last_ack: moment_at(bytes, 0),
        last_ack_send: moment_at(bytes, 9),
        ack_ewma: average_at(bytes, 18),
        send_ewma: average_at(bytes, 27),
        rtt: trips_at(bytes, 36),
        next_change: pending_at(bytes, 53),
        repeat_actions: mode_at(bytes, 78),
        last_send: moment_at(bytes, 87),
        window: word_at(bytes, 96),
        intersend_delay: TimeSpan(float_at(bytes, 100)),
    }
}

// Nine bytes, of which the first is 0, 1 or 2.
#[tactic(auto, using(std::proofs::lemmas::Bool::Decides::nat_tests), unfolding(crate::specs::Layout::mode_whole))]
pub fn mode_whole(bytes: &[u8]) -> bool
    ensures { result ≡ mode_whole bytes.now }
{
    bytes.len() == 9 && byte_at(bytes, 0) <= 2
}
