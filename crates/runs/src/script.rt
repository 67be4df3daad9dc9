// A script in 64-bit words, read by place; what lies past the end reads as 0.
ghost use Rattle.std.specs.Prelude.{◌≡◌, ◌∷◌, ◌<◌, ◌≤◌, length, drop, MatchOption, false};
ghost use Rattle.runs.specs.Script as spec;
ghost use Rattle.runs.specs.Turn.{settings_in, ack_in, meant, Listed, First};

use crate::call::{Buffer, Call, TrainerCall};
use quantities::{Time, TimeSpan};
use remy::action::Action;
use remy::point::Point;
use sender::{Ack, Event, Repeat, RepeatMode, Rtt, Sender};
use trainer::settings::Settings;

// A word by the slice and its place, as `get` takes them: a struct of the two is no plainer.
pub(crate) fn word(ws: &[u64], k: usize) -> u64
    ensures { result ≡ spec.word ws.now k }
{
    ws.get(k).copied().unwrap_or(0)
}

fn number(ws: &[u64], k: usize) -> u32
    ensures { result ≡ spec.number ws.now k }
{
    (word(ws, k) % 4294967296) as u32
}

fn float(ws: &[u64], k: usize) -> f64
    ensures { result ≡ spec.float ws.now k }
{
    floats::from_bits(word(ws, k))
}

// The words after the first k, where there are so many.
fn after(ws: &[u64], k: usize) -> Option<&[u64]>
    ensures { MatchOption result (length ws.now < k) (λ rest. (rest.now ≡ drop k ws.now) × (k ≤ length ws.now)) }
{
    ws.get(k..)
}

// The words from place k on.
fn from(ws: &[u64], k: usize) -> &[u64]
    ensures { result.now ≡ drop k ws.now }
{
    after(ws, k).unwrap_or(&[])
}

fn action(ws: &[u64]) -> Action
    ensures { result ≡ spec.action ws.now 0 }
{
    Action::new(float(ws, 0), number(ws, 1).cast_signed(), float(ws, 2))
}

fn point(ws: &[u64]) -> Point
    ensures { result ≡ spec.ends ws.now 0 }
{
    Point::new(float(ws, 0), float(ws, 1), float(ws, 2))
}

// The settings, with these upper ends.
fn settings_with(ws: &[u64], ends: Point) -> Settings
    ensures { result ≡ settings_in ws.now ends }
{
    Settings {
        rule_splits: number(ws, 0),
        optimization_rounds_per_split: number(ws, 1),
        action_change_multiplier: number(ws, 2),
        drill_down: word(ws, 3) == 1,
        min_action: action(from(ws, 4)),
        max_action: action(from(ws, 7)),
        initial_action_change: action(from(ws, 10)),
        max_action_change: action(from(ws, 13)),
        default_action: action(from(ws, 16)),
        ends,
    }
}

// The settings of the start.
#[tactic(auto, using(crate::proofs::Reading::settings_from))]
pub(crate) fn settings(script: &[u64]) -> Settings
    ensures { result ≡ spec.settings script.now }
{
    settings_with(script, point(from(script, 43)))
}

#[tactic(auto, unfolding(crate::specs::Script::mode))]
pub(crate) fn mode(script: &[u64]) -> RepeatMode
    ensures { result ≡ spec.mode script.now }
{
    match word(script, 20) {
        0 => RepeatMode::Off,
        1 => RepeatMode::Always(number(script, 21)),
        _ => RepeatMode::Between(number(script, 21), number(script, 22)),
    }
}

// Parts of a sender that may be missing, each after a word that is 0 for none. A number first.
#[tactic(auto, using(crate::proofs::Reading::there))]
fn seconds(ws: &[u64]) -> Option<f64>
    ensures { result ≡ spec.behind ws.now 0 (spec.float ws.now 1) }
{
    (word(ws, 0) != 0).then_some(float(ws, 1))
}

#[tactic(auto, using(crate::proofs::Reading::there))]
fn trips(ws: &[u64]) -> Option<Rtt>
    ensures { result ≡ spec.trips_at ws.now 0 }
{
    (word(ws, 0) != 0).then_some(Rtt {
        shortest: TimeSpan(float(ws, 1)),
        current: TimeSpan(float(ws, 2)),
    })
}

#[tactic(auto, using(crate::proofs::Reading::there))]
fn pending(ws: &[u64]) -> Option<Repeat>
    ensures { result ≡ spec.pending_at ws.now 0 }
{
    (word(ws, 0) != 0).then_some(Repeat {
        left: number(ws, 1),
        action: action(from(ws, 2)),
    })
}

// The sender that is handed in. host_sender reads it from bytes at other places: a trait over words and bytes is no plainer.
pub(crate) fn handed_in(script: &[u64]) -> Sender
    ensures { result ≡ spec.handed_in script.now }
{
    Sender {
        last_ack: seconds(from(script, 23)).map(Time::restored),
        last_ack_send: seconds(from(script, 25)).map(Time::restored),
        ack_ewma: seconds(from(script, 27)).map(TimeSpan),
        send_ewma: seconds(from(script, 29)).map(TimeSpan),
        rtt: trips(from(script, 31)),
        next_change: pending(from(script, 34)),
        repeat_actions: mode(script),
        last_send: seconds(from(script, 39)).map(Time::restored),
        window: number(script, 41),
        intersend_delay: TimeSpan(float(script, 42)),
    }
}

// Fills the buffer with the words' bytes.
pub(crate) fn fill(buffer: &mut [u8], ws: &[u64])
    requires { length buffer.old ≡ length ws.now }
    ensures { buffer.new ≡ spec.bytes_of ws.now }
{
    for (i, b) in buffer.iter_mut().enumerate() {
        *b = (ws[i] % 256) as u8;
    }
}

// The first of the words says how many there are: these, and those after them. None where they are cut off.
fn listed(ws: &[u64]) -> Option<(&[u64], &[u64])>
    ensures { Listed ws.now result }
{
    let (n, rest) = ws.split_first()?;
    rest.split_at_checked(*n as usize)
}

// The ack that the words hold; a number too large for a draw is none.
#[tactic(auto, unfolding(crate::specs::Script::draw_of))]
fn ack(ws: &[u64]) -> Ack
    ensures { result ≡ ack_in ws.now }
{
    Ack {
        sent: float(ws, 0),
        received: float(ws, 1),
        draw: u32::try_from(word(ws, 2)).ok(),
    }
}

// The call of a code by the words after it, and what is left of these. None for no such code, and where words are cut off.
// A script's codes are numbers, and here each becomes its call: an enum of codes would have to be matched once more.
#[tactic(auto, using(crate::proofs::Reading::no_counts, crate::proofs::Reading::no_score, crate::proofs::Reading::no_bytes, crate::proofs::Reading::too_long, crate::proofs::Reading::no_ack, crate::proofs::Reading::no_send, crate::proofs::Reading::no_lookup, crate::proofs::Reading::no_change, crate::proofs::Reading::no_code))]
fn call_of(code: u64, ws: &[u64]) -> Option<(Call<'_>, &[u64])>
    ensures { MatchOption result (spec.whole_of (code ∷ ws.now) ≡ false) (λ r. First (code ∷ ws.now) (meant r.0) r.1.now) }
{
    match code {
        1 => {
            let (counts, rest) = listed(ws)?;
            Some((Call::Train(TrainerCall::Counts(counts)), rest))
        }
        2 => {
            let score = TrainerCall::Score(float(ws, 0));
            Some((Call::Train(score), after(ws, 1)?))
        }
        3 => {
            let (bytes, rest) = listed(ws)?;
            let reload = TrainerCall::Reload(Buffer::of(bytes)?);
            Some((Call::Train(reload), rest))
        }
        4 => Some((Call::React(Event::Ack(ack(ws))), after(ws, 3)?)),
        5 => Some((Call::React(Event::Send(float(ws, 0))), after(ws, 1)?)),
        6 => Some((Call::React(Event::Tick), ws)),
        8 => Some((Call::Look(point(ws)), after(ws, 3)?)),
        15 => {
            let change = TrainerCall::Change(settings_with(ws, point(from(ws, 19))));
            Some((Call::Train(change), after(ws, 22)?))
        }
        _ => None,
    }
}

// The call that stands first, and the words after it.
#[tactic(auto, using(crate::proofs::Reading::empty_not))]
pub(crate) fn first_call(ws: &[u64]) -> Option<(Call<'_>, &[u64])>
    ensures { MatchOption result (spec.whole_of ws.now ≡ false) (λ r. First ws.now (meant r.0) r.1.now) }
{
    let (code, rest) = ws.split_first()?;
    call_of(*code, rest)
}
