// Events on a sender, in 22 bytes each, over a tree that was tested.
ghost use Rattle.std.specs.Prelude.{◌≡◌, ◌+◌, ◌*◌, ◌≤◌, length};
ghost use Rattle.std.proofs.lemmas.List.Edits.{sets};
ghost use Rattle.host_sender.specs.Events.{draw_at, ack_at, event_at, event_count, sender_after, reply_bytes, replies_bytes, events_in, sender_on, replies_on};

use crate::inner::read::read_sender;
use crate::inner::write::{SENDER_SIZE, write_sender};
use refusal::Refusal;
use rule_tree::inner::grown::Grown;
use rule_tree::inner::rules::Rules;
use sender::inner::events::left_by;
use sender::{Ack, Event, Held, Sender};
use wire::inner::read::{byte_at, flag_at, float_at, word_at};
use wire::inner::write::{flag_of, put};

// The bytes of an event, and of a reply.
pub const EVENT_SIZE: usize = 22;

pub const REPLY_SIZE: usize = 6;

pub fn draw_at(bytes: &[u8], at: usize) -> Option<u32>
    requires { at ≤ 65000 }
    ensures { result ≡ draw_at bytes.now at }
{
    flag_at(bytes, at).then(|| word_at(bytes, at + 1))
}

pub fn ack_at(bytes: &[u8], at: usize) -> Ack
    requires { at ≤ 60000 }
    ensures { result ≡ ack_at bytes.now at }
{
    Ack {
        sent: float_at(bytes, at),
        received: float_at(bytes, at + 8),
        draw: draw_at(bytes, at + 16),
    }
}

// One event: an ack, a send, or a tick.
#[tactic(auto, unfolding(crate::specs::Events::event_at))]
pub fn event_at(bytes: &[u8]) -> Event
    ensures { result ≡ event_at bytes.now 0 }
{
    match byte_at(bytes, 0) {
        0 => Event::Ack(ack_at(bytes, 1)),
        1 => Event::Send(float_at(bytes, 1)),
        _ => Event::Tick,
    }
}

// The refusal's number, or 0; the window that is handed back, 0 with a refusal; and whether an ack's window was clipped.
pub fn put_reply(out: &mut [u8], at: usize, reply: Result<Held, Refusal>)
    requires { at + 6 ≤ length out.old }
    ensures { out.new ≡ sets out.old at (reply_bytes reply) }
{
    match reply {
        Ok(held) => {
            out[at] = 0;
            put(out, at + 1, 4, u64::from(held.window));
            out[at + 5] = flag_of(held.clipped);
        }
        Err(refused) => {
            put(out, at, 1, u64::from(refused.number()));
            put(out, at + 1, 5, 0);
        }
    }
}

// The sender after the events, whose replies are put into out.
fn run(rules: &Rules<'_>, s: Sender, list: &[u8], out: &mut [u8]) -> Sender
    requires { 6 * event_count list.now ≤ length out.old }
    ensures { (result ≡ sender_after rules.now.grown.tree.now s list.now (event_count list.now)) × (out.new ≡ sets out.old 0 (replies_bytes rules.now.grown.tree.now s list.now (event_count list.now))) }
{
    let mut left = s;
    for i in 0..list.len() / EVENT_SIZE {
        let at = EVENT_SIZE * i;
        let reply = left.event_by(rules, event_at(&list[at..at + EVENT_SIZE]));
        put_reply(out, REPLY_SIZE * i, reply);
        left = left_by(left, reply);
    }
    left
}

// The events over a tree that was tested. A refused call writes nothing.
#[tactic(auto, unfolding(crate::specs::Events::events_in, crate::specs::Events::sender_on, crate::specs::Events::replies_on))]
pub fn events_on(
    tree: Grown<'_>,
    sender: &mut [u8],
    list: &[u8],
    out: &mut [u8],
) -> Result<usize, Refusal>
    ensures { (result ≡ events_in sender.old list.now out.old) × (sender.new ≡ sender_on tree.entry.tree.now sender.old list.now out.old) × (out.new ≡ replies_on tree.entry.tree.now sender.old list.now out.old) }
{
    if sender.len() != SENDER_SIZE {
        return Err(Refusal::BadLength);
    }
    if list.len() % EVENT_SIZE != 0 {
        return Err(Refusal::BadLength);
    }
    let size = REPLY_SIZE * (list.len() / EVENT_SIZE);
    if size > out.len() {
        return Err(Refusal::ShortBuffer);
    }
    let after = run(&Rules::of(tree), read_sender(sender), list, out);
    write_sender(sender, after);
    Ok(size)
}
