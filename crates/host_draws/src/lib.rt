// A box's own generator for hosts, in 32 bytes: its step, its step back, and events whose acks draw from it.
#![tactic(auto)]

ghost use Rattle.std.specs.Prelude.{◌≡◌, false, ◌*◌, ◌≤◌, length};
ghost use Rattle.refusal.specs.Guards.{checked};
ghost use Rattle.std.proofs.lemmas.List.Edits.{sets};
ghost use Rattle.xoshiro.specs.Xoshiro.{zeros_of};
ghost use Rattle.own_draws.specs.OwnRuns.{own_replies, own_end, generator_end};
ghost use Rattle.host_sender.specs.Events.{event_count};
ghost use Rattle.host_draws.specs.Steps.{state_at, state_bytes, words_order, step_in, step_left, output_left, back_in, back_left};
ghost use Rattle.host_draws.specs.OwnEvents.{calls_in, replies_of, whole_of, played_in, played_sender, played_generator, played_replies, own_in, own_sender, own_generator, own_out_of};
ghost use Rattle.host_draws.specs.Parts.{drawn_event};

use host_sender::inner::read::read_sender;
use host_sender::inner::run::{EVENT_SIZE, REPLY_SIZE, event_at, put_reply};
use host_sender::inner::write::{SENDER_SIZE, write_sender};
use own_draws::Drawing;
use own_draws::inner::taken;
use refusal::Refusal;
use rule_tree::inner::grown::Grown;
use rule_tree::inner::rules::Rules;
use sender::inner::events::left_by;
use sender::{Event, Sender};
use wire::inner::read::number_at;
use wire::inner::write::put;
use xoshiro::State;
use xoshiro::inner::{back, next};

// The bytes of a generator's state: four words.
const STATE_SIZE: usize = 32;

// A sender and its generator, before events or after them.
#[derive(Clone, Copy)]
pub struct Left {
    pub sender: Sender,
    pub generator: State,
}

// The state that the bytes are: not those of another length, nor four zeros.
#[tactic(auto, using(std::proofs::lemmas::Bool::Decides::nat_tests))]
fn state_in(bytes: &[u8]) -> Result<State, Refusal>
    ensures { result ≡ checked (words_order bytes.now) (Ok (state_at bytes.now)) }
{
    if bytes.len() != STATE_SIZE {
        return Err(Refusal::BadLength);
    }
    State::new(
        number_at(bytes, 0, 8),
        number_at(bytes, 8, 8),
        number_at(bytes, 16, 8),
        number_at(bytes, 24, 8),
    )
}

fn put_state(bytes: &mut [u8], s: State)
    requires { length bytes.old ≡ 32 }
    ensures { bytes.new ≡ state_bytes s }
{
    put(bytes, 0, 8, s.s0);
    put(bytes, 8, 8, s.s1);
    put(bytes, 16, 8, s.s2);
    put(bytes, 24, 8, s.s3);
}

// The generator's output, and its state after the step. A refused call writes nothing.
#[tactic(auto, unfolding(crate::specs::Steps::step_in, crate::specs::Steps::step_left, crate::specs::Steps::output_left))]
pub fn step(generator: &mut [u8], out: &mut [u8]) -> Result<usize, Refusal>
    ensures { (result ≡ step_in generator.old out.old) × ((generator.new ≡ step_left generator.old out.old) × (out.new ≡ output_left generator.old out.old)) }
{
    let s = state_in(generator)?;
    if out.len() < 8 {
        return Err(Refusal::ShortBuffer);
    }
    let stepped = next(s);
    put_state(generator, stepped.state);
    put(out, 0, 8, stepped.output);
    Ok(8)
}

// The state before the step. A refused call writes nothing.
#[tactic(auto, unfolding(crate::specs::Steps::back_in, crate::specs::Steps::back_left))]
pub fn step_back(generator: &mut [u8]) -> Result<usize, Refusal>
    ensures { (result ≡ back_in generator.old) × (generator.new ≡ back_left generator.old) }
{
    let s = state_in(generator)?;
    put_state(generator, back(s));
    Ok(STATE_SIZE)
}

// An event over a tree that was tested; an ack's draw is the generator's, which is not four zeros.
#[tactic(auto, unfolding(crate::specs::Parts::drawn_event))]
fn drawn(rules: &Rules<'_>, from: Left, e: Event) -> Drawing
    ensures { result ≡ drawn_event rules.now.grown.tree.now from.sender from.generator e }
{
    let Left { sender, generator } = from;
    match e {
        Event::Ack(x) => taken(rules, sender, generator, x.sent, x.received),
        Event::Send(at) => Drawing {
            reply: sender.packet_sent(at),
            generator,
        },
        Event::Tick => Drawing {
            reply: Ok(sender.tick()),
            generator,
        },
    }
}

// What the events leave; their replies are put into out. One loop for this and host_sender's is no plainer: it would take a trait of what an
// event leaves, with its own fold and law of it, for these ten lines.
fn run(rules: &Rules<'_>, from: Left, list: &[u8], out: &mut [u8]) -> Left
    requires { (zeros_of from.generator ≡ false) × (6 * event_count list.now ≤ length out.old) }
    ensures { let cs = calls_in rules.now.grown.tree.now list.now (event_count list.now) in (result.sender ≡ own_end from.sender from.generator cs) × ((result.generator ≡ generator_end from.sender from.generator cs) × (out.new ≡ sets out.old 0 (replies_of (own_replies from.sender from.generator cs)))) }
{
    let mut left = from;
    for i in 0..list.len() / EVENT_SIZE {
        let at = EVENT_SIZE * i;
        let reply = drawn(rules, left, event_at(&list[at..at + EVENT_SIZE]));
        put_reply(out, REPLY_SIZE * i, reply.reply);
        left = Left {
            sender: left_by(left.sender, reply.reply),
            generator: reply.generator,
        };
    }
    left
}

// A whole sender, a whole generator and whole events, by their lengths.
#[tactic(auto, using(std::proofs::lemmas::Bool::Decides::nat_tests), unfolding(crate::specs::OwnEvents::whole_of))]
fn whole(sender: usize, generator: usize, list: usize) -> bool
    ensures { result ≡ whole_of sender generator list }
{
    sender == SENDER_SIZE && generator == STATE_SIZE && list % EVENT_SIZE == 0
}

// The events over a tree that was tested. A refused call writes nothing.
#[tactic(auto, unfolding(crate::specs::OwnEvents::played_in, crate::specs::OwnEvents::played_sender, crate::specs::OwnEvents::played_generator, crate::specs::OwnEvents::played_replies))]
fn played(
    tree: Grown<'_>,
    sender: &mut [u8],
    generator: &mut [u8],
    list: &[u8],
    out: &mut [u8],
) -> Result<usize, Refusal>
    ensures { let t = tree.entry.tree.now in (result ≡ played_in sender.old generator.old list.now out.old) × ((sender.new ≡ played_sender t sender.old generator.old list.now out.old) × ((generator.new ≡ played_generator t sender.old generator.old list.now out.old) × (out.new ≡ played_replies t sender.old generator.old list.now out.old))) }
{
    if !whole(sender.len(), generator.len(), list.len()) {
        return Err(Refusal::BadLength);
    }
    let g = state_in(generator)?;
    let size = REPLY_SIZE * (list.len() / EVENT_SIZE);
    if size > out.len() {
        return Err(Refusal::ShortBuffer);
    }
    let from = Left {
        sender: read_sender(sender),
        generator: g,
    };
    let left = run(&Rules::of(tree), from, list, out);
    write_sender(sender, left.sender);
    put_state(generator, left.generator);
    Ok(size)
}

// Takes the events in a list over the tree of a record's trainer, as events does, with the generator's draws: the sender's and the generator's bytes become
// those after them, and out gets the replies. A refused call writes nothing.
#[tactic(auto, using(record::proofs::Loaded::loaded_grown, record::proofs::Loaded::loaded_few))]
pub fn own_events(
    held: &[u8],
    sender: &mut [u8],
    generator: &mut [u8],
    list: &[u8],
    out: &mut [u8],
) -> Result<usize, Refusal>
    ensures { (result ≡ own_in held.now sender.old generator.old list.now out.old) × ((sender.new ≡ own_sender held.now sender.old generator.old list.now out.old) × ((generator.new ≡ own_generator held.now sender.old generator.old list.now out.old) × (out.new ≡ own_out_of held.now sender.old generator.old list.now out.old))) }
{
    let t = record::load(held)?;
    played(Grown { tree: &t.tree }, sender, generator, list, out)
}
