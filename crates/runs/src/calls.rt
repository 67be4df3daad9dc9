// The calls, each with the words that are compared of it.
ghost use Rattle.std.specs.Prelude.{◌≡◌, ◌≤◌, length, replicate};
ghost use Rattle.record.specs.Calls.{save_of};
ghost use Rattle.promise.specs.PlainTrainer as plain;
ghost use Rattle.promise.specs.Demand3.{after_call, step_of};
ghost use Rattle.promise.specs.SenderRuns.{after_reply, sender_step};
ghost use Rattle.sender.specs.SenderCall.{on};
ghost use Rattle.runs.specs.Script.{bytes_of};
ghost use Rattle.runs.specs.Ran.{step_words, move_words, end_words};
ghost use Rattle.runs.specs.Writing.{Appends};
ghost use Rattle.runs.specs.Turn.{Trains, Moves, call_meant};

use crate::call::{Buffer, MOST_BYTES, TrainerCall};
use crate::script;
use crate::words::{Writer, of_refusal};
use refusal::Refusal;
use rule_tree::RuleTree;
use sender::{Event, Held, Sender};
use trainer::Trainer;

// The trainer after a call, with the words of the call, which has saved the bytes: after a refusal it is the one that the call got.
// Trainer and writer are no struct: a call takes the one and leaves another, and lends the other on.
fn report(t: Trainer, answer: Result<Trainer, Refusal>, saved: &[u8], w: &mut Writer) -> Trainer
    ensures { Trains w.old (after_call t answer (length saved.now) saved.now) result w.new }
{
    w.put_all(&[of_refusal(answer.err()), saved.len() as u64]);
    w.put_bytes(saved);
    let after = answer.unwrap_or(t);
    w.put_question(after.question());
    after
}

// A save into the lent buffer, and the load of the bytes that were written.
#[tactic(auto, unfolding(promise::specs::Demand3::step_of, promise::specs::Demand3::reloaded))]
fn reload_by(t: Trainer, buffer: &mut [u8], w: &mut Writer) -> Trainer
    ensures { Trains w.old (step_of t (plain.reload buffer.old)) result w.new }
{
    match record::save(t, buffer) {
        Ok(n) => {
            let saved = &buffer[..n];
            report(t, record::load(saved), saved, w)
        }
        Err(r) => report(t, Err(r), b"", w),
    }
}

fn reload(t: Trainer, lent: Buffer, w: &mut Writer) -> Trainer
    ensures { Trains w.old (step_of t (plain.reload (bytes_of lent.entry.words.now))) result w.new }
{
    let mut bytes = [0u8; MOST_BYTES];
    let n = lent.words.len();
    let buffer = &mut bytes[..n];
    script::fill(buffer, lent.words);
    reload_by(t, buffer, w)
}

#[tactic(auto, unfolding(promise::specs::Demand3::step_of))]
pub(crate) fn train(t: Trainer, call: TrainerCall, w: &mut Writer) -> Trainer
    ensures { Trains w.old (step_of t (call_meant call.entry)) result w.new }
{
    match call {
        TrainerCall::Counts(counts) => report(t, t.answer_counts(counts), b"", w),
        TrainerCall::Score(score) => report(t, t.answer_score(score), b"", w),
        TrainerCall::Reload(lent) => reload(t, lent, w),
        TrainerCall::Change(s) => report(t, t.change_settings(s), b"", w),
    }
}

// The sender after a call, with the words of the call: after a refusal it is the one that the call got.
#[tactic(auto, unfolding(promise::specs::SenderRuns::after_reply))]
fn answer(s: Sender, reply: Result<Held, Refusal>, w: &mut Writer) -> Sender
    ensures { Moves w.old (after_reply s reply) result w.new }
{
    let stays = Held {
        sender: s,
        window: 0,
        clipped: false,
    };
    let held = reply.unwrap_or(stays);
    w.put_reaction(reply.err(), held);
    held.sender
}

// An event of the sender, an ack over the tree.
#[tactic(auto, unfolding(promise::specs::SenderRuns::sender_step, sender::specs::SenderCall::on))]
pub(crate) fn react(tree: RuleTree, s: Sender, event: Event, w: &mut Writer) -> Sender
    ensures { Moves w.old (sender_step s (on tree event)) result w.new }
{
    match event {
        Event::Ack(x) => answer(s, s.ack_received(tree, x.sent, x.received, x.draw), w),
        Event::Send(at) => answer(s, s.packet_sent(at), w),
        Event::Tick => answer(s, Ok(s.tick()), w),
    }
}

// The record at the end, its size and its bytes.
#[tactic(auto, unfolding(crate::specs::Ran::end_words))]
pub(crate) fn finish(t: Trainer, w: &mut Writer)
    ensures { Appends w.old (end_words t (save_of t (replicate 16388 0))) w.new }
{
    let mut buffer = [0u8; 16388];
    let Ok(n) = record::save(t, &mut buffer) else {
        return;
    };
    w.put(n as u64);
    w.put_bytes(&buffer[..n]);
}
