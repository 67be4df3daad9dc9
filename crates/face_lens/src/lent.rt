// A sender lent to the face for one call, and handed back with what the call answers.
ghost use Rattle.std.specs.Prelude.{◌≡◌};
ghost use Rattle.std.specs.Fn.{FnOnceReturnsAtMut};
ghost use Rattle.sender.specs.Sender.{send_of, ack_of, tick_of};
ghost use Rattle.sender_face.specs.Face.{window_from, left_by};

use refusal::Refusal;
use rule_tree::RuleTree;
use sender::{Held, Sender};
use sender_face::Answer;

#[derive(Clone, Copy)]
pub struct Lent<T> {
    pub sender: Sender,
    pub answer: T,
}

// A sender lent for a call.
fn by<T, F: FnOnce(&mut Sender) -> T>(sender: Sender, call: F) -> Lent<T>
    requires { F.IsAlwaysCallable call }
    ensures { FnOnceReturnsAtMut F.FnOnce call sender result.answer result.sender }
{
    let mut s = sender;
    let answer = call(&mut s);
    Lent { sender: s, answer }
}

pub fn tick(v: Sender) -> Held
    ensures { result ≡ tick_of v }
{
    let left = by(v, |s| sender_face::tick(s));
    Held {
        sender: left.sender,
        window: left.answer,
        clipped: false,
    }
}

pub fn send(v: Sender, at: f64) -> Lent<Result<Answer, Refusal>>
    ensures { (result.answer ≡ window_from (send_of v at)) × (result.sender ≡ left_by v (send_of v at)) }
{
    by(v, |s| sender_face::packet_sent(s, at))
}

pub fn ack(
    v: Sender,
    tree: RuleTree,
    sent: f64,
    received: f64,
    draw: Option<u32>,
) -> Lent<Result<Answer, Refusal>>
    ensures { (result.answer ≡ window_from (ack_of tree v sent received draw)) × (result.sender ≡ left_by v (ack_of tree v sent received draw)) }
{
    by(
        v,
        |s| sender_face::ack_received(s, tree, sent, received, draw),
    )
}
