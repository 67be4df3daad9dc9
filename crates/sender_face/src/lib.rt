// The calls that change the caller's sender: it is lent and, by a rule of the project (docs/SCOPE.md, S27.9), written in the few fields that a call
// changes, and not as a whole. A refused call writes nothing.
#![tactic(auto)]

ghost use Rattle.std.specs.Prelude.{◌≡◌};
ghost use Rattle.sender.specs.Sender.{send_of, ack_of, tick_of};
ghost use Rattle.sender_face.specs.Face.{answer_of, window_from, left_by};

use refusal::Refusal;
use rule_tree::RuleTree;
use sender::{Held, Sender};

// The window that a call answers, and beside it whether its action's window was clipped: no test of the window, which is there in any case.
#[derive(Clone, Copy, PartialEq, Eq)]
pub struct Answer {
    pub window: u32,
    pub clipped: bool,
}

impl From<Held> for Answer {
    ghost from_gives = { λ h r. r ≡ answer_of h };

    fn from(held: Held) -> Answer {
        Answer {
            window: held.window,
            clipped: held.clipped,
        }
    }
}

// A packet is sent at a moment.
#[tactic(auto, unfolding(crate::specs::Face::window_from, sender::specs::Sender::left_by, sender::specs::Sender::send_admitted))]
pub fn packet_sent(s: &mut Sender, at: f64) -> Result<Answer, Refusal>
    ensures { (result ≡ window_from (send_of s.old at)) × (s.new ≡ left_by s.old (send_of s.old at)) }
{
    let held = s.packet_sent(at)?;
    s.last_send = held.sender.last_send;
    Ok(Answer::from(held))
}

// An ack of what was sent at a moment, received at another, over a tree, with a draw or none.
#[tactic(auto, using(crate::proofs::Replies::ack_left), unfolding(crate::specs::Face::window_from, sender::specs::Sender::left_by))]
pub fn ack_received(
    s: &mut Sender,
    tree: RuleTree,
    sent: f64,
    received: f64,
    draw: Option<u32>,
) -> Result<Answer, Refusal>
    ensures { (result ≡ window_from (ack_of tree s.old sent received draw)) × (s.new ≡ left_by s.old (ack_of tree s.old sent received draw)) }
{
    let held = s.ack_received(tree, sent, received, draw)?;
    s.last_ack = held.sender.last_ack;
    s.last_ack_send = held.sender.last_ack_send;
    s.ack_ewma = held.sender.ack_ewma;
    s.send_ewma = held.sender.send_ewma;
    s.rtt = held.sender.rtt;
    s.next_change = held.sender.next_change;
    s.window = held.sender.window;
    s.intersend_delay = held.sender.intersend_delay;
    Ok(Answer::from(held))
}

// A tick: no send stands any more.
#[tactic(auto, unfolding(sender::specs::Acks::window_in))]
pub fn tick(s: &mut Sender) -> u32
    ensures { (result ≡ (tick_of s.old).window) × (s.new ≡ (tick_of s.old).sender) }
{
    s.last_send = None;
    s.window
}
