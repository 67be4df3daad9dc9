// Acks, sends and ticks over a tree that passed the test for 10.
ghost use Rattle.std.specs.Prelude.{◌≡◌};
ghost use Rattle.sender.specs.SenderCall.{on};
ghost use Rattle.sender.specs.Sender.{ack_of, replied_to, left_by};

use crate::inner::{acks, memory};
use crate::{Ack, Event, Held, Sender};
use quantities::Time;
use refusal::Refusal;
use rule_tree::inner::rules::Rules;

impl Sender {
    // An ack goes by the action that is pending, or else by the one that is found, with a draw.
    #[tactic(auto, unfolding(crate::specs::Sender::ack_of, crate::specs::Acks::ack_admitted, crate::specs::Acks::ack_pending, crate::specs::Acks::ack_with, crate::specs::Acks::ack_drawn))]
    pub fn ack_by(self, rules: &Rules<'_>, x: Ack) -> Result<Held, Refusal>
        ensures { result ≡ ack_of rules.now.grown.tree.now self x.sent x.received x.draw }
    {
        let sent = Time::admit(x.sent)?;
        let received = Time::admit(x.received)?;
        let m = memory::remember(self, sent, received);
        if let Some(repeat) = m.next_change {
            return Ok(acks::settle(m, repeat.action, repeat.next()));
        }
        let Some(a) = rules.find(memory::point(m)) else {
            return Err(Refusal::NoRule);
        };
        let next = acks::draw_next(m.repeat_actions, x.draw, a)?;
        Ok(acks::settle(m, a, next))
    }

    #[tactic(auto, unfolding(crate::specs::Sender::replied_to, crate::specs::SenderCall::on))]
    pub fn event_by(self, rules: &Rules<'_>, e: Event) -> Result<Held, Refusal>
        ensures { result ≡ replied_to self (on rules.now.grown.tree.now e) }
    {
        match e {
            Event::Ack(x) => self.ack_by(rules, x),
            Event::Send(at) => self.packet_sent(at),
            Event::Tick => Ok(self.tick()),
        }
    }
}

// The sender that a call leaves: after a refusal the one that came.
#[tactic(auto, unfolding(crate::specs::Sender::left_by))]
pub fn left_by(s: Sender, reply: Result<Held, Refusal>) -> Sender
    ensures { result ≡ left_by s reply }
{
    reply.map_or(s, |held| held.sender)
}
