// A sender on a box without a host: each draw comes from the box's own generator.
#![tactic(auto)]

ghost use Rattle.std.specs.Prelude.{◌≡◌};
ghost use Rattle.own_draws.specs.OwnDraws.{own_ack_of};

use refusal::Refusal;
use rule_tree::RuleTree;
use rule_tree::inner::grown::Grown;
use rule_tree::inner::rules::Rules;
use sender::{Held, Sender};
use xoshiro::State;

pub mod inner;

// The reply to an ack, and the generator after it.
#[derive(Clone, Copy)]
pub struct Drawing {
    pub reply: Result<Held, Refusal>,
    pub generator: State,
}

// An ack of what was sent at a moment, received at another, over a tree; a due draw is the generator's.
#[tactic(auto, unfolding(crate::specs::OwnDraws::own_ack_of))]
pub fn ack_received(
    s: Sender,
    generator: State,
    tree: RuleTree,
    sent: f64,
    received: f64,
) -> Drawing
    ensures { result ≡ own_ack_of tree s generator sent received }
{
    let Ok(grown) = Grown::of(&tree) else {
        return inner::refused(Refusal::NotGrown, generator);
    };
    if xoshiro::inner::zeros(generator) {
        return inner::refused(Refusal::ZeroState, generator);
    }
    inner::taken(&Rules::of(grown), s, generator, sent, received)
}
