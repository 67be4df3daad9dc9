// The draw that a generator gives a sender, whether one is due, and when the generator steps.
ghost use Rattle.std.specs.Prelude.{◌≡◌};
ghost use Rattle.own_draws.specs.OwnDraws.{refused_with, draw_in, due_in, due_of, generator_after, drawn_ack};

use crate::Drawing;
use refusal::Refusal;
use rule_tree::inner::rules::Rules;
use sender::{Ack, Held, Repeat, RepeatMode, Sender};
use xoshiro::State;

pub fn refused(refusal: Refusal, generator: State) -> Drawing
    ensures { result ≡ refused_with generator refusal }
{
    Drawing {
        reply: Err(refusal),
        generator,
    }
}

// The draw that an output gives for a mode: of lo..=hi, else none.
#[tactic(auto, unfolding(crate::specs::OwnDraws::draw_in))]
pub fn draw_in(mode: RepeatMode, output: u64) -> Option<u32>
    ensures { result ≡ draw_in mode output }
{
    match mode {
        RepeatMode::Off | RepeatMode::Always(_) => None,
        RepeatMode::Between(lo, hi) => xoshiro::draw(output, lo, hi),
    }
}

// Whether an ack has a draw due: the mode is lo..=hi, and no repeat is pending.
#[tactic(auto, unfolding(crate::specs::OwnDraws::due_in, crate::specs::OwnDraws::between_in))]
pub fn due_in(mode: RepeatMode, pending: Option<Repeat>) -> bool
    ensures { result ≡ due_in mode pending }
{
    pending.is_none() && matches!(mode, RepeatMode::Between(_, _))
}

// The same of a sender's next ack.
pub fn due_of(s: Sender) -> bool
    ensures { result ≡ due_of s }
{
    due_in(s.repeat_actions, s.next_change)
}

// The generator after an ack: stepped where the ack is taken and had a draw due, else the one that came.
#[tactic(auto, unfolding(crate::specs::OwnDraws::generator_after))]
pub fn generator_after(
    due: bool,
    reply: Result<Held, Refusal>,
    came: State,
    stepped: State,
) -> State
    ensures { result ≡ generator_after due reply came stepped }
{
    match reply {
        Ok(_) if due => stepped,
        _ => came,
    }
}

// The ack over a tree that was tested, with a generator that is not four zeros.
pub fn taken(rules: &Rules<'_>, s: Sender, generator: State, sent: f64, received: f64) -> Drawing
    ensures { result ≡ drawn_ack rules.now.grown.tree.now s generator sent received }
{
    let next = xoshiro::inner::next(generator);
    let draw = draw_in(s.repeat_actions, next.output);
    let reply = s.ack_by(
        rules,
        Ack {
            sent,
            received,
            draw,
        },
    );
    let due = due_of(s);
    Drawing {
        reply,
        generator: generator_after(due, reply, generator, next.state),
    }
}
