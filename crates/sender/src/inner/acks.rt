// What an ack makes of its draw, of a pending repeat, and of the action that it goes by.
ghost use Rattle.std.specs.Prelude.{◌≡◌};
ghost use Rattle.sender.specs.Acks.{draw_from, drawn, settled, repeat_next};

use crate::inner::memory;
use crate::{Held, Repeat, RepeatMode, Sender};
use refusal::Refusal;
use remy::action::Action;

// A number too large for a draw is none. One call of the library's, which runs makes for a word of its own too.
#[tactic(auto, unfolding(crate::specs::Acks::draw_from))]
pub fn draw_from(n: u64) -> Option<u32>
    ensures { result ≡ draw_from n }
{
    u32::try_from(n).ok()
}

// What a draw makes of the action that was looked up. A due draw that is absent or outside is refused.
#[tactic(auto, unfolding(crate::specs::Acks::drawn))]
pub fn draw_next(
    mode: RepeatMode,
    draw: Option<u32>,
    action: Action,
) -> Result<Option<Repeat>, Refusal>
    ensures { result ≡ drawn mode draw action }
{
    match mode {
        RepeatMode::Off => Ok(None),
        RepeatMode::Always(left) => Ok(Some(Repeat { left, action })),
        RepeatMode::Between(lo, hi) => match draw {
            Some(left) if lo <= left && left <= hi => Ok(Some(Repeat { left, action })),
            _ => Err(Refusal::NoDraw),
        },
    }
}

impl Repeat {
    // The repeat after one ack more.
    #[tactic(auto, unfolding(crate::specs::Acks::repeat_next))]
    pub fn next(self) -> Option<Repeat>
        ensures { result ≡ repeat_next self }
    {
        if self.left == 0 {
            return None;
        }
        Some(Repeat {
            left: self.left - 1,
            ..self
        })
    }
}

// The sender paced by an action, with what is pending next.
#[tactic(auto, unfolding(remy::specs::Action::rule_of))]
pub fn settle(s: Sender, a: Action, next_change: Option<Repeat>) -> Held
    ensures { result ≡ settled s a next_change }
{
    let applied = a.applied(s.window);
    let sender = Sender {
        next_change,
        window: applied.window,
        intersend_delay: a.intersend_delay,
        ..s
    };
    let shown = memory::window_now(sender);
    Held {
        sender,
        window: shown,
        clipped: applied.clipped,
    }
}
