// A burst of acks, over a tree that passed the test for 10. Windows and flags are lists apart, since hosts lend them so.
ghost use Rattle.std.specs.Prelude.{◌≡◌, ◌≤◌, ◌++◌, length, drop};
ghost use Rattle.sender.specs.Burst.{room_for, course_of, ran_by};

use crate::{Ack, Ran, Sender};
use rule_tree::inner::rules::Rules;

// At most 256 acks, and a place in each list for each.
#[tactic(auto, unfolding(crate::specs::Burst::room_for))]
pub fn fits(n: usize, windows: usize, clipped: usize) -> bool
    ensures { result ≡ room_for n windows clipped }
{
    n <= 256 && n <= windows && n <= clipped
}

pub fn run(
    rules: &Rules<'_>,
    s: Sender,
    acks: &[Ack],
    windows: &mut [u32],
    clipped: &mut [u8],
) -> Ran
    requires { (length acks.now ≤ length windows.old) × (length acks.now ≤ length clipped.old) }
    ensures { let c = course_of rules.now.grown.tree.now s acks.now in (result ≡ ran_by c) × (windows.new ≡ c.windows ++ drop result.taken windows.old) × (clipped.new ≡ c.flags ++ drop result.taken clipped.old) }
{
    let mut sender = s;
    for (i, x) in acks.iter().enumerate() {
        match sender.ack_by(rules, *x) {
            Ok(held) => {
                windows[i] = held.window;
                clipped[i] = u8::from(held.clipped);
                sender = held.sender;
            }
            Err(refused) => {
                return Ran {
                    sender,
                    taken: i,
                    stopped: Some(refused),
                };
            }
        }
    }
    Ran {
        sender,
        taken: acks.len(),
        stopped: None,
    }
}
