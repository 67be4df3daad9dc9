// A sender that draws for itself, printed: at which acks its generator steps, and what is refused.
#![tactic(auto)]

use refusal::Refusal;
use remy::action::Action;
use remy::point::Point;
use rule_tree::RuleTree;
use sender::{Held, RepeatMode, Sender};
use xoshiro::State;

// A sender with its generator.
#[derive(Clone, Copy)]
struct Drawer {
    sender: Sender,
    generator: State,
}

fn say(text: &[u8]) {
    io::write_all(1, text);
}

fn number(n: u64) {
    io::print_decimal(1, n);
}

fn refused(r: Refusal) {
    say(b"refused ");
    number(u64::from(r.number()));
}

// The window, and what is left of a repeat; then the sender that the ack leaves.
fn answered(s: Sender, reply: Result<Held, Refusal>) -> Sender {
    match reply {
        Ok(held) => {
            say(b"  window ");
            number(u64::from(held.window));
            if let Some(repeat) = held.sender.next_change {
                say(b", left ");
                number(u64::from(repeat.left));
            }
            held.sender
        }
        Err(r) => {
            say(b"  ");
            refused(r);
            s
        }
    }
}

impl Drawer {
    fn start(title: &[u8], mode: RepeatMode, generator: State) -> Drawer {
        say(title);
        say(b"\n");
        let sender = sender::inner::memory::fresh(mode);
        Drawer { sender, generator }
    }

    // What the ack answers, and the generator after it.
    fn ack(self, tree: RuleTree, sent: f64, received: f64) -> Drawer {
        let drawn = own_draws::ack_received(self.sender, self.generator, tree, sent, received);
        let sender = answered(self.sender, drawn.reply);
        let generator = drawn.generator;
        say(b", state");
        for word in [generator.s0, generator.s1, generator.s2, generator.s3] {
            say(b" ");
            number(word);
        }
        say(b"\n");
        Drawer { sender, generator }
    }
}

fn all() -> Result<(), Refusal> {
    let seed = State {
        s0: 1,
        s1: 2,
        s2: 3,
        s3: 4,
    };
    let none = State {
        s0: 0,
        s1: 0,
        s2: 0,
        s3: 0,
    };
    // One leaf, whose action adds 1 to the window; and the same where no split grew it.
    let tree = RuleTree::new(Point::usual_ends(), Action::new(1.0, 1, 0.25))?;
    let ungrown = RuleTree { splits: 65, ..tree };
    Drawer::start(
        b"0..=2, a step at each ack that is taken and has a draw due",
        RepeatMode::Between(0, 2),
        seed,
    )
    .ack(tree, 1.0, 1.5)
    .ack(tree, 1.25, 1.75)
    .ack(tree, 1.5, 2.0)
    .ack(tree, 1.75, 2.25)
    .ack(tree, 2.0, 2.5)
    .ack(tree, -1.0, 2.5)
    .ack(tree, 2.25, 2.75);
    Drawer::start(
        b"refused with 1, 22: no step",
        RepeatMode::Between(0, 2),
        seed,
    )
    .ack(tree, -1.0, 0.5)
    .ack(tree, 1.0, 1.0);
    Drawer::start(b"off", RepeatMode::Off, seed).ack(tree, 1.0, 1.5);
    Drawer::start(b"always 1", RepeatMode::Always(1), seed).ack(tree, 1.0, 1.5);
    Drawer::start(b"3..=2", RepeatMode::Between(3, 2), seed).ack(tree, 1.0, 1.5);
    Drawer::start(
        b"four zeros: 10, 26, then 1",
        RepeatMode::Between(0, 2),
        none,
    )
    .ack(ungrown, -1.0, 1.5)
    .ack(tree, -1.0, 1.5);
    Ok(())
}

fn main() {
    if let Err(r) = all() {
        refused(r);
        say(b"\n");
    }
}
