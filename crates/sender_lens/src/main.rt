// A sender at work, printed: which acks look up, which repeat, and what is refused.
#![tactic(auto)]

use refusal::Refusal;
use remy::action::Action;
use remy::point::Point;
use rule_tree::RuleTree;
use sender::{Ack, Event, Held, Repeat, RepeatMode, Sender};

fn say(text: &[u8]) {
    io::write_all(1, text);
}

fn number(n: u32) {
    io::print_decimal(1, u64::from(n));
}

fn refused(r: Refusal) {
    say(b"  refused ");
    number(r.number());
    say(b"\n");
}

// An ack without a draw, and one with a draw.
fn ack(sent: f64, received: f64) -> Ack {
    Ack {
        sent,
        received,
        draw: None,
    }
}

fn drawn(sent: f64, received: f64, n: u32) -> Ack {
    Ack {
        draw: Some(n),
        ..ack(sent, received)
    }
}

// A tree of one leaf, whose action waits 0.25 s.
fn leaf(multiplier: f64, increment: i32) -> Result<RuleTree, Refusal> {
    RuleTree::new(
        Point::usual_ends(),
        Action::new(multiplier, increment, 0.25),
    )
}

fn adds(increment: i32) -> Result<RuleTree, Refusal> {
    leaf(1.0, increment)
}

// A sender at work: what a call answers is printed, and the sender that it leaves is at work next.
#[derive(Clone, Copy)]
struct Working(Sender);

impl Working {
    // A new sender under a title. Where the mode is refused a line says so, and the sender has the mode off.
    fn start(title: &[u8], mode: RepeatMode) -> Working {
        say(title);
        say(b"\n");
        Working(Sender::new(mode).unwrap_or_else(|r| {
            refused(r);
            sender::inner::memory::fresh(RepeatMode::Off)
        }))
    }

    fn with_window(self, window: u32) -> Working {
        Working(Sender { window, ..self.0 })
    }

    // The window, whether it was clipped, and what is left of a pending repeat.
    // own_draws_lens prints its answers much alike: a crate that the two programs share would hold little but this.
    fn answered(self, reply: Result<Held, Refusal>) -> Working {
        match reply {
            Ok(held) => {
                say(b"  window ");
                number(held.window);
                if held.clipped {
                    say(b", clipped");
                }
                if let Some(repeat) = held.sender.next_change {
                    say(b", left ");
                    number(repeat.left);
                }
                say(b"\n");
                Working(held.sender)
            }
            Err(r) => {
                refused(r);
                self
            }
        }
    }

    fn ack(self, tree: RuleTree, ack: Ack) -> Working {
        let reply = self.0.ack_received(tree, ack.sent, ack.received, ack.draw);
        self.answered(reply)
    }

    fn send(self, at: f64) -> Working {
        self.answered(self.0.packet_sent(at))
    }

    fn event(self, tree: RuleTree, e: Event) -> Working {
        self.answered(self.0.event(tree, e))
    }

    // When the sender next wants a tick, in whole milliseconds.
    fn wake(self, now: f64) {
        match self.0.next_tick(now) {
            Ok(Some(t)) => {
                say(b"  wake at ");
                io::print_decimal(1, std::num::saturating_f64_to_u64(t.held() * 1000.0));
                say(b" ms\n");
            }
            Ok(None) => say(b"  no wake\n"),
            Err(r) => refused(r),
        }
    }
}

// The trees of one run add different numbers, so a window shows which tree its action is from.
fn draw_zero() -> Result<(), Refusal> {
    Working::start(b"draw 0: acks 1 and 3 look up", RepeatMode::Between(0, 5))
        .ack(adds(10)?, drawn(0.0, 1.0, 0))
        .ack(adds(100)?, drawn(1.0, 2.0, 0))
        .ack(adds(1000)?, drawn(2.0, 3.0, 0));
    Ok(())
}

fn no_round_trip(tree: RuleTree) {
    Working::start(b"sent = received on a first ack", RepeatMode::Off).ack(tree, ack(1.0, 1.0));
    Working::start(
        b"sent = received under a repeat, then a lookup",
        RepeatMode::Always(0),
    )
    .ack(tree, ack(0.0, 1.0))
    .ack(tree, ack(2.0, 2.0))
    .ack(tree, ack(2.0, 3.0));
}

fn edges(tree: RuleTree) {
    let s = Working::start(
        b"sends at 0, -0, 2^32, just beyond, just below 0, NaN",
        RepeatMode::Off,
    );
    s.send(0.0);
    s.send(-0.0);
    s.send(4294967296.0);
    s.send(4294967296.000001);
    s.send(-0.000001);
    s.send(0.0 / 0.0);
    let a = Working::start(
        b"acks of what was sent at -0, received at 2^32, just beyond, NaN",
        RepeatMode::Off,
    );
    a.ack(tree, ack(-0.0, 4294967296.0));
    a.ack(tree, ack(-0.0, 4294967296.000001));
    a.ack(tree, ack(-0.0, 0.0 / 0.0));
    Working::start(b"NaN under a repeat", RepeatMode::Always(3))
        .ack(tree, ack(0.0, 1.0))
        .ack(tree, ack(0.0 / 0.0, 2.0));
}

fn long_gap(tree: RuleTree) {
    Working::start(
        b"a gap of 600 s, then one of 599 s to the ack before it",
        RepeatMode::Off,
    )
    .ack(tree, ack(0.0, 1.0))
    .ack(tree, ack(0.0, 601.0))
    .ack(tree, ack(599.0, 600.0));
    Working::start(
        b"a gap of 600 s under a repeat, then a lookup",
        RepeatMode::Always(0),
    )
    .ack(tree, ack(0.0, 1.0))
    .ack(tree, ack(600.0, 601.0))
    .ack(tree, ack(601.0, 602.0));
}

fn received_before_sent(tree: RuleTree) {
    Working::start(b"received before sent, then after", RepeatMode::Off)
        .ack(tree, ack(3.0, 1.0))
        .ack(tree, ack(3.0, 4.0));
}

fn modes(tree: RuleTree) -> Result<(), Refusal> {
    Working::start(b"lo above hi", RepeatMode::Between(5, 4));
    Working::start(b"hi = 4294967295", RepeatMode::Between(0, 4294967295));
    let s = Working::start(
        b"4294967294..=4294967294, draws below, absent, it, above",
        RepeatMode::Between(4294967294, 4294967294),
    );
    s.ack(tree, drawn(0.0, 1.0, 4294967293));
    s.ack(tree, ack(0.0, 1.0));
    s.ack(tree, drawn(0.0, 1.0, 4294967294));
    s.ack(tree, drawn(0.0, 1.0, 4294967295));
    s.ack(tree, ack(1.0, 1.0));
    Working::start(b"always 4294967295", RepeatMode::Always(4294967295))
        .ack(tree, ack(0.0, 1.0))
        .ack(adds(100)?, ack(1.0, 2.0));
    Working::start(b"off: a draw is not due", RepeatMode::Off).ack(tree, drawn(0.0, 1.0, 7));
    Ok(())
}

fn sends_and_wakes(tree: RuleTree) {
    let s = Working::start(
        b"a send, then an ack, with wakes at 1 s, 3 s and NaN",
        RepeatMode::Off,
    );
    s.wake(1.0);
    let s = s.send(2.0).ack(tree, ack(2.0, 2.5));
    s.wake(1.0);
    s.wake(3.0);
    s.wake(0.0 / 0.0);
}

fn events(tree: RuleTree) {
    let s = Working::start(
        b"events: a send, an ack, a tick, a send at NaN; a tick over a tree of 65 splits",
        RepeatMode::Off,
    )
    .event(tree, Event::Send(2.0))
    .event(tree, Event::Ack(ack(2.0, 2.5)))
    .event(tree, Event::Tick);
    s.event(tree, Event::Send(0.0 / 0.0));
    s.event(RuleTree { splits: 65, ..tree }, Event::Tick);
}

fn fast_radio(usual: RuleTree) -> Result<(), Refusal> {
    let action = Action::new(1.0, 10, 0.25);
    let near = RuleTree::new(Point::new(1.0, 1.0, 1000.0), action)?;
    let s = Working::start(
        b"a fast radio, gaps below 1 s: a gap of 1 s, one of 0.75 s, and the first over the usual ends",
        RepeatMode::Off,
    )
    .event(near, Event::Ack(ack(0.0, 0.5)));
    s.event(near, Event::Ack(ack(0.5, 1.5)));
    s.event(near, Event::Ack(ack(0.5, 1.25)));
    s.event(usual, Event::Ack(ack(0.5, 1.5)));
    let low = RuleTree::new(Point::new(600.0, 600.0, 1.0), action)?;
    Working::start(
        b"a ratio below 1: a first ack, whose ratio is 1",
        RepeatMode::Off,
    )
    .event(low, Event::Ack(ack(0.0, 0.5)));
    Ok(())
}

// A first ack by a multiplier and an increment, of a sender whose window is given.
fn rule(s: Working, window: u32, multiplier: f64, increment: i32) -> Result<(), Refusal> {
    s.with_window(window)
        .ack(leaf(multiplier, increment)?, ack(0.0, 1.0));
    Ok(())
}

// Sums at and beyond both ends.
fn sums() -> Result<(), Refusal> {
    let s = Working::start(
        b"sums of 1000000, 1000001, 0, -1, and of -0.9 cut to 0",
        RepeatMode::Off,
    );
    rule(s, 500000, 1.0, 500000)?;
    rule(s, 500000, 1.0, 500001)?;
    rule(s, 5, 1.0, -5)?;
    rule(s, 5, 1.0, -6)?;
    rule(s, 1, -0.9, 0)
}

// Products that are cut to whole at and beyond the ends of i32.
fn products(tree: RuleTree) -> Result<(), Refusal> {
    let p = Working::start(
        b"products 1e300, infinite, and 0; a pending action whose multiplier is NaN",
        RepeatMode::Off,
    );
    rule(p, 1, 1e300, -1000000)?;
    rule(p, 4294967295, 1e300 * 1e8, 0)?;
    rule(p, 0, 1e300, 7)?;
    let still = Action::new(1.0, 0, 0.25);
    let pending = Some(Repeat {
        left: 0,
        action: Action::new(0.0 / 0.0, 7, 0.25),
    });
    p.answered(Ok(sender::inner::acks::settle(p.0, still, pending)))
        .ack(tree, ack(0.0, 1.0));
    Ok(())
}

fn clipped(tree: RuleTree) -> Result<(), Refusal> {
    let less = adds(-1)?;
    Working::start(
        b"a repeat is clipped, while a send stands too; a tick and a send are not",
        RepeatMode::Always(1),
    )
    .ack(adds(600000)?, ack(0.0, 1.0))
    .ack(tree, ack(1.0, 2.0))
    .send(2.0)
    .ack(tree, ack(2.0, 3.0))
    .event(less, Event::Tick)
    .ack(less, ack(3.0, 4.0));
    Ok(())
}

fn all() -> Result<(), Refusal> {
    let ten = adds(10)?;
    draw_zero()?;
    no_round_trip(ten);
    edges(ten);
    long_gap(ten);
    received_before_sent(ten);
    modes(ten)?;
    sends_and_wakes(ten);
    events(ten);
    fast_radio(ten)?;
    sums()?;
    products(ten)?;
    clipped(ten)
}

fn main() {
    if let Err(r) = all() {
        refused(r);
    }
}
