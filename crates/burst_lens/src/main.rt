// Bursts of acks, printed, each beside its acks given one by one: how many are taken, what stops it, and what is in the two lists.
#![tactic(auto)]

ghost use Rattle.std.specs.Prelude.{◌<◌, ◌≤◌, length};

use refusal::Refusal;
use remy::action::Action;
use remy::point::Point;
use rule_tree::RuleTree;
use sender::{Ack, Held, Ran, RepeatMode, Sender};

fn say(text: &[u8]) {
    io::write_all(1, text);
}

fn number(n: u64) {
    io::print_decimal(1, n);
}

fn refused(r: Refusal) {
    say(b"refused ");
    number(u64::from(r.number()));
}

// A tree of one leaf, whose action adds to the window.
fn adds(increment: i32) -> Result<RuleTree, Refusal> {
    RuleTree::new(Point::usual_ends(), Action::new(1.0, increment, 0.25))
}

fn ack(sent: f64, received: f64) -> Ack {
    Ack {
        sent,
        received,
        draw: None,
    }
}

fn drawn(sent: f64, received: f64, n: u32) -> Ack {
    Ack {
        draw: Some(n),
        ..ack(sent, received)
    }
}

// Acks of what was sent each quarter of a second, received half a second later.
fn steady() -> [Ack; 257] {
    let mut acks = [ack(0.0, 0.5); 257];
    let mut at = 0.0;
    for x in acks.iter_mut() {
        *x = ack(at, at + 0.5);
        at += 0.25;
    }
    acks
}

// The lists that a burst is lent: windows, and flags as bytes. Where nothing was written stand a window of 7 and a flag of 9.
#[derive(Clone, Copy, PartialEq)]
struct Lists {
    windows: [u32; 256],
    clipped: [u8; 256],
}

impl Lists {
    fn new() -> Lists {
        Lists {
            windows: [7; 256],
            clipped: [9; 256],
        }
    }

    // A window, and `c` after one that was clipped, `?` after one that was not written.
    fn place(&self, i: usize)
        requires { i < 256 }
    {
        say(b" ");
        number(u64::from(self.windows[i]));
        match self.clipped[i] {
            1 => say(b"c"),
            9 => say(b"?"),
            _ => {}
        }
    }

    // The places 0 to 3, 254 and 255.
    fn show(&self) {
        say(b":");
        for i in 0..4 {
            self.place(i);
        }
        say(b" ..");
        self.place(254);
        self.place(255);
    }
}

// What is seen of a run: how many acks it took, what stopped it, its window, what one more ack answers, and the lists.
#[derive(Clone, Copy, PartialEq)]
struct Outcome {
    taken: usize,
    stopped: Option<Refusal>,
    window: u32,
    next: Result<u32, Refusal>,
    lists: Lists,
}

impl Outcome {
    fn show(&self) {
        say(b"  taken ");
        number(self.taken as u64);
        say(b", stopped ");
        number(self.stopped.map_or(0, |r| u64::from(r.number())));
        say(b", window ");
        number(u64::from(self.window));
        self.lists.show();
    }
}

// A sender at work over a tree.
#[derive(Clone, Copy)]
struct Working {
    sender: Sender,
    tree: RuleTree,
}

impl Working {
    fn ack(self, x: Ack) -> Result<Held, Refusal> {
        self.sender
            .ack_received(self.tree, x.sent, x.received, x.draw)
    }

    fn outcome(self, ran: Ran, lists: Lists) -> Outcome {
        let left = Working {
            sender: ran.sender,
            ..self
        };
        Outcome {
            taken: ran.taken,
            stopped: ran.stopped,
            window: ran.sender.window,
            next: left.ack(ack(100.0, 100.5)).map(|held| held.window),
            lists,
        }
    }

    // The acks by single calls, up to the first that is refused.
    fn one_by_one(self, acks: &[Ack], lists: &mut Lists) -> Ran
        requires { length acks.now ≤ 256 }
    {
        let mut at = self;
        for (i, x) in acks.iter().enumerate() {
            match at.ack(*x) {
                Ok(held) => {
                    lists.windows[i] = held.window;
                    lists.clipped[i] = u8::from(held.clipped);
                    at.sender = held.sender;
                }
                Err(r) => {
                    return Ran {
                        sender: at.sender,
                        taken: i,
                        stopped: Some(r),
                    };
                }
            }
        }
        Ran {
            sender: at.sender,
            taken: acks.len(),
            stopped: None,
        }
    }

    // Whether the acks one by one do the same.
    fn as_singles(self, acks: &[Ack], outcome: Outcome) -> bool {
        let mut lists = Lists::new();
        acks.len() <= 256
            && {
                let ran = self.one_by_one(acks, &mut lists);
                self.outcome(ran, lists) == outcome
            }
    }

    // A burst into lists of these lengths.
    fn burst_into(self, acks: &[Ack], windows: usize, flags: usize)
        requires { (windows ≤ 256) × (flags ≤ 256) }
    {
        let mut lists = Lists::new();
        match self.sender.burst(
            self.tree,
            acks,
            &mut lists.windows[..windows],
            &mut lists.clipped[..flags],
        ) {
            Ok(ran) => {
                let outcome = self.outcome(ran, lists);
                outcome.show();
                if self.as_singles(acks, outcome) {
                    say(b", as one by one\n");
                } else {
                    say(b", NOT as one by one\n");
                }
            }
            Err(r) => {
                say(b"  ");
                refused(r);
                lists.show();
                say(b"\n");
            }
        }
    }

    // A burst with a place for each ack that one may have.
    fn burst(self, acks: &[Ack]) {
        self.burst_into(acks, 256, 256);
    }
}

fn start(title: &[u8], mode: RepeatMode, tree: RuleTree) -> Working {
    say(title);
    say(b"\n");
    let sender = sender::inner::memory::fresh(mode);
    Working { sender, tree }
}

fn lengths() -> Result<(), Refusal> {
    let s = start(b"0, 1, 255, 256 and 257 acks", RepeatMode::Off, adds(1)?);
    let acks = steady();
    for n in [0, 1, 255, 256, 257] {
        s.burst(&acks[..n]);
    }
    Ok(())
}

// An ack with no moment, and one that comes 700 s after the first, behind which another would be taken.
fn stops() -> Result<(), Refusal> {
    let s = start(
        b"five acks: stopped by 1 at the third, by 22 at the second, by 1 at the first",
        RepeatMode::Off,
        adds(1)?,
    );
    let nan = ack(0.0 / 0.0, 1.0);
    for (i, x) in [(2, nan), (1, ack(699.5, 700.5)), (0, nan)] {
        let mut acks = steady();
        acks[i] = x;
        s.burst(&acks[..5]);
    }
    Ok(())
}

// A draw of 1 serves the next two acks, so the fourth has one due.
fn draws() -> Result<(), Refusal> {
    let s = start(
        b"0..=2, draws 1, 9, 9 and none: stopped by 5 at the fourth",
        RepeatMode::Between(0, 2),
        adds(10)?,
    );
    let mut acks = steady();
    acks[0] = drawn(0.0, 0.5, 1);
    acks[1] = drawn(0.25, 0.75, 9);
    acks[2] = drawn(0.5, 1.0, 9);
    s.burst(&acks[..5]);
    acks[3] = drawn(0.75, 1.25, 1);
    s.burst(&acks[..5]);
    Ok(())
}

fn clips() -> Result<(), Refusal> {
    let s = start(
        b"600000 more each: the second is clipped; while a send stands",
        RepeatMode::Off,
        adds(600000)?,
    );
    let acks = steady();
    s.burst(&acks[..2]);
    let sender = s.sender.packet_sent(0.0)?.sender;
    Working { sender, ..s }.burst(&acks[..2]);
    Ok(())
}

// As many places as acks, one less in one list, one less in the other; over a tree of 65 splits.
fn short() -> Result<(), Refusal> {
    let tree = adds(1)?;
    let s = start(
        b"3 acks into 3 and 3 places, 2 and 3, 3 and 2; 2 and 2 over a tree that is none",
        RepeatMode::Off,
        tree,
    );
    let none = Working {
        tree: RuleTree { splits: 65, ..tree },
        ..s
    };
    let acks = steady();
    s.burst_into(&acks[..3], 3, 3);
    s.burst_into(&acks[..3], 2, 3);
    s.burst_into(&acks[..3], 3, 2);
    none.burst_into(&acks[..3], 2, 2);
    none.burst_into(&[], 0, 0);
    s.burst_into(&[], 0, 0);
    Ok(())
}

fn all() -> Result<(), Refusal> {
    lengths()?;
    stops()?;
    draws()?;
    clips()?;
    short()
}

fn main() {
    if let Err(r) = all() {
        refused(r);
        say(b"\n");
    }
}
