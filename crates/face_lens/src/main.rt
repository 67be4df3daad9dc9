// One sender lent to the face call after call, beside the calls by value: what is answered, which fields
// changed, and whether both agree.
#![tactic(auto)]

mod lent;

use lent::Lent;
use refusal::Refusal;
use remy::action::Action;
use remy::point::Point;
use rule_tree::RuleTree;
use sender::inner::events::left_by;
use sender::{Held, RepeatMode, Sender};
use sender_face::Answer;

fn say(text: &[u8]) {
    io::write_all(1, text);
}

fn number(n: u32) {
    io::print_decimal(1, u64::from(n));
}

// A sender as it came to a call, as the face left it, and as the call by value did.
#[derive(Clone, Copy)]
struct Left {
    came: Sender,
    lent: Sender,
    by_value: Sender,
}

impl Left {
    // A field's name where the lent sender's differs from what came; whether the call by value left the same.
    fn field<T: PartialEq + Copy, F: Fn(Sender) -> T>(self, name: &[u8], pick: F) -> bool
        requires { F.IsAlwaysCallable pick }
    {
        let lent = pick(self.lent);
        if lent != pick(self.came) {
            say(name);
        }
        lent == pick(self.by_value)
    }

    // The names of the fields that changed; whether all are as by value.
    fn fields(self) -> bool {
        let same = [
            self.field(b" last_ack", |s| s.last_ack.map(|at| at.held())),
            self.field(b" last_ack_send", |s| s.last_ack_send.map(|at| at.held())),
            self.field(b" last_send", |s| s.last_send.map(|at| at.held())),
            self.field(b" ack_ewma", |s| s.ack_ewma),
            self.field(b" send_ewma", |s| s.send_ewma),
            self.field(b" shortest", |s| s.rtt.map(|rtt| rtt.shortest)),
            self.field(b" rtt", |s| s.rtt.map(|rtt| rtt.current)),
            self.field(b" next_change", |s| s.next_change.map(|r| r.left)),
            self.field(b" window", |s| s.window),
            self.field(b" intersend_delay", |s| s.intersend_delay),
        ];
        !same.contains(&false)
    }

    // The fields that changed, and whether all is as by value, the answer too.
    fn told(self, same_answer: bool) {
        say(b"; changed:");
        if self.fields() && same_answer {
            say(b"; as by value\n");
        } else {
            say(b"; NOT as by value\n");
        }
    }
}

fn refused(r: Refusal) {
    say(b"refused ");
    number(r.number());
}

fn answered(answer: Result<Answer, Refusal>) {
    match answer {
        Ok(answer) => {
            say(b"window ");
            number(answer.window);
            if answer.clipped {
                say(b", clipped");
            }
        }
        Err(r) => refused(r),
    }
}

// A sender at work: each call is made under a title on it and on a copy that is lent to the face, and what the face left is at work next.
#[derive(Clone, Copy)]
struct Working(Sender);

impl Working {
    // What the face answered and left, beside a reply by value.
    fn told(self, lent: Lent<Result<Answer, Refusal>>, reply: Result<Held, Refusal>) -> Working {
        answered(lent.answer);
        Left {
            came: self.0,
            lent: lent.sender,
            by_value: left_by(self.0, reply),
        }
        .told(lent.answer == reply.map(|held| Answer::from(held)));
        Working(lent.sender)
    }

    // An ack without a draw, over a tree.
    fn ack(self, title: &[u8], tree: RuleTree, sent: f64, received: f64) -> Working {
        say(title);
        let lent = lent::ack(self.0, tree, sent, received, None);
        self.told(lent, self.0.ack_received(tree, sent, received, None))
    }

    fn send(self, title: &[u8], at: f64) -> Working {
        say(title);
        self.told(lent::send(self.0, at), self.0.packet_sent(at))
    }

    fn tick(self, title: &[u8]) -> Working {
        say(title);
        let Held { sender, window, .. } = lent::tick(self.0);
        let held = self.0.tick();
        say(b"window ");
        number(window);
        Left {
            came: self.0,
            lent: sender,
            by_value: held.sender,
        }
        .told(window == held.window);
        Working(sender)
    }
}

// A tree of one leaf, whose action adds to the window and waits 0.25 s.
fn adds(increment: i32) -> Result<RuleTree, Refusal> {
    RuleTree::new(Point::usual_ends(), Action::new(1.0, increment, 0.25))
}

fn all() -> Result<(), Refusal> {
    let ten = adds(10)?;
    let less = adds(-41)?;
    let more = adds(999999)?;
    Working(Sender::new(RepeatMode::Always(0))?)
        .send(b"send at NaN: ", 0.0 / 0.0)
        .ack(b"ack at 1 s of what was sent at 0: ", ten, 0.0, 1.0)
        .send(b"send at 2 s: ", 2.0)
        .ack(b"ack at NaN: ", ten, 1.0, 0.0 / 0.0)
        .ack(
            b"ack at 2.5 s, by the repeat, while the send stands: ",
            ten,
            1.0,
            2.5,
        )
        .tick(b"tick: ")
        .ack(b"ack at 3 s of what was sent at 3 s: ", ten, 3.0, 3.0)
        .ack(b"ack at 3 s of what was sent at 2 s: ", ten, 2.0, 3.0)
        .send(b"send just below 0: ", -0.000001)
        .tick(b"tick: ")
        .ack(b"ack at 4 s, by the repeat: ", ten, 3.0, 4.0)
        .ack(b"ack at 5 s, 41 less: ", less, 4.0, 5.0)
        .ack(b"ack at 6 s, 41 less by the repeat: ", ten, 5.0, 6.0)
        .ack(b"ack at 7 s, 999,999 more: ", more, 6.0, 7.0)
        .send(b"send at 7 s: ", 7.0)
        .ack(
            b"ack at 8 s, 999,999 more by the repeat, while the send stands: ",
            ten,
            7.0,
            8.0,
        );
    Ok(())
}

fn main() {
    if let Err(r) = all() {
        refused(r);
        say(b"\n");
    }
}
