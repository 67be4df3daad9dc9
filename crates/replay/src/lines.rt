// What stands in a line: floats by their bits, and `-` for what is not there.
use quantities::{Time, TimeSpan};
use remy::action::{Action, Applied};
use remy::cube::Cube;
use remy::point::Point;
use rule_tree::Node;
use sender::{Repeat, Sender};
use std::fmt::{self, Display, Formatter, Write};
use trainer::Question;
use trainer::candidates::Candidate;
use xoshiro::State;

// A value as it stands in a line.
#[derive(Clone, Copy)]
pub(crate) struct Shown<T>(pub(crate) T);

// A value that may be missing.
#[derive(Clone, Copy)]
pub(crate) struct Maybe<T>(pub(crate) Option<T>);

// Numbers, each behind a space.
#[derive(Clone, Copy)]
pub(crate) struct Listed<'a, T>(pub(crate) &'a [T]);

// Bytes, two digits each.
#[derive(Clone, Copy)]
pub(crate) struct Hex<'a>(pub(crate) &'a [u8]);

impl<T: Display> Display for Maybe<T> {
    fn fmt<W: Write>(&self, f: &mut Formatter<W>) -> fmt::Result {
        match &self.0 {
            Some(x) => write!(f, "{x}"),
            None => f.write_str("-"),
        }
    }
}

impl<T: Display> Display for Listed<'_, T> {
    fn fmt<W: Write>(&self, f: &mut Formatter<W>) -> fmt::Result {
        for x in self.0 {
            write!(f, " {x}")?;
        }
        Ok(())
    }
}

impl Display for Hex<'_> {
    fn fmt<W: Write>(&self, f: &mut Formatter<W>) -> fmt::Result {
        for b in self.0 {
            write!(f, "{b:02x}")?;
        }
        Ok(())
    }
}

impl Display for Shown<f64> {
    fn fmt<W: Write>(&self, f: &mut Formatter<W>) -> fmt::Result {
        let bits = floats::to_bits(self.0);
        write!(f, "{bits:016x}")
    }
}

impl Display for Shown<TimeSpan> {
    fn fmt<W: Write>(&self, f: &mut Formatter<W>) -> fmt::Result {
        write!(f, "{}", Shown(self.0.0))
    }
}

impl Display for Shown<Time> {
    fn fmt<W: Write>(&self, f: &mut Formatter<W>) -> fmt::Result {
        write!(f, "{}", Shown(self.0.held()))
    }
}

impl Display for Shown<Action> {
    fn fmt<W: Write>(&self, f: &mut Formatter<W>) -> fmt::Result {
        let multiplier = Shown(self.0.window_multiplier);
        let increment = self.0.window_increment;
        let delay = Shown(self.0.intersend_delay);
        write!(f, "{multiplier} {increment} {delay}")
    }
}

impl Display for Shown<Point> {
    fn fmt<W: Write>(&self, f: &mut Formatter<W>) -> fmt::Result {
        let ack = Shown(self.0.ack_ewma);
        let send = Shown(self.0.send_ewma);
        let ratio = Shown(self.0.rtt_ratio);
        write!(f, "{ack} {send} {ratio}")
    }
}

impl Display for Shown<Cube> {
    fn fmt<W: Write>(&self, f: &mut Formatter<W>) -> fmt::Result {
        write!(f, "{} {}", Shown(self.0.min), Shown(self.0.max))
    }
}

// What the window rule gives, and 1 where it clipped.
impl Display for Shown<Applied> {
    fn fmt<W: Write>(&self, f: &mut Formatter<W>) -> fmt::Result {
        let Applied { window, clipped } = self.0;
        write!(f, "applied {window} {}", u8::from(clipped))
    }
}

// The generator's words, or that there is none.
impl Display for Shown<State> {
    fn fmt<W: Write>(&self, f: &mut Formatter<W>) -> fmt::Result {
        let s = self.0;
        if xoshiro::inner::zeros(s) {
            return f.write_str("state -");
        }
        write!(f, "state {} {} {} {}", s.s0, s.s1, s.s2, s.s3)
    }
}

impl Display for Shown<Question> {
    fn fmt<W: Write>(&self, f: &mut Formatter<W>) -> fmt::Result {
        match self.0 {
            Question::Counts(progress) => write!(f, "ask counts {}", Shown(progress)),
            Question::Score(leaf, action, progress) => {
                write!(f, "ask score {leaf} {} {}", Shown(action), Shown(progress))
            }
            Question::Done(progress) => write!(f, "done {}", Shown(progress)),
        }
    }
}

impl Display for Shown<Candidate> {
    fn fmt<W: Write>(&self, f: &mut Formatter<W>) -> fmt::Result {
        let Candidate { length, action } = self.0;
        write!(f, "candidates {length} {}", Maybe(action.map(Shown)))
    }
}

impl Display for Shown<Repeat> {
    fn fmt<W: Write>(&self, f: &mut Formatter<W>) -> fmt::Result {
        let Repeat { left, action } = self.0;
        write!(f, "{left} {}", Shown(action))
    }
}

// What the sender remembers of its acks, and what it paces itself by.
impl Display for Shown<Sender> {
    fn fmt<W: Write>(&self, f: &mut Formatter<W>) -> fmt::Result {
        let s = self.0;
        write!(
            f,
            "sender {} {} {} {} {} {} {} {} {} {}",
            Maybe(s.last_ack.map(Shown)),
            Maybe(s.last_ack_send.map(Shown)),
            Maybe(s.ack_ewma.map(Shown)),
            Maybe(s.send_ewma.map(Shown)),
            Maybe(s.rtt.map(|rtt| Shown(rtt.shortest))),
            Maybe(s.rtt.map(|rtt| Shown(rtt.current))),
            Maybe(s.next_change.map(Shown)),
            s.window,
            Shown(s.intersend_delay),
            Maybe(s.last_send.map(Shown)),
        )
    }
}

// A leaf, or a parent and its first child; its mark and its action.
impl Display for Shown<Node> {
    fn fmt<W: Write>(&self, f: &mut Formatter<W>) -> fmt::Result {
        let x = self.0;
        if x.children == 0 {
            f.write_str("leaf")?;
        } else {
            write!(f, "parent {}", x.children)?;
        }
        write!(f, " {} {}", u8::from(x.optimized), Shown(x.action()))
    }
}
