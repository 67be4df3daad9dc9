// The even tree, grown by the calls, and the bounds of its 64 leaves: a row a line, the three lower ends and then the three upper ones.
#![tactic(auto)]

use refusal::Refusal;
use remy::action::Action;
use remy::cube::Cube;
use remy::point::Point;
use rule_tree::RuleTree;

// What this program prints with. Each has its own: a public function of a library has a contract that gives its answer, and printing has none.
fn say(text: &[u8]) {
    io::write_all(1, text);
}

// A bound, which is a whole number of 0 or more.
fn number(x: f64) {
    io::print_decimal(1, std::num::saturating_f64_to_u64(x));
}

fn ends(p: Point) {
    number(p.ack_ewma.0);
    say(b" ");
    number(p.send_ewma.0);
    say(b" ");
    number(p.rtt_ratio);
}

fn row(c: Cube) {
    ends(c.min);
    say(b" ");
    ends(c.max);
    say(b"\n");
}

// The root split, then nodes 1 to 8 in order.
fn grow() -> Result<RuleTree, Refusal> {
    let mut t = RuleTree::new(Point::usual_ends(), Action::new(1.0, 0, 0.0))?;
    for node in 0..9 {
        t = t.split(node)?;
    }
    Ok(t)
}

fn rows() -> Result<(), Refusal> {
    let t = grow()?;
    for node in 9..73 {
        row(t.domain(node)?);
    }
    Ok(())
}

fn main() {
    if let Err(refused) = rows() {
        say(b"refused ");
        io::print_decimal(1, refused.number() as u64);
        say(b"\n");
    }
}
