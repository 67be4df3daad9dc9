// The leaves that ranges reach in a tree whose root was split, in two of 60 splits at a corner, and what is refused, printed.
#![tactic(auto)]

ghost use Rattle.std.specs.Prelude.{◌≤◌};

use ranges::{Range, Ranges};
use refusal::Refusal;
use remy::action::Action;
use remy::point::Point;
use rule_tree::RuleTree;

// What this program prints with. Each has its own: a public function of a library has a contract that gives its answer, and printing has none.
fn say(text: &[u8]) {
    io::write_all(1, text);
}

fn number(n: u64) {
    io::print_decimal(1, n);
}

fn item(n: u16) {
    say(b" ");
    number(u64::from(n));
}

// Numbers, each with a space before it.
fn show_list(list: &[u16]) {
    for n in list {
        item(*n);
    }
}

fn show(found: Result<u16, Refusal>) {
    match found {
        Ok(n) => {
            say(b"leaves ");
            number(u64::from(n));
        }
        Err(r) => {
            say(b"refused ");
            number(u64::from(r.number()));
        }
    }
    say(b":");
}

// A range and ranges by their parts: literals of them would take ten lines at a call.
fn range(lowest: f64, highest: f64) -> Range {
    Range { lowest, highest }
}

fn ranges_of(ack_ewma: Range, send_ewma: Range, rtt_ratio: Range) -> Ranges {
    Ranges {
        ack_ewma,
        send_ewma,
        rtt_ratio,
    }
}

// With a lent list: what is answered, and the whole list after it.
fn look_in(t: RuleTree, r: Ranges, list: &mut [u16]) {
    show(ranges::leaves_within(t, r, list));
    show_list(list);
    say(b"\n");
}

fn look(t: RuleTree, r: Ranges) {
    look_in(t, r, &mut [999; 12]);
}

fn look_short(t: RuleTree, r: Ranges) {
    look_in(t, r, &mut [999; 7]);
}

fn at(t: RuleTree, ack: f64, send: f64, ratio: f64) {
    look(
        t,
        ranges_of(range(ack, ack), range(send, send), range(ratio, ratio)),
    );
}

// One leaf with these upper ends.
fn boxed(ends: Point) -> Result<RuleTree, Refusal> {
    RuleTree::new(ends, Action::new(1.0, 7, 0.0))
}

// 60 splits: of node 0, then of its child with this number, then of that one's, and so on.
fn deep(ends: Point, child: u16) -> Result<RuleTree, Refusal>
    requires { child ≤ 8 }
{
    let mut t = boxed(ends)?;
    let mut leaf: u16 = 0;
    for k in 0..60 {
        t = t.split(leaf)?;
        leaf = child + 8 * k;
    }
    Ok(t)
}

fn equal_ends(t: RuleTree) {
    say(b"(0, 0, 0): ");
    at(t, 0.0, 0.0, 0.0);
    say(b"(-0, -0, -0): ");
    at(t, -0.0, -0.0, -0.0);
    say(b"(300, 300, 500): ");
    at(t, 300.0, 300.0, 500.0);
    say(b"(299, 300, 999): ");
    at(t, 299.0, 300.0, 999.0);
    say(b"(600, 0, 0): ");
    at(t, 600.0, 0.0, 0.0);
    say(b"(-1, 0, 0): ");
    at(t, -1.0, 0.0, 0.0);
}

fn edges(t: RuleTree) {
    let all = range(-1.0 / 0.0, 1.0 / 0.0);
    let zero = range(0.0, 0.0);
    say(b"acks up to 300: ");
    look(t, ranges_of(range(0.0, 300.0), zero, zero));
    say(b"acks up to 299: ");
    look(t, ranges_of(range(0.0, 299.0), zero, zero));
    say(b"acks from 300: ");
    look(t, ranges_of(range(300.0, 1.0 / 0.0), zero, zero));
    say(b"acks from 600: ");
    look(t, ranges_of(range(600.0, 1.0 / 0.0), all, all));
    say(b"acks up to -0: ");
    look(t, ranges_of(range(-1.0 / 0.0, -0.0), zero, zero));
    say(b"acks below 0: ");
    look(t, ranges_of(range(-2.0, -1.0), all, all));
    say(b"inside one leaf, no corner of it: ");
    look(
        t,
        ranges_of(range(10.0, 20.0), range(310.0, 320.0), range(600.0, 700.0)),
    );
    say(b"over a middle on each axis: ");
    look(
        t,
        ranges_of(
            range(299.0, 301.0),
            range(299.0, 301.0),
            range(499.0, 501.0),
        ),
    );
    say(b"sends over their middle alone: ");
    look(
        t,
        ranges_of(range(1.0, 2.0), range(299.0, 301.0), range(600.0, 601.0)),
    );
}

fn refusals(t: RuleTree) {
    let all = range(-1.0 / 0.0, 1.0 / 0.0);
    let nan = 0.0 / 0.0;
    say(b"all of it, seven places: ");
    look_short(t, ranges_of(all, all, all));
    say(b"four leaves, seven places: ");
    look_short(t, ranges_of(all, all, range(0.0, 1.0)));
    say(b"a NaN, seven places: ");
    look_short(t, ranges_of(all, all, range(nan, 1.0)));
    say(b"a NaN above: ");
    look(t, ranges_of(range(0.0, nan), all, all));
    say(b"2 to 1: ");
    look(t, ranges_of(all, range(2.0, 1.0), all));
    say(b"0 to -0: ");
    look(
        t,
        ranges_of(range(0.0, -0.0), range(0.0, 0.0), range(0.0, 0.0)),
    );
    let mut bad = t;
    bad.splits = 65;
    say(b"no tree, 2 to 1: ");
    look(bad, ranges_of(all, range(2.0, 1.0), all));
}

fn show_all() -> Result<(), Refusal> {
    let all = range(-1.0 / 0.0, 1.0 / 0.0);
    let leaf = boxed(Point::usual_ends())?;
    let one = leaf.split(0)?;
    say(b"-- one leaf\n");
    look(leaf, ranges_of(all, all, all));
    at(leaf, 600.0, 0.0, 0.0);
    say(b"-- the root split, all of it\n");
    look(one, ranges_of(all, all, all));
    say(b"-- equal ends\n");
    equal_ends(one);
    say(b"-- edges\n");
    edges(one);
    say(b"-- refused\n");
    refusals(one);
    say(b"-- 60 splits at 0, ends 1: all up to 2^-60, and at 0\n");
    let low = deep(Point::new(1.0, 1.0, 1.0), 1)?;
    let tiny = range(0.0, 1.0 / 1152921504606846976.0);
    look(low, ranges_of(tiny, tiny, tiny));
    at(low, 0.0, 0.0, 0.0);
    say(
        b"-- 60 splits at the upper ends 1, the later ones of empty cubes: from 1 - 2^-53, from 1 - 2^-52, and at 1 - 2^-53\n",
    );
    let high = deep(Point::new(1.0, 1.0, 1.0), 8)?;
    let last = range(0.9999999999999999, 2.0);
    look(high, ranges_of(last, last, last));
    let more = range(0.9999999999999998, 2.0);
    look(high, ranges_of(more, more, more));
    at(
        high,
        0.9999999999999999,
        0.9999999999999999,
        0.9999999999999999,
    );
    Ok(())
}

fn main() {
    if let Err(refused) = show_all() {
        say(b"refused ");
        io::print_decimal(1, u64::from(refused.number()));
        say(b"\n");
    }
}
