// Rule trees of both shapes at their full size, a chain and a bush, and what the calls on trees answer at their edges, printed.
#![tactic(auto)]

ghost use Rattle.std.specs.Prelude.{◌≤◌};

use refusal::Refusal;
use remy::action::Action;
use remy::cube::Cube;
use remy::point::Point;
use rule_tree::{AugmentedRuleTree, NODES, Node, RuleTree};

fn say(text: &[u8]) {
    io::write_all(1, text);
}

fn end() {
    say(b"\n");
}

fn number(n: u64) {
    io::print_decimal(1, n);
}

fn bits(x: f64) {
    let b = floats::to_bits(x);
    io::print_hex(1, b, 16);
}

fn item(n: u64) {
    say(b" ");
    number(n);
}

// Numbers, each with a space before it.
fn list(xs: &[u64]) {
    for x in xs {
        item(*x);
    }
}

fn refused(r: Refusal) {
    say(b"refused ");
    number(u64::from(r.number()));
}

// ---- answers

// An answer as its own function shows it, or its refusal.
fn show<T, F: FnOnce(T)>(r: Result<T, Refusal>, shown: F)
    requires { F.IsAlwaysCallable shown }
{
    match r {
        Ok(x) => shown(x),
        Err(e) => refused(e),
    }
}

// The same, to the end of the line.
fn line<T, F: FnOnce(T)>(r: Result<T, Refusal>, shown: F)
    requires { F.IsAlwaysCallable shown }
{
    show(r, shown);
    end();
}

fn taken(_tree: RuleTree) {
    say(b"taken");
}

fn count(n: u32) {
    number(u64::from(n));
}

fn equality(equal: bool) {
    if equal {
        say(b"equal");
    } else {
        say(b"not equal");
    }
}

// A word and a number, or the word for none.
fn named_or(word: &[u8], n: Option<u32>, none: &[u8]) {
    match n {
        Some(n) => {
            say(word);
            count(n);
        }
        None => say(none),
    }
}

// An action by its increment, which is what it makes of the window 0.
fn found(action: Option<Action>) {
    named_or(b"action ", action.map(|a| a.apply_to(0)), b"nothing");
}

fn reached(leaf: Option<u16>) {
    named_or(b"leaf ", leaf.map(|i| u32::from(i)), b"nothing");
}

fn chosen(leaf: Option<u16>) {
    named_or(b"leaf ", leaf.map(|i| u32::from(i)), b"nobody");
}

fn show_ends(lo: f64, hi: f64) {
    say(b" ");
    bits(lo);
    say(b"..");
    bits(hi);
}

fn cube(c: Cube) {
    show_ends(c.min.ack_ewma.0, c.max.ack_ewma.0);
    show_ends(c.min.send_ewma.0, c.max.send_ewma.0);
    show_ends(c.min.rtt_ratio, c.max.rtt_ratio);
}

// ---- trees

fn action(n: i32) -> Action {
    Action::new(1.0, n, 0.0)
}

// One leaf.
fn fresh_in(ends: Point) -> Result<RuleTree, Refusal> {
    RuleTree::new(ends, action(7))
}

fn fresh() -> Result<RuleTree, Refusal> {
    fresh_in(Point::usual_ends())
}

// 64 splits: of node 0, then of every step-th node, but after the split with number low of that one's first child.
fn grow(start: RuleTree, step: u16, low: Option<u16>) -> Result<RuleTree, Refusal>
    requires { step ≤ 8 }
{
    let mut t = start;
    let mut leaf: u16 = 0;
    for k in 0..64 {
        t = t.split(leaf)?;
        leaf = if Some(k) == low {
            8 * k + 1
        } else {
            step * (k + 1)
        };
    }
    Ok(t)
}

// Every leaf of a root that was split once.
fn mark_eight(t: RuleTree) -> Result<RuleTree, Refusal> {
    (1..9).try_fold(t, RuleTree::mark_optimized)
}

// The tree with another node in one place.
fn with_node(mut t: RuleTree, i: usize, node: Node) -> RuleTree {
    if let Some(x) = t.nodes.get_mut(i) {
        *x = node;
    }
    t
}

// ---- lines

// The leaf that a point reaches, the action that it finds, and how many cubes were tested.
fn at(t: RuleTree, point: &[u8], p: Point) {
    say(point);
    say(b": ");
    let mut counts = [0u64; NODES];
    show(t.tally(&mut counts, p), reached);
    say(b", ");
    let opened = t.action(p);
    show(opened.found, found);
    say(b", tested ");
    count(opened.tested);
    end();
}

fn edges(t: RuleTree) {
    at(t, b"(0, 0, 0)", Point::new(0.0, 0.0, 0.0));
    at(t, b"(-0, -0, -0)", Point::new(-0.0, -0.0, -0.0));
    at(t, b"(300, 300, 500)", Point::new(300.0, 300.0, 500.0));
    let last = Point::new(599.9999999999999, 599.9999999999999, 999.9999999999999);
    at(t, b"the last floats below 600, 600 and 1000", last);
    at(t, b"(600, 0, 0)", Point::new(600.0, 0.0, 0.0));
    at(t, b"(0, 0, 1000)", Point::new(0.0, 0.0, 1000.0));
    at(t, b"(NaN, 0, 0)", Point::new(0.0 / 0.0, 0.0, 0.0));
}

fn cube_of(t: RuleTree, node: u16) {
    say(b"cube of node ");
    number(u64::from(node));
    say(b":");
    line(t.domain(node), cube);
}

// The parents of a tree value, or its refusal where no splits make it.
fn parents(t: RuleTree) {
    line(t.num_parents(), count);
}

fn full(t: RuleTree, last: u16) {
    say(b"parents: ");
    parents(t);
    say(b"split ");
    number(u64::from(last));
    say(b": ");
    line(t.split(last), taken);
    say(b"split 0: ");
    line(t.split(0), taken);
    say(b"split 513: ");
    line(t.split(513), taken);
}

// A tally at (0, 0, 500) and one at (0, 0, 1000), with the list before and after each.
fn tally(t: RuleTree, counts: &mut [u64]) {
    say(b"tally");
    list(counts);
    say(b": ");
    let p = Point::new(0.0, 0.0, 500.0);
    show(t.tally(counts, p), reached);
    say(b", then");
    list(counts);
    say(b"; outside ");
    let q = Point::new(0.0, 0.0, 1000.0);
    show(t.tally(counts, q), reached);
    say(b", then");
    list(counts);
    end();
}

fn tallies(t: RuleTree) {
    let mut five = [0u64, 5, 0, 5, 0, 0, 0, 0, 0];
    tally(t, &mut five);
    let mut most = [0u64, 9007199254740990, 0, 1, 0, 0, 0, 0, 0];
    tally(t, &mut most);
    tally(t, &mut most);
    let mut over = [0u64, 9007199254740992, 0, 1, 0, 0, 0, 0, 0];
    tally(t, &mut over);
    let mut twice = [
        0u64,
        9223372036854775808,
        0,
        9223372036854775808,
        0,
        0,
        0,
        0,
        0,
    ];
    tally(t, &mut twice);
    let mut parent = [1u64, 0, 0, 0, 0, 0, 0, 0, 0];
    tally(t, &mut parent);
    let mut long = [0u64; 10];
    tally(t, &mut long);
    let mut short = [0u64; 8];
    tally(t, &mut short);
}

// The most used leaf, the most used unmarked leaf, and how many are used.
fn used(t: RuleTree, counts: &[u64]) {
    say(b"used");
    list(counts);
    say(b": ");
    line(t.most_used_rule(counts), chosen);
    say(b"  unmarked: ");
    line(t.most_used_unoptimized_rule(counts), chosen);
    say(b"  above 0: ");
    line(t.num_used_rules(counts), count);
}

fn uses(t: RuleTree) -> Result<(), Refusal> {
    let five = [0u64, 5, 0, 5, 0, 0, 0, 0, 0];
    let none = [0u64; 9];
    let parent = [1u64, 0, 0, 0, 0, 0, 0, 0, 0];
    used(t, &five);
    used(t, &none);
    used(t, &parent);
    say(b"3 marked\n");
    let marked = t.mark_optimized(3)?;
    used(marked, &five);
    say(b"3 marked and set\n");
    used(marked.set_action(3, action(9))?, &five);
    say(b"3 marked and split\n");
    let more = [0u64; 17];
    used(marked.split(3)?, &more);
    say(b"all marked\n");
    let all = mark_eight(t)?;
    used(all, &five);
    say(b"all marks cleared\n");
    used(all.mark_all_unoptimized()?, &five);
    Ok(())
}

fn refusals(t: RuleTree) {
    let bad = Action::new(0.0 / 0.0, 0, 0.0);
    let good = action(9);
    say(b"new, no action: ");
    line(RuleTree::new(Point::usual_ends(), bad), taken);
    say(b"set 3: ");
    line(t.set_action(3, good), taken);
    say(b"set 3, no action: ");
    line(t.set_action(3, bad), taken);
    say(b"set 0, no action: ");
    line(t.set_action(0, bad), taken);
    say(b"set 9: ");
    line(t.set_action(9, good), taken);
    say(b"mark 0: ");
    line(t.mark_optimized(0), taken);
    say(b"split 0: ");
    line(t.split(0), taken);
    say(b"cube of node 9: ");
    line(t.domain(9), cube);
}

// The tree with one leaf's action replaced, at a point in leaf 3 and at one in leaf 1.
fn replaced(tree: RuleTree, leaf: u16, action: Action) {
    let with = AugmentedRuleTree { tree, leaf, action };
    number(u64::from(leaf));
    say(b": ");
    show(with.action(Point::new(0.0, 300.0, 0.0)), found);
    say(b", ");
    line(with.action(Point::new(0.0, 0.0, 0.0)), found);
}

fn replacements(t: RuleTree) {
    let good = action(9);
    for leaf in [3, 1, 8, 0] {
        say(b"replaced by action 9 in ");
        replaced(t, leaf, good);
    }
    let bad = Action::new(0.0 / 0.0, 0, 0.0);
    for leaf in [0, 8] {
        say(b"replaced by no action in ");
        replaced(t, leaf, bad);
    }
}

fn compare(a: RuleTree, b: RuleTree) {
    line(a.equals(b), equality);
}

fn comparisons(t: RuleTree) -> Result<(), Refusal> {
    say(b"splits 0 1 2 and 0 2 1: ");
    let a = t.split(1)?.split(2)?;
    let b = t.split(2)?.split(1)?;
    compare(a, b);
    say(b"one marked: ");
    compare(a, b.mark_optimized(5)?);
    let other = a.set_action(9, action(8))?;
    say(b"another action in leaf 9 and in leaf 9: ");
    compare(other, b.set_action(9, action(8))?);
    say(b"another action in leaf 9 and in leaf 17: ");
    compare(other, b.set_action(17, action(8))?);
    say(b"delays 0 and -0: ");
    let minus = Action::new(1.0, 7, -0.0);
    compare(t, t.set_action(3, minus)?);
    Ok(())
}

fn no_links(t: RuleTree) -> Result<(), Refusal> {
    let none = Action::new(0.0, 0, 0.0);
    let two = t.split(1)?;
    say(b"two splits: ");
    parents(two);
    say(b"two parents of the same eight: ");
    parents(with_node(two, 2, Node::new(none, 9, false)));
    say(b"a node is its own child: ");
    let without = with_node(two, 1, Node::new(action(7), 0, false));
    parents(with_node(without, 9, Node::new(none, 9, false)));
    say(b"a split that no node has: ");
    parents(RuleTree { splits: 2, ..t });
    say(b"65 splits: ");
    parents(RuleTree { splits: 65, ..t });
    Ok(())
}

fn no_payloads(t: RuleTree) {
    say(b"a slot past the last node holds an action: ");
    parents(with_node(t, 9, Node::new(action(7), 0, false)));
    say(b"a parent is marked: ");
    let none = Action::new(0.0, 0, 0.0);
    parents(with_node(t, 0, Node::new(none, 1, true)));
    say(b"a parent holds the delay -0: ");
    let minus = Action::new(0.0, 0, -0.0);
    parents(with_node(t, 0, Node::new(minus, 1, false)));
    say(b"a leaf's increment is too large: ");
    let large = action(1000001);
    parents(with_node(t, 3, Node::new(large, 0, false)));
    say(b"a parent's increment is too large: ");
    parents(with_node(t, 0, Node::new(large, 1, false)));
    say(b"other ends: ");
    let ends = Point::new(600.0, 600.0, 1001.0);
    parents(RuleTree { ends, ..t });
    say(b"an end that no box may have: ");
    let ends = Point::new(600.0, 600.0, 1000001.0);
    parents(RuleTree { ends, ..t });
}

// The number of splits, and what node 3 holds.
fn third(t: RuleTree) {
    say(b"splits");
    item(u64::from(t.splits));
    let x = t.nodes[3];
    if x.optimized {
        say(b", marked");
    } else {
        say(b", unmarked");
    }
    if x.window_increment == 9 {
        say(b", action 9\n");
    } else {
        say(b", another action\n");
    }
}

fn taken_back(t: RuleTree) -> Result<(), Refusal> {
    say(b"no split to take back: ");
    line(fresh()?.undo_split(), taken);
    say(b"taken back, 65 splits: ");
    line(RuleTree { splits: 65, ..t }.undo_split(), taken);
    say(b"leaf 3 with action 9, marked: ");
    let held = t.set_action(3, action(9))?.mark_optimized(3)?;
    third(held);
    say(b"split, its children given another: ");
    let grown = held.split(3)?.set_action(9, action(8))?;
    third(grown);
    say(b"all marks cleared and taken back: ");
    third(grown.mark_all_unoptimized()?.undo_split()?);
    say(b"and once more: ");
    parents(grown.undo_split()?.undo_split()?);
    Ok(())
}

fn large() -> Result<(), Refusal> {
    say(b"-- a chain\n");
    let chain = grow(fresh()?, 8, None)?.set_action(418, action(9))?;
    full(chain, 512);
    edges(chain);
    for node in [408, 416, 424, 432, 512] {
        cube_of(chain, node);
    }
    say(b"-- a bush\n");
    let bush = grow(fresh()?, 1, None)?.set_action(65, action(9))?;
    full(bush, 512);
    edges(bush);
    cube_of(bush, 0);
    cube_of(bush, 65);
    say(b"-- the two\n");
    say(b"chain and chain: ");
    compare(chain, chain);
    say(b"bush and bush: ");
    compare(bush, bush);
    say(b"chain and bush: ");
    compare(chain, bush);
    Ok(())
}

// The most cubes that a lookup tests. With the usual ends the last children grow empty, so that the first is once the deeper way.
fn deepest() -> Result<(), Refusal> {
    say(b"-- the deepest\n");
    let p = Point::new(599.9999999999914, 599.9999999999914, 999.9999999999857);
    at(grow(fresh()?, 8, Some(45))?, b"with the usual ends", p);
    let ends = Point::new(600.0000000000001, 600.0000000000001, 1000.0000000000001);
    at(
        grow(fresh_in(ends)?, 8, None)?,
        b"with ends of many digits",
        Point::usual_ends(),
    );
    Ok(())
}

fn all() -> Result<(), Refusal> {
    large()?;
    deepest()?;
    let t = fresh()?.split(0)?;
    say(b"-- one split\n");
    tallies(t);
    uses(t)?;
    refusals(t);
    replacements(t);
    comparisons(t)?;
    no_links(t)?;
    no_payloads(t);
    taken_back(t)
}

fn main() {
    if let Err(r) = all() {
        refused(r);
        end();
    }
}
