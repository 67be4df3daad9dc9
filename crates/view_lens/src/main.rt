// Lookups through a view of the nodes that a tree uses, with one leaf's action replaced, and what is refused, printed.
#![tactic(auto)]

use refusal::Refusal;
use remy::action::Action;
use remy::point::Point;
use rule_tree::{AugmentedRuleTree, NODES, Node, RuleTree};

fn say(text: &[u8]) {
    io::write_all(1, text);
}

fn number(n: u64) {
    io::print_decimal(1, n);
}

fn refused(r: Refusal) {
    say(b"refused ");
    number(u64::from(r.number()));
}

// An action by its increment, which is what it makes of the window 0.
// shapes shows its answers much alike: a crate that the two programs share would hold little but this.
fn show(r: Result<Option<Action>, Refusal>) {
    match r {
        Ok(Some(a)) => {
            say(b"action ");
            number(u64::from(a.apply_to(0)));
        }
        Ok(None) => say(b"nothing"),
        Err(e) => refused(e),
    }
    say(b"\n");
}

// One leaf with these upper ends: 1 node.
fn boxed(ends: Point) -> Result<RuleTree, Refusal> {
    RuleTree::new(ends, Action::new(1.0, 7, 0.0))
}

// A tree with one leaf's action replaced, at a point that has a name.
fn look(with: AugmentedRuleTree, point: &[u8], p: Point) {
    say(point);
    say(b": ");
    show(rule_tree_view::looked_through(with.tree, with.leaf, with.action, p));
}

// With two splits a point in leaf 9, one in leaf 11, one in leaf 1 and one outside.
fn points(with: AugmentedRuleTree) {
    look(with, b"(0, 300, 0)", Point::new(0.0, 300.0, 0.0));
    look(with, b"(0, 450, 0)", Point::new(0.0, 450.0, 0.0));
    look(with, b"(0, 0, 0)", Point::new(0.0, 0.0, 0.0));
    look(with, b"(0, 0, 1000)", Point::new(0.0, 0.0, 1000.0));
}

fn refusals(tree: RuleTree, action: Action) {
    let p = Point::new(0.0, 300.0, 0.0);
    let bad = Action::new(0.0 / 0.0, 0, 0.0);
    let with = |leaf, action| AugmentedRuleTree { tree, leaf, action };
    look(with(3, action), b"in leaf 3, which is a parent", p);
    look(with(17, action), b"in leaf 17, which is no node", p);
    look(with(9, bad), b"in leaf 9, no action", p);
    look(with(3, bad), b"in leaf 3, no action", p);
}

// Nodes beside the upper ends of their box, with one leaf's action replaced.
#[derive(Clone, Copy)]
struct Lent {
    nodes: [Node; NODES],
    ends: Point,
    leaf: u16,
    action: Action,
}

impl Lent {
    fn of(with: AugmentedRuleTree) -> Lent {
        let tree = with.tree;
        let nodes = tree.nodes;
        Lent {
            nodes,
            ends: tree.ends,
            leaf: with.leaf,
            action: with.action,
        }
    }

    // The point (0, 0, 0) through the first nodes.
    fn look(self, nodes: usize) {
        let p = Point::new(0.0, 0.0, 0.0);
        show(rule_tree_view::looked_part(&self.nodes, nodes, self.ends, self.leaf, self.action, p));
    }

    fn part(self, nodes: usize) {
        number(nodes as u64);
        say(b" nodes: ");
        self.look(nodes);
    }

    fn lengths(self) {
        for nodes in [0, 1, 2, 8, 9, 10, 17, 513, 514] {
            self.part(nodes);
        }
    }

    // What the last node that is lent holds, and the first that is not.
    fn payloads(self) {
        let none = Node::new(Action::new(0.0 / 0.0, 0, 0.0), 0, false);
        let mut wrong = self;
        wrong.nodes[8] = none;
        say(b"the last node's action is none: ");
        wrong.part(9);
        let mut beyond = self;
        beyond.nodes[9] = none;
        say(b"the action of a node that is not lent is none: ");
        beyond.part(9);
    }

    // The 9 nodes of one split with other upper ends.
    fn beside(self, x: f64, y: f64, z: f64) {
        let ends = Point::new(x, y, z);
        Lent { ends, ..self }.look(9);
    }

    fn refused_ends(self) {
        say(b"1, 1, 1: ");
        self.beside(1.0, 1.0, 1.0);
        say(b"1000000, 1000000, 1000000: ");
        self.beside(1000000.0, 1000000.0, 1000000.0);
        say(b"0.5, 1, 1: ");
        self.beside(0.5, 1.0, 1.0);
        say(b"1, 1000001, 1: ");
        self.beside(1.0, 1000001.0, 1.0);
        say(b"1, 1, NaN: ");
        self.beside(1.0, 1.0, 0.0 / 0.0);
        say(b"0.5, 1, 1, in leaf 0, which is a parent: ");
        Lent { leaf: 0, ..self }.beside(0.5, 1.0, 1.0);
    }
}

// One split of a box: a point of leaf 1, the middle, which is in leaf 8, and a point on an upper face.
fn other_ends(tree: RuleTree, action: Action, within: Point, middle: Point, face: Point) {
    let with = |leaf| AugmentedRuleTree { tree, leaf, action };
    look(with(1), b"in leaf 1", within);
    look(with(1), b"at the middle", middle);
    look(with(8), b"at the middle, in leaf 8", middle);
    look(with(1), b"on an upper face", face);
}

fn boxes(action: Action) -> Result<(), Refusal> {
    say(b"-- one split, action 9, ends 1, 1, 1\n");
    other_ends(
        boxed(Point::new(1.0, 1.0, 1.0))?.split(0)?,
        action,
        Point::new(0.25, 0.25, 0.25),
        Point::new(0.5, 0.5, 0.5),
        Point::new(0.0, 1.0, 0.0),
    );
    say(b"-- one split, action 9, ends 3.3, 7, 1000000\n");
    other_ends(
        boxed(Point::new(3.3, 7.0, 1000000.0))?.split(0)?,
        action,
        Point::new(1.6, 3.4, 499999.0),
        Point::new(1.65, 3.5, 500000.0),
        Point::new(3.3, 0.0, 0.0),
    );
    Ok(())
}

fn all() -> Result<(), Refusal> {
    let action = Action::new(1.0, 9, 0.0);
    let with = |tree, leaf| AugmentedRuleTree { tree, leaf, action };
    let leaf = boxed(Point::usual_ends())?;
    let one = leaf.split(0)?;
    let two = one.split(3)?;
    say(b"-- one leaf, action 9 in leaf 0\n");
    points(with(leaf, 0));
    say(b"-- one split, action 9 in leaf 3\n");
    points(with(one, 3));
    say(b"-- two splits, action 9 in leaf 9\n");
    points(with(two, 9));
    say(b"-- two splits, action 9 in leaf 1\n");
    points(with(two, 1));
    say(b"-- refused\n");
    refusals(two, action);
    say(b"-- parts of one leaf's array\n");
    Lent::of(with(leaf, 0)).lengths();
    say(b"-- parts of one split's array\n");
    let lent = Lent::of(with(one, 1));
    lent.lengths();
    lent.payloads();
    boxes(action)?;
    say(b"-- one split's nodes with ends beside them\n");
    lent.refused_ends();
    Ok(())
}

fn main() {
    if let Err(e) = all() {
        refused(e);
        say(b"\n");
    }
}
