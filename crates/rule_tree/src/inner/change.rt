// What changes a tree. Functions and no methods: by the project's rule the methods of RuleTree are public calls, which require nothing.
// A node's number is a u16 with a bound in the contract: a type of bounded numbers would want the bound of each new number proved as well.
ghost use Rattle.std.specs.Prelude.{◌≡◌, true, ◌+◌, ◌≤◌, ◌<◌, ltb};
ghost use Rattle.rule_tree.specs.Lists.{fill};
ghost use Rattle.rule_tree.specs.Nodes.{blank_node, node_count, slots, most_splits};
ghost use Rattle.rule_tree.specs.Change.{fresh_tree, with_nodes, with_action, with_mark, unmarked_node, without_marks, split_at_of, newest_parent, undone};
ghost use Rattle.rule_tree.specs.Calls.{leaf_in, blank_tree};

use crate::inner::cubes;
use crate::{NODES, Node, RuleTree};
use remy::action::Action;
use remy::point::Point;

pub fn is_node(t: &RuleTree, i: u16) -> bool
    ensures { result ≡ ltb i (node_count t.now.splits) }
{
    (i as u32) < 1 + 8 * (t.splits as u32)
}

pub fn is_leaf(t: &RuleTree, i: u16) -> bool
    requires { t.now.splits ≤ most_splits }
    ensures { result ≡ leaf_in t.now i }
{
    is_node(t, i) && t.nodes[i as usize].children == 0
}

// A slot that is not in use.
pub fn blank_node() -> Node
    ensures { result ≡ blank_node }
{
    let none = Action::new(0.0, 0, 0.0);
    Node::new(none, 0, false)
}

pub fn fresh(ends: Point, action: Action) -> RuleTree
    ensures { result ≡ fresh_tree ends action }
{
    let mut nodes = [blank_node(); NODES];
    nodes[0] = Node::new(action, 0, false);
    RuleTree {
        nodes,
        splits: 0,
        ends,
    }
}

// A tree whose box is empty: no point is in it, and the test refuses it.
pub fn blank() -> RuleTree
    ensures { result ≡ blank_tree }
{
    let ends = Point::new(0.0, 0.0, 0.0);
    let none = Action::new(0.0, 0, 0.0);
    fresh(ends, none)
}

pub fn with_action(mut t: RuleTree, i: u16, action: Action) -> RuleTree
    requires { i < slots }
    ensures { result ≡ with_action t i action }
{
    let x = t.nodes[i as usize];
    t.nodes[i as usize] = Node::new(action, x.children, x.optimized);
    t
}

pub fn with_mark(mut t: RuleTree, i: u16) -> RuleTree
    requires { i < slots }
    ensures { result ≡ with_mark t i }
{
    t.nodes[i as usize].optimized = true;
    t
}

#[tactic(auto, unfolding(crate::specs::Change::unmarked_node))]
fn unmarked(mut x: Node) -> Node
    ensures { result ≡ unmarked_node x }
{
    if x.children == 0 {
        x.optimized = false;
    }
    x
}

pub fn without_marks(mut t: RuleTree) -> RuleTree
    ensures { result ≡ without_marks t }
{
    for x in t.nodes.iter_mut() {
        *x = unmarked(*x);
    }
    t
}

// The eight nodes from a place on become x.
fn eight_filled(mut t: RuleTree, from: usize, x: Node) -> RuleTree
    requires { from + 8 ≤ slots }
    ensures { result ≡ with_nodes t (fill t.nodes from 8 x) }
{
    t.nodes[from..from + 8].fill(x);
    t
}

pub fn split_at(mut t: RuleTree, i: u16) -> RuleTree
    requires { (i < slots) × (t.splits < most_splits) }
    ensures { result ≡ split_at_of t i }
{
    let first = 8 * t.splits + 1;
    let child = Node::new(t.nodes[i as usize].action(), 0, false);
    t.nodes[i as usize].children = first;
    let mut grown = eight_filled(t, first as usize, child);
    grown.splits += 1;
    grown
}

// The node that the newest split made a parent.
#[tactic(auto, using(crate::proofs::ChangeWays::newest_is))]
fn newest_parent(t: &RuleTree) -> u16
    requires { (0 < t.now.splits) × (t.now.splits ≤ most_splits) }
    ensures { result ≡ newest_parent t.now }
{
    let parents = cubes::split_nodes_of(t);
    parents[(t.splits - 1) as usize]
}

pub fn undo(mut t: RuleTree) -> RuleTree
    requires { (0 < t.splits) × (t.splits ≤ most_splits) }
    ensures { result ≡ undone t }
{
    let blank = blank_node();
    let at = newest_parent(&t) as usize;
    t.nodes[at].children = 0;
    let first = 8 * (t.splits - 1) + 1;
    let mut before = eight_filled(t, first as usize, blank);
    before.splits -= 1;
    before
}
