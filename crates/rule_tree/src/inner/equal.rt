// Equality of two trees.
ghost use Rattle.std.specs.Prelude.{◌≡◌, ◌<◌};
ghost use Rattle.rule_tree.specs.Nodes.{slots};
ghost use Rattle.rule_tree.specs.Equal.{node_equal, children_equal, trees_equal};

use crate::{MOST_NODES, NODES, Node, RuleTree};
use remy::cube::Cube;

// The first of the last eight nodes.
const LAST_EIGHT: u16 = MOST_NODES - 8;

// A node and a cube.
#[derive(Clone, Copy)]
struct Side {
    node: u16,
    cube: Cube,
}

// A node of one tree and a node of the other, each with its cube, down to a depth. No derive says this: marks don't count, and trees go by shape.
#[cycle(children_equal_node_equal)]
fn node_equal(a: &[Node; NODES], b: &[Node; NODES], x: Side, y: Side, depth: usize) -> bool
    requires { (x.node < slots) × (y.node < slots) }
    ensures { result ≡ node_equal depth a.now b.now x.node y.node x.cube y.cube }
{
    if depth == 0 || x.cube != y.cube {
        return false;
    }
    let p = a[x.node as usize];
    let q = b[y.node as usize];
    match (p.children, q.children) {
        (0, 0) => p.action() == q.action(),
        (0, _) => false,
        (_, 0) => false,
        (first, other) => {
            let below = Side {
                node: first,
                cube: x.cube,
            };
            let beside = Side {
                node: other,
                cube: y.cube,
            };
            children_equal(a, b, below, beside, depth - 1)
        }
    }
}

// The eight children from x.node on, of a parent with the cube x.cube, and those from y.node on, pair by pair.
// A child past the last node equals none.
#[cycle(children_equal_node_equal)]
fn children_equal(a: &[Node; NODES], b: &[Node; NODES], x: Side, y: Side, depth: usize) -> bool
    ensures { result ≡ children_equal depth a.now b.now x.node y.node x.cube y.cube }
{
    if x.node > LAST_EIGHT || y.node > LAST_EIGHT {
        return false;
    }
    for k in 0..8 {
        let p = Side {
            node: x.node + k,
            cube: x.cube.child(k),
        };
        let q = Side {
            node: y.node + k,
            cube: y.cube.child(k),
        };
        if !node_equal(a, b, p, q, depth) {
            return false;
        }
    }
    true
}

pub fn equal(a: &RuleTree, b: &RuleTree) -> bool
    ensures { result ≡ trees_equal a.now b.now }
{
    let x = Side {
        node: 0,
        cube: Cube::root(a.ends),
    };
    let y = Side {
        node: 0,
        cube: Cube::root(b.ends),
    };
    node_equal(&a.nodes, &b.nodes, x, y, NODES)
}
