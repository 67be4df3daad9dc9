// The cubes of a tree's nodes, each computed once, and the leaves whose cubes the ranges meet. What these functions require, the public call has tested.
ghost use Rattle.std.specs.Prelude.{◌≡◌, ◌&&◌, ◌==◌, ◌≤◌};
ghost use Rattle.rule_tree.specs.Nodes.{slots, node_count};
ghost use Rattle.rule_tree.specs.Cubes.{Before, cube_at, cube_of};
ghost use Rattle.ranges.specs.Ranges.{reachable, leaves_within};
ghost use Rattle.ranges.specs.Cubes.{CubesAre};

use crate::Ranges;
use arrayvec::ArrayVec;
use remy::cube::Cube;
use rule_tree::inner::cubes;
use rule_tree::inner::grown::Grown;
use rule_tree::{NODES, Node, SPLITS};

// The cubes of the first n nodes, each from its parent's, which comes before it. No `ArrayVec`: it fills its room with a default, and a cube has none.
fn cubes_from(parents: &[u16; SPLITS], root: Cube, n: u16) -> [Cube; NODES]
    requires { (n ≤ slots) × Before parents.now }
    ensures { CubesAre result n (λ i. cube_at i parents.now root i) }
{
    let mut out = [root; NODES];
    for i in 1..n {
        let parent = parents[usize::from((i - 1) / 8)];
        out[usize::from(i)] = out[usize::from(parent)].child((i - 1) % 8);
    }
    out
}

// The cubes of the nodes of a grown tree.
#[tactic(auto, using(rule_tree::proofs::Links::grown_low))]
fn cubes_of(t: Grown<'_>) -> [Cube; NODES]
    ensures { CubesAre result (node_count t.entry.tree.now.splits) (cube_of t.entry.tree.now) }
{
    let parents = cubes::split_nodes_of(t.tree);
    let root = Cube::root(t.tree.ends);
    cubes_from(&parents, root, 1 + 8 * t.tree.splits)
}

// A leaf whose cube the ranges meet.
fn reached(x: Node, c: Cube, r: Ranges) -> bool
    ensures { result ≡ (x.children == 0 && reachable c r) }
{
    x.children == 0 && r.reach(c)
}

// The leaves of a grown tree that some point within the ranges reaches.
#[tactic(auto, using(crate::proofs::Passing::one_more))]
pub fn found_in(t: Grown<'_>, r: Ranges) -> ArrayVec<u16, NODES>
    ensures { result.items ≡ leaves_within t.entry.tree.now r }
{
    let all = cubes_of(t);
    let mut leaves = ArrayVec::new();
    for i in 0..1 + 8 * t.tree.splits {
        if reached(t.tree.nodes[usize::from(i)], all[usize::from(i)], r) {
            leaves.push(i);
        }
    }
    leaves
}
