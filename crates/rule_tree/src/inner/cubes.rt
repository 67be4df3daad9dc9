// The cube of a node, computed from the splits.
ghost use Rattle.std.specs.Prelude.{◌≡◌, ◌<◌};
ghost use Rattle.rule_tree.specs.Nodes.{children_of, slots};
ghost use Rattle.rule_tree.specs.Cubes.{split_nodes, Before, cube_at};

use crate::inner::links;
use crate::{MOST_SPLITS, NODES, RuleTree, SPLITS};
use remy::cube::Cube;

// The node that each split made a parent, by any nodes' links.
pub fn split_nodes(children: &[u16; NODES]) -> [u16; SPLITS]
    ensures { result ≡ split_nodes children.now }
{
    let mut out = [0u16; SPLITS];
    for (i, x) in children.iter().enumerate() {
        let k = *x / 8;
        if *x % 8 == 1 && k < MOST_SPLITS {
            out[k as usize] = i as u16;
        }
    }
    out
}

// The same of a tree's links.
pub fn split_nodes_of(t: &RuleTree) -> [u16; SPLITS]
    ensures { result ≡ split_nodes (children_of t.now.nodes) }
{
    split_nodes(&links::children_of(t))
}

// The cube of node i: child (i - 1) % 8 of the node that its split made a parent. To compute every node's for it, as ranges does, is no plainer.
pub fn cube_at(parents: &[u16; SPLITS], root: Cube, i: u16) -> Cube
    requires { (i < slots) × Before parents.now }
    ensures { result ≡ cube_at i parents.now root i }
{
    if i == 0 {
        return root;
    }
    let k = ((i - 1) / 8) as usize;
    let parent = parents[k];
    cube_at(parents, root, parent).child((i - 1) % 8)
}
