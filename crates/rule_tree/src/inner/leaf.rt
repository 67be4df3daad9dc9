// The leaf that holds a point, by links that were gathered once.
ghost use Rattle.std.specs.Prelude.{◌≡◌, true, false, MatchOption};
ghost use Rattle.remy.specs.Cube.{root_of, contains_of};
ghost use Rattle.rule_tree.specs.Nodes.{children_of};
ghost use Rattle.rule_tree.specs.Walk.{walk_of};
ghost use Rattle.rule_tree.specs.Leaf.{Ready, leaf_holding};

use crate::NODES;
use crate::inner::grown::Grown;
use crate::inner::walk::Reached;
use crate::inner::{links, walk};
use remy::cube::Cube;
use remy::point::Point;

// What many lookups need of a tree, gathered once.
#[derive(Clone, Copy)]
pub struct Links {
    pub children: [u16; NODES],
    pub root: Cube,
    ghost ready: { Ready children root },
}

impl<'a> Grown<'a> {
    pub fn links(self) -> Links
        ensures { (result.children ≡ children_of self.entry.tree.now.nodes) × (result.root ≡ root_of self.entry.tree.now.ends) }
    {
        Links {
            children: links::children_of(self.tree),
            root: Cube::root(self.tree.ends),
        }
    }
}

impl Links {
    // The leaf that p reaches and the cubes tested on the way, none where p is outside the root's cube.
    pub fn reach(&self, p: Point) -> Option<Reached>
        ensures { MatchOption result
            (contains_of self.now.root p ≡ false)
            (λ r. (contains_of self.now.root p ≡ true) × (r ≡ walk_of self.now.children self.now.root p)) }
    {
        if self.root.contains(p) {
            return Some(walk::walk(&self.children, self.root, p));
        }
        None
    }

    // The leaf that holds p, none outside the root's cube.
    #[tactic(auto, unfolding(crate::specs::Leaf::leaf_holding))]
    pub fn leaf(&self, p: Point) -> Option<u16>
        ensures { result ≡ leaf_holding self.now.children self.now.root p }
    {
        Some(self.reach(p)?.node)
    }
}
