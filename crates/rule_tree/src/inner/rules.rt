// Lookups of many points in a tree that passed the test for 10.
ghost use Rattle.std.specs.Prelude.{◌≡◌};
ghost use Rattle.remy.specs.Cube.{root_of};
ghost use Rattle.rule_tree.specs.Nodes.{children_of};
ghost use Rattle.rule_tree.specs.Calls.{found_in, opened_in};

use crate::Lookup;
use crate::inner::grown::Grown;
use crate::inner::leaf::Links;
use remy::action::Action;
use remy::point::Point;

// A grown tree whose links are gathered once, so that each lookup reads one node.
#[derive(Clone, Copy)]
pub struct Rules<'a> {
    pub grown: Grown<'a>,
    pub links: Links,
    ghost gathered: { (links.children ≡ children_of grown.tree.now.nodes) × (links.root ≡ root_of grown.tree.now.ends) },
}

impl<'a> Rules<'a> {
    pub fn of(grown: Grown<'a>) -> Rules<'a>
        ensures { result.grown.tree.now ≡ grown.entry.tree.now }
    {
        Rules {
            grown,
            links: grown.links(),
        }
    }

    // The action of the leaf that holds a point, none outside the box.
    #[tactic(auto, using(crate::proofs::Finding::nothing, crate::proofs::Finding::found, crate::proofs::Leaf::leaf_below))]
    pub fn find(&self, p: Point) -> Option<Action>
        ensures { result ≡ found_in self.now.grown.tree.now p }
    {
        let node = self.links.leaf(p)?;
        Some(self.grown.tree.nodes[node as usize].action())
    }

    // What a point finds, and how many cubes are tested for it: the root's alone for a point outside.
    #[tactic(auto, using(crate::proofs::Looking::open_found, crate::proofs::Looking::open_nothing, crate::proofs::Leaf::reached_slot))]
    pub fn opened(&self, p: Point) -> Lookup
        ensures { result ≡ opened_in self.now.grown.tree.now p }
    {
        let Some(reached) = self.links.reach(p) else {
            return Lookup {
                found: Ok(None),
                tested: 1,
            };
        };
        let x = self.grown.tree.nodes[reached.node as usize];
        Lookup {
            found: Ok(Some(x.action())),
            tested: reached.tested,
        }
    }
}
