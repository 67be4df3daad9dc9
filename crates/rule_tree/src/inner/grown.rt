// A tree that passed the test for 10, and what may be asked of it.
ghost use Rattle.std.specs.Prelude.{◌≡◌, true, false, ◌<◌, ◌≤◌, length, MatchOption, MatchResult};
ghost use Rattle.refusal.specs.declared.Refusal.TheVariants.{NotGrown, NoLeaf, BadCounts};
ghost use Rattle.remy.specs.Cube.{root_of, contains_of};
ghost use Rattle.rule_tree.specs.Nodes.{node_count, children_of, slots, most_splits};
ghost use Rattle.rule_tree.specs.Grown.{grown_of};
ghost use Rattle.rule_tree.specs.Cubes.{cube_of};
ghost use Rattle.rule_tree.specs.Walk.{walk_of};
ghost use Rattle.rule_tree.specs.Counts.{counts_hold};
ghost use Rattle.rule_tree.specs.Change.{with_action};
ghost use Rattle.rule_tree.specs.Calls.{leaf_in, found_in, tally_of, counted_in};

use crate::inner::walk::Reached;
use crate::inner::{change, counts, cubes, links};
use crate::{MOST_COUNTED, RuleTree};
use refusal::Refusal;
use remy::action::Action;
use remy::cube::Cube;
use remy::point::Point;

#[derive(Clone, Copy)]
pub struct Grown<'a> {
    pub tree: &'a RuleTree,
    ghost grown: { grown_of tree.now ≡ true },
    ghost few: { tree.now.splits ≤ most_splits },
}

impl<'a> Grown<'a> {
    #[tactic(auto, using(crate::proofs::Links::grown_splits))]
    pub fn of(tree: &'a RuleTree) -> Result<Grown<'a>, Refusal>
        ensures { MatchResult result (λ g. g.tree.now ≡ tree.now) (λ e. (e ≡ NotGrown) × (grown_of tree.now ≡ false)) }
    {
        if links::grown(tree) {
            return Ok(Grown { tree });
        }
        Err(Refusal::NotGrown)
    }

    // Whether i names a leaf.
    #[tactic(auto, using(crate::proofs::Ways::leaf_fits))]
    pub fn leaf(self, i: u16) -> Result<(), Refusal>
        ensures { MatchResult result
            (λ _. (leaf_in self.entry.tree.now i ≡ true) × (i < slots))
            (λ e. (e ≡ NoLeaf) × (leaf_in self.entry.tree.now i ≡ false)) }
    {
        if change::is_leaf(self.tree, i) {
            return Ok(());
        }
        Err(Refusal::NoLeaf)
    }

    // Whether counts are one a node, none above 0 at a parent, and 2^53 in all at most.
    #[tactic(auto, using(crate::proofs::Ways::few_counts))]
    pub fn counts(self, counts: &[u64]) -> Result<(), Refusal>
        ensures { MatchResult result
            (λ _. (counts_hold self.entry.tree.now counts.now ≡ true) × (length counts.now ≤ slots))
            (λ e. (e ≡ BadCounts) × (counts_hold self.entry.tree.now counts.now ≡ false)) }
    {
        if counts::counts_hold(self.tree, counts) {
            return Ok(());
        }
        Err(Refusal::BadCounts)
    }

    // The cube of node i.
    pub fn domain(self, i: u16) -> Cube
        requires { i < slots }
        ensures { result ≡ cube_of self.entry.tree.now i }
    {
        let parents = cubes::split_nodes_of(self.tree);
        let root = Cube::root(self.tree.ends);
        cubes::cube_at(&parents, root, i)
    }

    // The leaf that p reaches and the cubes tested on the way, none where p is outside the box.
    #[tactic(auto, using(crate::proofs::Looking::reached_node))]
    fn reach(self, p: Point) -> Option<Reached>
        ensures { MatchOption result
            (contains_of (root_of self.entry.tree.now.ends) p ≡ false)
            (λ r. (contains_of (root_of self.entry.tree.now.ends) p ≡ true)
            × (r ≡ walk_of (children_of self.entry.tree.now.nodes) (root_of self.entry.tree.now.ends) p)
            × (r.node < node_count self.entry.tree.now.splits)) }
    {
        self.links().reach(p)
    }

    // What p finds with one leaf's action replaced.
    #[tactic(auto, using(crate::proofs::Looking::replaced_same, crate::proofs::Looking::replaced_other, crate::proofs::Looking::replaced_nothing, crate::proofs::Looking::leaf_slot))]
    pub fn found_replaced(self, leaf: u16, action: Action, p: Point) -> Option<Action>
        requires { leaf < slots }
        ensures { result ≡ found_in (with_action self.entry.tree.now leaf action) p }
    {
        let node = self.reach(p)?.node;
        if node == leaf {
            return Some(action);
        }
        let x = self.tree.nodes[node as usize];
        Some(x.action())
    }

    // One more for the leaf that p reaches: that leaf, or none outside the box.
    pub fn tallied(self, counts: &mut [u64], p: Point) -> Result<Option<u16>, Refusal>
        requires { counts_hold self.tree.now counts.old ≡ true }
        ensures { (result ≡ tally_of self.entry.tree.now counts.old p) × (counts.new ≡ counted_in counts.old (tally_of self.entry.tree.now counts.old p)) }
    {
        let Some(reached) = self.reach(p) else {
            return Ok(None);
        };
        if counts::capped_total(counts) == MOST_COUNTED {
            return Err(Refusal::FullTally);
        }
        counts[reached.node as usize] += 1;
        Ok(Some(reached.node))
    }
}
