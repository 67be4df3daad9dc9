// The rule tree: boxes of a sender's memory, with one action a leaf. Every public call tests the tree first.
#![tactic(auto)]

ghost use Rattle.std.specs.Prelude.{◌≡◌, false, true};
ghost use Rattle.rule_tree.specs.Nodes.{action_in, node_holding};
ghost use Rattle.rule_tree.specs.Grown.{grown_of};
ghost use Rattle.rule_tree.specs.Calls.{new_of, domain_of, opened_of, replaced_of, tally_of, counted_in, set_of, mark_of, clear_of, split_of, undo_of, parents_of, used_of, most_used_of, equal_of};

use crate::inner::grown::Grown;
use crate::inner::rules::Rules;
use quantities::TimeSpan;
use refusal::Refusal;
use remy::action::Action;
use remy::cube::Cube;
use remy::point::Point;

pub mod inner;

// The most splits of a tree, and the nodes that it then has: as lengths, and as numbers of a node's width.
pub const SPLITS: usize = 64;

pub const NODES: usize = 1 + 8 * SPLITS;

pub const MOST_SPLITS: u16 = SPLITS as u16;

pub const MOST_NODES: u16 = NODES as u16;

// The greatest total of counts.
pub const MOST_COUNTED: u64 = 1 << 53;

// A node: a leaf where children is 0, else a parent whose first child has that number.
// The fields of its action stand side by side with them, the widest first, so that a node takes 24 bytes; with an Option for children it would take 32.
#[derive(Clone, Copy)]
pub struct Node {
    pub window_multiplier: f64,
    pub intersend_delay: TimeSpan,
    pub window_increment: i32,
    pub children: u16,
    pub optimized: bool,
}

impl Node {
    pub fn new(action: Action, children: u16, optimized: bool) -> Node
        ensures { result ≡ node_holding action children optimized }
    {
        let intersend_delay = action.intersend_delay;
        Node {
            window_multiplier: action.window_multiplier,
            intersend_delay,
            window_increment: action.window_increment,
            children,
            optimized,
        }
    }

    pub fn action(self) -> Action
        ensures { result ≡ action_in self }
    {
        let intersend_delay = self.intersend_delay;
        Action {
            window_multiplier: self.window_multiplier,
            window_increment: self.window_increment,
            intersend_delay,
        }
    }
}

// The project's fixed memory: an array of nodes, of which 1 + 8 splits are in use. Children, and the parents that splits made, are named by number.
#[derive(Clone, Copy)]
pub struct RuleTree {
    pub nodes: [Node; NODES],
    pub splits: u16,
    pub ends: Point,
}

// What a lookup finds, none outside the box, and the number of cubes that it tested.
#[derive(Clone, Copy)]
pub struct Lookup {
    pub found: Result<Option<Action>, Refusal>,
    pub tested: u32,
}

// The tree with one leaf's action replaced.
#[derive(Clone, Copy)]
pub struct AugmentedRuleTree {
    pub tree: RuleTree,
    pub leaf: u16,
    pub action: Action,
}

impl AugmentedRuleTree {
    #[tactic(auto, unfolding(crate::specs::Calls::replaced_of))]
    pub fn action(self, p: Point) -> Result<Option<Action>, Refusal>
        ensures { result ≡ replaced_of self p }
    {
        let t = Grown::of(&self.tree)?;
        t.leaf(self.leaf)?;
        if !self.action.valid() {
            return Err(Refusal::NotAdmitted);
        }
        Ok(t.found_replaced(self.leaf, self.action, p))
    }
}

impl RuleTree {
    // One leaf, the root, with its upper ends and the action.
    #[tactic(auto, unfolding(crate::specs::Calls::new_of))]
    pub fn new(ends: Point, action: Action) -> Result<RuleTree, Refusal>
        ensures { result ≡ new_of ends action }
    {
        if !inner::links::ends_hold(ends) {
            return Err(Refusal::BadSettings);
        }
        if !action.valid() {
            return Err(Refusal::NotAdmitted);
        }
        Ok(inner::change::fresh(ends, action))
    }

    // Whether the tree is grown from the root leaf by splits and holds what a tree may hold.
    pub fn grown(self) -> bool
        ensures { result ≡ grown_of self }
    {
        inner::links::grown(&self)
    }

    // The cube of a node.
    #[tactic(auto, unfolding(crate::specs::Calls::domain_of))]
    pub fn domain(self, node: u16) -> Result<Cube, Refusal>
        ensures { result ≡ domain_of self node }
    {
        let t = Grown::of(&self)?;
        if !inner::change::is_node(&self, node) {
            return Err(Refusal::NoLeaf);
        }
        Ok(t.domain(node))
    }

    // The action of the leaf that holds p, and how many cubes were tested: the root, then children in order up to the one that holds p.
    #[tactic(auto, using(crate::proofs::Looking::opened_grown, crate::proofs::Looking::opened_refused))]
    pub fn action(self, p: Point) -> Lookup
        ensures { result ≡ opened_of self p }
    {
        match Grown::of(&self) {
            Ok(t) => Rules::of(t).opened(p),
            Err(refused) => Lookup {
                found: Err(refused),
                tested: 0,
            },
        }
    }

    // One more for the leaf that holds p: that leaf, or none outside the box.
    #[tactic(auto, unfolding(crate::specs::Calls::tally_of))]
    pub fn tally(self, counts: &mut [u64], p: Point) -> Result<Option<u16>, Refusal>
        ensures { (result ≡ tally_of self counts.old p) × (counts.new ≡ counted_in counts.old (tally_of self counts.old p)) }
    {
        let t = Grown::of(&self)?;
        t.counts(counts)?;
        t.tallied(counts, p)
    }

    #[tactic(auto, unfolding(crate::specs::Calls::set_of))]
    pub fn set_action(self, leaf: u16, action: Action) -> Result<RuleTree, Refusal>
        ensures { result ≡ set_of self leaf action }
    {
        Grown::of(&self)?.leaf(leaf)?;
        if !action.valid() {
            return Err(Refusal::NotAdmitted);
        }
        Ok(inner::change::with_action(self, leaf, action))
    }

    #[tactic(auto, unfolding(crate::specs::Calls::mark_of))]
    pub fn mark_optimized(self, leaf: u16) -> Result<RuleTree, Refusal>
        ensures { result ≡ mark_of self leaf }
    {
        Grown::of(&self)?.leaf(leaf)?;
        Ok(inner::change::with_mark(self, leaf))
    }

    #[tactic(auto, unfolding(crate::specs::Calls::clear_of))]
    pub fn mark_all_unoptimized(self) -> Result<RuleTree, Refusal>
        ensures { result ≡ clear_of self }
    {
        Grown::of(&self)?;
        Ok(inner::change::without_marks(self))
    }

    #[tactic(auto, unfolding(crate::specs::Calls::split_of))]
    pub fn split(self, leaf: u16) -> Result<RuleTree, Refusal>
        ensures { result ≡ split_of self leaf }
    {
        Grown::of(&self)?.leaf(leaf)?;
        if self.splits == MOST_SPLITS {
            return Err(Refusal::FullTree);
        }
        Ok(inner::change::split_at(self, leaf))
    }

    // The newest split taken back: its parent is a leaf again, with the action and mark that it had when split.
    #[tactic(auto, unfolding(crate::specs::Calls::undo_of))]
    pub fn undo_split(self) -> Result<RuleTree, Refusal>
        ensures { result ≡ undo_of self }
    {
        Grown::of(&self)?;
        if self.splits == 0 {
            return Err(Refusal::NoSplit);
        }
        Ok(inner::change::undo(self))
    }

    #[tactic(auto, unfolding(crate::specs::Calls::parents_of))]
    pub fn num_parents(self) -> Result<u32, Refusal>
        ensures { result ≡ parents_of self }
    {
        Grown::of(&self)?;
        Ok(inner::links::num_parents(&self))
    }

    #[tactic(auto, unfolding(crate::specs::Calls::used_of))]
    pub fn num_used_rules(self, counts: &[u64]) -> Result<u32, Refusal>
        ensures { result ≡ used_of self counts.now }
    {
        Grown::of(&self)?.counts(counts)?;
        Ok(inner::counts::used(counts))
    }

    // The leaf with the greatest count, none where no leaf is asked for.
    #[tactic(auto, unfolding(crate::specs::Calls::most_used_of))]
    fn most_used(self, counts: &[u64], unmarked: bool) -> Result<Option<u16>, Refusal>
        ensures { result ≡ most_used_of unmarked self counts.now }
    {
        Grown::of(&self)?.counts(counts)?;
        Ok(inner::counts::most_used(&self, counts, unmarked))
    }

    pub fn most_used_rule(self, counts: &[u64]) -> Result<Option<u16>, Refusal>
        ensures { result ≡ most_used_of false self counts.now }
    {
        self.most_used(counts, false)
    }

    pub fn most_used_unoptimized_rule(self, counts: &[u64]) -> Result<Option<u16>, Refusal>
        ensures { result ≡ most_used_of true self counts.now }
    {
        self.most_used(counts, true)
    }

    // Equal cubes and actions all the way down, marks left out. A call and no ==, since a tree that is not grown is refused.
    #[tactic(auto, unfolding(crate::specs::Calls::equal_of))]
    pub fn equals(self, other: RuleTree) -> Result<bool, Refusal>
        ensures { result ≡ equal_of self other }
    {
        Grown::of(&self)?;
        Grown::of(&other)?;
        Ok(inner::equal::equal(&self, &other))
    }
}
