// The leaf that a trainer is at.
ghost use Rattle.std.specs.Prelude.{◌≡◌, true, ◌<◌, ◌≤◌};
ghost use Rattle.remy.specs.Action.{valid_of};
ghost use Rattle.rule_tree.specs.Nodes.{slots, most_splits};
ghost use Rattle.rule_tree.specs.Grown.{grown_of};
ghost use Rattle.rule_tree.specs.Calls.{leaf_in};
ghost use Rattle.trainer.specs.Settings.{settings_hold};
ghost use Rattle.trainer.specs.State.{leaf_action};
ghost use Rattle.trainer.specs.Fields.{leaf_holds_in, action_at};

use crate::Trainer;
use crate::inner::list::Candidates;
use remy::action::Action;
use rule_tree::RuleTree;
use rule_tree::inner::change;

// Whether a number names an unmarked leaf.
#[tactic(auto, using(std::proofs::lemmas::Bool::Decides::nat_tests), unfolding(crate::specs::Fields::leaf_holds_in))]
pub fn unmarked_leaf(t: &RuleTree, leaf: u16) -> bool
    requires { t.now.splits ≤ most_splits }
    ensures { result ≡ leaf_holds_in t.now leaf }
{
    change::is_leaf(t, leaf) && !t.nodes[leaf as usize].optimized
}

pub fn action_at(t: &RuleTree, leaf: u16) -> Action
    requires { leaf < slots }
    ensures { result ≡ action_at t.now leaf }
{
    t.nodes[leaf as usize].action()
}

// A trainer at a leaf of a grown tree, by settings that hold.
#[derive(Clone, Copy)]
pub struct AtLeaf<'a> {
    pub trainer: &'a Trainer,
    ghost set: { settings_hold trainer.now.settings ≡ true },
    ghost grown: { grown_of trainer.now.tree ≡ true },
    ghost leaf: { leaf_in trainer.now.tree trainer.now.leaf ≡ true },
}

impl<'a> AtLeaf<'a> {
    #[tactic(auto, using(rule_tree::proofs::Ways::leaf_fits, crate::proofs::AcceptedFacts::valid_here))]
    pub fn action(self) -> Action
        ensures action { result ≡ leaf_action self.entry.trainer.now }
        ensures valid { valid_of result ≡ true }
    {
        action_at(&self.trainer.tree, self.trainer.leaf)
    }

    // The candidates of the leaf's action.
    pub fn candidates(self) -> Candidates<'a>
        ensures settings { result.settings.now ≡ self.entry.trainer.now.settings }
        ensures action { result.action ≡ leaf_action self.entry.trainer.now }
    {
        Candidates {
            settings: &self.trainer.settings,
            action: self.action(),
        }
    }
}
