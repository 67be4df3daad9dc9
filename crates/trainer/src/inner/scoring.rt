// The steps on an answer with a score.
ghost use Rattle.std.specs.Prelude.{◌≡◌, true, ◌<◌, length};
ghost use Rattle.remy.specs.Action.{valid_of};
ghost use Rattle.rule_tree.specs.Nodes.{slots};
ghost use Rattle.trainer.specs.Candidates.{candidates_of};
ghost use Rattle.trainer.specs.State.{leaf_action};
ghost use Rattle.trainer.specs.Phases.{marked, try_from, after_last, tried, phase5};
ghost use Rattle.trainer.specs.Calls.{wants_score, score_step};
ghost use Rattle.trainer.specs.Fields.{action_at, keeps_in, Kept};

use crate::Trainer;
use crate::inner::accepted::Accepted;
use crate::inner::begin::Place;
use crate::inner::kept::{NONE, kept_of};
use crate::inner::leaf;
use crate::inner::leaf::AtLeaf;
use crate::inner::list::Candidates;
use crate::phase::Phase;
use rule_tree::RuleTree;
use rule_tree::inner::change;

impl<'a> Accepted<'a> {
    #[tactic(auto, using(std::proofs::lemmas::Bool::Decides::nat_tests, crate::proofs::AcceptedFacts::wanted_valid, crate::proofs::AcceptedFacts::try_listed, crate::proofs::AcceptedFacts::try_kept), unfolding(crate::specs::Phase::phase_of, crate::specs::Calls::score_step))]
    pub fn scored(self, x: f64) -> Trainer
        requires { wants_score self.trainer.now.phase ≡ true }
        ensures { result ≡ score_step self.entry.trainer.now x }
    {
        let at = self.at_leaf();
        match self.phase {
            Phase::Own => at.try_from(self.trainer.tree, x),
            _ => at.try_score(x),
        }
    }
}

// From here on kept and score are two fields of the saved record, handed on as they are: a struct of the two would be no plainer.
// host_answers takes the same steps on a small state: there a trainer a step, with its tree of 12 KB, is too slow.
// A score is kept if it is above best and no lower than the one kept.
#[tactic(auto, using(std::proofs::lemmas::Bool::Decides::nat_tests), unfolding(crate::specs::Fields::keeps_in, crate::specs::State::kept_of))]
pub fn keeps(best: f64, kept: u16, score: f64, x: f64) -> bool
    ensures { result ≡ keeps_in best kept score x }
{
    best < x && (kept_of(kept).is_none() || score <= x)
}

impl<'a> AtLeaf<'a> {
    // The leaf is tuned for this round.
    #[tactic(auto, using(rule_tree::proofs::Ways::leaf_fits))]
    fn marked(self, tree: RuleTree) -> Trainer
        ensures { result ≡ marked self.entry.trainer.now tree }
    {
        let t = self.trainer;
        let place = Place {
            settings: t.settings,
            tree: change::with_mark(tree, t.leaf),
            stage: t.stage,
            round: t.round,
        };
        place.stand_at(Phase::Choose)
    }

    // The candidates of the leaf's action in a tree from the first on, or a mark where there are none.
    #[tactic(auto, using(std::proofs::lemmas::Bool::Decides::nat_tests, rule_tree::proofs::Ways::leaf_fits), unfolding(crate::specs::Phases::try_from))]
    fn try_from(self, tree: RuleTree, best: f64) -> Trainer
        requires { valid_of (action_at tree self.trainer.now.leaf) ≡ true }
        ensures { result ≡ try_from self.entry.trainer.now tree best }
    {
        let t = self.trainer;
        let list = Candidates {
            settings: &t.settings,
            action: leaf::action_at(&tree, t.leaf),
        };
        if list.len() == 0 {
            return self.marked(tree);
        }
        Trainer {
            tree,
            phase: Phase::Try.number(),
            best,
            k: 0,
            kept: NONE,
            kept_score: 0.0,
            ..*t
        }
    }

    // After the last candidate: the one kept becomes the action, or the leaf is tuned.
    #[tactic(auto, using(std::proofs::lemmas::Bool::Decides::nat_tests, rule_tree::proofs::Ways::leaf_fits), unfolding(crate::specs::State::kept_of, crate::specs::Phases::after_last))]
    fn adopt(self, kept: u16, score: f64) -> Trainer
        requires { Kept self.trainer.now kept }
        ensures { result ≡ after_last self.entry.trainer.now kept score }
    {
        let t = self.trainer;
        match kept_of(kept) {
            None => self.marked(t.tree),
            Some(k) => {
                let c = self.candidates().at(k);
                self.try_from(change::with_action(t.tree, t.leaf, c), score)
            }
        }
    }

    // The next candidate, with what is kept so far.
    #[tactic(auto, using(std::proofs::lemmas::Bool::Decides::nat_tests, crate::proofs::CandidateLaws::candidates_few), unfolding(crate::specs::Phases::tried))]
    fn next_candidate(self, kept: u16, score: f64) -> Trainer
        requires listed { self.trainer.now.k < length (candidates_of self.trainer.now.settings (leaf_action self.trainer.now)) }
        requires kept { Kept self.trainer.now kept }
        ensures { result ≡ tried self.entry.trainer.now kept score }
    {
        let t = self.trainer;
        let k = t.k + 1;
        if u32::from(k) < self.candidates().len() {
            return Trainer {
                phase: Phase::Try.number(),
                k,
                kept,
                kept_score: score,
                ..*t
            };
        }
        self.adopt(kept, score)
    }

    // Phase 5: the score of candidate k.
    #[tactic(auto, using(std::proofs::lemmas::Bool::Decides::nat_tests), unfolding(crate::specs::Phases::phase5, crate::specs::Fields::keeps_in))]
    fn try_score(self, x: f64) -> Trainer
        requires listed { self.trainer.now.k < length (candidates_of self.trainer.now.settings (leaf_action self.trainer.now)) }
        requires kept { Kept self.trainer.now self.trainer.now.kept }
        ensures { result ≡ phase5 self.entry.trainer.now x }
    {
        let t = self.trainer;
        if keeps(t.best, t.kept, t.kept_score, x) {
            self.next_candidate(t.k, x)
        } else {
            self.next_candidate(t.kept, t.kept_score)
        }
    }
}
