// The steps on an answer with counts, one function a phase.
ghost use Rattle.std.specs.Prelude.{◌≡◌, true, false, ◌&&◌, not, ◌<◌, ltb, eqb, MatchResult};
ghost use Rattle.refusal.specs.declared.Refusal.TheVariants.{BadCounts, FullTree};
ghost use Rattle.rule_tree.specs.Nodes.{slots, most_splits};
ghost use Rattle.rule_tree.specs.Counts.{counts_hold};
ghost use Rattle.trainer.specs.Phases.{most_used_in, chosen_leaf, split_most_used, phase1, phase2, next_round, tune_next, phase6};
ghost use Rattle.trainer.specs.Calls.{counts_step_of, answer_counts_of};

use crate::Trainer;
use crate::inner::accepted::Accepted;
use crate::inner::begin::Place;
use crate::phase::Phase;
use refusal::Refusal;
use rule_tree::inner::{change, counts};
use rule_tree::{MOST_SPLITS, RuleTree};

// An accepted trainer, with counts for its tree.
#[derive(Clone, Copy)]
pub struct Counting<'a> {
    pub asked: Accepted<'a>,
    pub counts: &'a [u64],
    ghost counts_hold: { counts_hold asked.trainer.now.tree counts.now ≡ true },
}

impl<'a> Accepted<'a> {
    #[tactic(auto, using(crate::proofs::AcceptedFacts::accepted_few))]
    pub fn counting(self, counts: &'a [u64]) -> Result<Counting<'a>, Refusal>
        ensures { MatchResult result
            (λ c. (c.asked.trainer.now ≡ self.entry.trainer.now) × (c.counts.now ≡ counts.now))
            (λ r. (r ≡ BadCounts) × (counts_hold self.entry.trainer.now.tree counts.now ≡ false)) }
    {
        if !counts::counts_hold(&self.trainer.tree, counts) {
            return Err(Refusal::BadCounts);
        }
        Ok(Counting {
            asked: self,
            counts,
        })
    }
}

// An answer with counts to any trainer, which is lent: by value it would be a copy of 12 KB more.
#[tactic(auto, using(std::proofs::lemmas::Bool::Decides::nat_tests), unfolding(crate::specs::Phase::phase_of, crate::specs::Calls::answer_counts_of))]
pub fn answered(t: &Trainer, counts: &[u64]) -> Result<Trainer, Refusal>
    ensures { result ≡ answer_counts_of t.now counts.now }
{
    let t = Accepted::of(t)?;
    if !t.phase.wants_counts() {
        return Err(Refusal::NotAsked);
    }
    t.counting(counts)?.counted()
}

// A leaf's share is 0 where its count is and the total is not.
fn no_share(count: u64, total: u64) -> bool
    ensures { result ≡ (eqb count 0 && not (eqb total 0)) }
{
    count == 0 && total != 0
}

impl<'a> Counting<'a> {
    #[tactic(auto, using(std::proofs::lemmas::Bool::Decides::nat_tests), unfolding(crate::specs::Phase::phase_of, crate::specs::Calls::counts_step_of))]
    pub fn counted(self) -> Result<Trainer, Refusal>
        ensures { result ≡ counts_step_of self.entry.asked.trainer.now self.entry.counts.now }
    {
        match self.asked.phase {
            Phase::Split => self.split_once(),
            Phase::Drill => self.split_again(),
            Phase::Choose => Ok(self.tune_next()),
            _ => Ok(self.finish()),
        }
    }

    // A grown tree has a leaf.
    #[tactic(auto, using(crate::proofs::AcceptedFacts::accepted_counts))]
    fn most_used_leaf(self) -> u16
        ensures leaf { result ≡ chosen_leaf (most_used_in self.entry.asked.trainer.now.tree self.entry.counts.now false) }
        ensures slot { result < slots }
    {
        counts::most_used(&self.asked.trainer.tree, self.counts, false).unwrap()
    }

    // Whether the tree has no room for a split.
    #[tactic(auto, using(std::proofs::lemmas::Bool::Decides::nat_tests))]
    fn is_full(self) -> bool
        ensures { result ≡ not (ltb self.entry.asked.trainer.now.tree.splits most_splits) }
    {
        self.asked.trainer.tree.splits >= MOST_SPLITS
    }

    // The tree with its most used leaf split. The tree itself, and no Result of it: each would be a copy of 12 KB more on the stack.
    fn split_most_used(self) -> RuleTree
        requires { ltb self.asked.trainer.now.tree.splits most_splits ≡ true }
        ensures { result ≡ split_most_used self.entry.asked.trainer.now.tree self.entry.counts.now }
    {
        change::split_at(self.asked.trainer.tree, self.most_used_leaf())
    }

    // Phase 1: split the most used, and go on splitting in a drill where at most one leaf was used.
    #[tactic(auto, using(std::proofs::lemmas::Bool::Decides::nat_tests, crate::proofs::AcceptedFacts::accepted_counts, crate::proofs::AcceptedFacts::accepted_stage), unfolding(crate::specs::Phases::phase1))]
    fn split_once(self) -> Result<Trainer, Refusal>
        ensures { result ≡ phase1 self.entry.asked.trainer.now self.entry.counts.now }
    {
        let t = self.asked.trainer;
        if self.is_full() {
            return Err(Refusal::FullTree);
        }
        let next = Place {
            settings: t.settings,
            tree: self.split_most_used(),
            stage: t.stage,
            round: 0,
        };
        Ok(if t.settings.drill_down && counts::used(self.counts) <= 1 {
            next.stand_at(Phase::Drill)
        } else {
            next.begin_round()
        })
    }

    // Phase 2: split until more than one leaf is used.
    #[tactic(auto, using(std::proofs::lemmas::Bool::Decides::nat_tests, crate::proofs::AcceptedFacts::accepted_counts, crate::proofs::AcceptedFacts::accepted_stage), unfolding(crate::specs::Phases::phase2))]
    fn split_again(self) -> Result<Trainer, Refusal>
        ensures { result ≡ phase2 self.entry.asked.trainer.now self.entry.counts.now }
    {
        let t = self.asked.trainer;
        if 1 < counts::used(self.counts) {
            let place = Place {
                round: 0,
                ..Place::of(t)
            };
            return Ok(place.begin_round());
        }
        if self.is_full() {
            return Err(Refusal::FullTree);
        }
        let more = Place {
            settings: t.settings,
            tree: self.split_most_used(),
            stage: t.stage,
            round: 0,
        };
        Ok(more.stand_at(Phase::Drill))
    }

    #[tactic(auto, using(crate::proofs::AcceptedFacts::accepted_stage, crate::proofs::AcceptedFacts::accepted_round))]
    fn next_round(self) -> Trainer
        ensures { result ≡ next_round self.entry.asked.trainer.now }
    {
        let t = self.asked.trainer;
        let next = Place {
            settings: t.settings,
            tree: change::without_marks(t.tree),
            stage: t.stage,
            round: t.round + 1,
        };
        next.begin_round()
    }

    // Phase 3: the most used unmarked leaf, or the next round.
    #[tactic(auto, using(std::proofs::lemmas::Bool::Decides::nat_tests, crate::proofs::AcceptedFacts::accepted_counts, crate::proofs::AcceptedFacts::counted_leaf), unfolding(crate::specs::Phases::tune_next))]
    fn tune_next(self) -> Trainer
        ensures { result ≡ tune_next self.entry.asked.trainer.now self.entry.counts.now (most_used_in self.entry.asked.trainer.now.tree self.entry.counts.now true) }
    {
        let t = self.asked.trainer;
        match counts::most_used(&t.tree, self.counts, true) {
            Some(i) if !no_share(self.counts[i as usize], counts::capped_total(self.counts)) => {
                Place::of(t).ask_leaf(i)
            }
            _ => self.next_round(),
        }
    }

    // Phase 6: done.
    fn finish(self) -> Trainer
        ensures { result ≡ phase6 self.entry.asked.trainer.now }
    {
        let place = Place {
            round: 0,
            ..Place::of(self.asked.trainer)
        };
        place.stand_at(Phase::Done)
    }
}
