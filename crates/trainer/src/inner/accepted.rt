// The test of a trainer: what the record's rules accept.
ghost use Rattle.std.specs.Prelude.{◌≡◌, true, false, ◌&&◌, ◌≤◌, Some, MatchResult};
ghost use Rattle.refusal.specs.declared.Refusal.TheVariants.{NotGrown};
ghost use Rattle.rule_tree.specs.Nodes.{most_splits};
ghost use Rattle.rule_tree.specs.Grown.{grown_of};
ghost use Rattle.trainer.specs.Phase.{phase_of};
ghost use Rattle.trainer.specs.Settings.{settings_hold};
ghost use Rattle.trainer.specs.Calls.{wants_score};
ghost use Rattle.trainer.specs.State.{zero_bits_of, untried, idle, leaf_holds, kept_holds, try_holds_of, splitting, tuning, ending, phase_holds, accepted_of};

use crate::Trainer;
use crate::inner::kept::kept_of;
use crate::inner::leaf;
use crate::inner::leaf::AtLeaf;
use crate::phase::Phase;
use refusal::Refusal;
use rule_tree::inner::links;

// By bits: -0 equals 0 by `==`, and the record takes +0 alone.
fn zero_bits(x: f64) -> bool
    ensures { result ≡ zero_bits_of x }
{
    floats::to_bits(x) == 0
}

// No candidate was tried: best, k, kept and its score are those of no phase but 5.
#[tactic(auto, using(std::proofs::lemmas::Bool::Decides::nat_tests), unfolding(crate::specs::State::untried_in, crate::specs::State::kept_of))]
fn untried(t: &Trainer) -> bool
    ensures { result ≡ untried t.now }
{
    zero_bits(t.best) && t.k == 0 && kept_of(t.kept).is_none() && zero_bits(t.kept_score)
}

fn idle(t: &Trainer) -> bool
    ensures { result ≡ idle t.now }
{
    t.leaf == 0 && untried(t)
}

// What is kept is below k, with a score above best.
#[tactic(auto, using(std::proofs::lemmas::Bool::Decides::nat_tests), unfolding(crate::specs::State::kept_in, crate::specs::State::kept_of))]
fn kept_holds(t: &Trainer) -> bool
    ensures { result ≡ kept_holds t.now }
{
    match kept_of(t.kept) {
        None => zero_bits(t.kept_score),
        Some(kept) => kept < t.k && t.best < t.kept_score,
    }
}

// Phases 1 and 2.
#[tactic(auto, using(std::proofs::lemmas::Bool::Decides::nat_tests), unfolding(crate::specs::State::splitting))]
fn splits_now(t: &Trainer) -> bool
    ensures { result ≡ splitting t.now }
{
    1 <= t.stage && t.stage <= t.settings.rule_splits && t.round == 0 && idle(t)
}

// Phases 3 to 5.
#[tactic(auto, using(std::proofs::lemmas::Bool::Decides::nat_tests), unfolding(crate::specs::State::tuning))]
fn tunes_now(t: &Trainer) -> bool
    ensures { result ≡ tuning t.now }
{
    t.stage <= t.settings.rule_splits && t.round < t.settings.optimization_rounds_per_split
}

// Phases 6 and 7.
#[tactic(auto, using(std::proofs::lemmas::Bool::Decides::nat_tests), unfolding(crate::specs::State::ending))]
fn ends_now(t: &Trainer) -> bool
    ensures { result ≡ ending t.now }
{
    u64::from(t.stage) == u64::from(t.settings.rule_splits) + 1 && t.round == 0 && idle(t)
}

// In phase 5: candidate k is in the list, and what is kept is below it.
#[tactic(auto, using(std::proofs::lemmas::Bool::Decides::nat_tests), unfolding(crate::specs::State::try_holds_of))]
fn try_holds(at: AtLeaf) -> bool
    ensures { result ≡ try_holds_of at.entry.trainer.now }
{
    u32::from(at.trainer.k) < at.candidates().len() && kept_holds(at.trainer)
}

// In phases 4 and 5: a round of tuning, at an unmarked leaf.
#[tactic(auto, using(std::proofs::lemmas::Bool::Decides::nat_tests, crate::proofs::AcceptWays::leaf_is))]
fn tunes_leaf(t: &Trainer) -> bool
    requires { t.now.tree.splits ≤ most_splits }
    ensures { result ≡ (tuning t.now && leaf_holds t.now) }
{
    tunes_now(t) && leaf::unmarked_leaf(&t.tree, t.leaf)
}

#[tactic(auto, using(std::proofs::lemmas::Bool::Decides::nat_tests, rule_tree::proofs::Links::grown_splits), unfolding(crate::specs::Phase::phase_of, crate::specs::State::phase_holds, crate::specs::State::leaf_holds))]
fn phase_holds(t: &Trainer) -> bool
    requires settings { settings_hold t.now.settings ≡ true }
    requires grown { grown_of t.now.tree ≡ true }
    ensures { result ≡ phase_holds t.now }
{
    match Phase::of(t.phase) {
        Some(Phase::Split | Phase::Drill) => splits_now(t),
        Some(Phase::Choose) => tunes_now(t) && idle(t),
        Some(Phase::Own) => tunes_leaf(t) && untried(t),
        Some(Phase::Try) => tunes_leaf(t) && try_holds(AtLeaf { trainer: t }),
        Some(Phase::Last | Phase::Done) => ends_now(t),
        None => false,
    }
}

#[tactic(auto, using(std::proofs::lemmas::Bool::Decides::nat_tests, remy::proofs::Equality::points_equal), unfolding(crate::specs::State::accepted_of, crate::specs::State::box_holds))]
pub fn holds(t: &Trainer) -> bool
    ensures { result ≡ accepted_of t.now }
{
    t.settings.hold() && links::grown(&t.tree) && t.tree.ends == t.settings.ends && phase_holds(t)
}

// A trainer that passed the test, and its phase.
#[derive(Clone, Copy)]
pub struct Accepted<'a> {
    pub trainer: &'a Trainer,
    pub phase: Phase,
    ghost accepted: { accepted_of trainer.now ≡ true },
    ghost named: { phase_of trainer.now.phase ≡ Some phase },
}

impl<'a> Accepted<'a> {
    #[tactic(auto, using(std::proofs::lemmas::Bool::Decides::nat_tests), unfolding(crate::specs::Phase::phase_of, crate::specs::State::phase_holds, crate::specs::State::accepted_of))]
    pub fn of(trainer: &'a Trainer) -> Result<Accepted<'a>, Refusal>
        ensures { MatchResult result (λ a. a.trainer.now ≡ trainer.now) (λ r. (r ≡ NotGrown) × (accepted_of trainer.now ≡ false)) }
    {
        match Phase::of(trainer.phase) {
            Some(phase) if holds(trainer) => Ok(Accepted { trainer, phase }),
            _ => Err(Refusal::NotGrown),
        }
    }

    // The leaf whose score is asked for.
    #[tactic(auto, using(crate::proofs::AcceptedFacts::accepted_settings, crate::proofs::AcceptedFacts::accepted_grown, crate::proofs::AcceptedFacts::wanted_leaf))]
    pub fn at_leaf(self) -> AtLeaf<'a>
        requires { wants_score self.trainer.now.phase ≡ true }
        ensures { result.trainer.now ≡ self.entry.trainer.now }
    {
        AtLeaf {
            trainer: self.trainer,
        }
    }
}
