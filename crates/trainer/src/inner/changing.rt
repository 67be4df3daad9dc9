// New settings in a running training.
ghost use Rattle.std.specs.Prelude.{◌≡◌, ◌&&◌};
ghost use Rattle.trainer.specs.Change.{phase_fits, round_fits, settings_fit, changed_to};

use crate::Trainer;
use crate::inner::accepted::Accepted;
use crate::inner::{ask, begin};
use crate::settings::Settings;

// The phase and the round are ones that training can go on from.
#[tactic(auto, using(std::proofs::lemmas::Bool::Decides::nat_tests), unfolding(crate::specs::Change::phase_fits, crate::specs::Change::round_fits))]
fn goes_on(phase: u8, round: u32, rounds: u32) -> bool
    ensures { result ≡ (phase_fits phase && round_fits phase round rounds) }
{
    match phase {
        3..=5 => round < rounds,
        6 | 7 => false,
        _ => true,
    }
}

#[tactic(auto, using(std::proofs::lemmas::Bool::Decides::nat_tests, remy::proofs::Equality::points_equal), unfolding(crate::specs::Change::settings_fit))]
fn fits(t: &Trainer, s: &Settings) -> bool
    ensures { result ≡ settings_fit t.now s.now }
{
    t.settings.ends == s.ends
        && t.stage <= s.rule_splits
        && goes_on(t.phase, t.round, s.optimization_rounds_per_split)
}

#[tactic(auto, unfolding(crate::specs::Change::changed_to))]
fn with_settings(t: &Trainer, s: Settings) -> Trainer
    ensures { result ≡ changed_to t.now s }
{
    if ask::wants_score(t.phase) {
        return begin::ask_leaf(s, t.tree, t.stage, t.round, t.leaf);
    }
    begin::stand_at(s, t.tree, t.phase, t.stage, t.round)
}

// Whether a trainer, accepted or not, fits these settings.
pub fn settings_fit(t: Trainer, s: Settings) -> bool
    ensures { result ≡ settings_fit t s }
{
    fits(&t, &s)
}

// A trainer, accepted or not, with these settings: at a leaf the candidates are dropped, and its own action is asked for again.
pub fn changed(t: Trainer, s: Settings) -> Trainer
    ensures { result ≡ changed_to t s }
{
    with_settings(&t, s)
}

impl<'a> Accepted<'a> {
    // Whether the training can take these settings.
    pub fn takes(self, s: &Settings) -> bool
        ensures { result ≡ settings_fit self.entry.trainer.now s.now }
    {
        fits(self.trainer, s)
    }

    pub fn changed(self, s: Settings) -> Trainer
        ensures { result ≡ changed_to self.entry.trainer.now s }
    {
        with_settings(self.trainer, s)
    }
}
