// Where a stage or a round begins, and what a trainer is made of.
ghost use Rattle.std.specs.Prelude.{◌≡◌, ◌<◌};
ghost use Rattle.trainer.specs.Phase.{number_of};
ghost use Rattle.trainer.specs.State.{stand, at_leaf_of, trying};
ghost use Rattle.trainer.specs.Phases.{begin_stage, begin_round};
ghost use Rattle.trainer.specs.Calls.{started};
ghost use Rattle.trainer.specs.Fields.{place_of};

use crate::Trainer;
use crate::inner::kept;
use crate::phase::Phase;
use crate::settings::Settings;
use rule_tree::RuleTree;
use rule_tree::inner::change;

// A trainer that is at no leaf, by any phase's number.
pub fn stand_at(s: Settings, t: RuleTree, phase: u8, stage: u32, round: u32) -> Trainer
    ensures { result ≡ stand s t phase stage round }
{
    Trainer {
        settings: s,
        tree: t,
        phase,
        stage,
        round,
        leaf: 0,
        best: 0.0,
        k: 0,
        kept: kept::NONE,
        kept_score: 0.0,
    }
}

// A trainer that asks for the score of a leaf's own action.
pub fn ask_leaf(s: Settings, t: RuleTree, stage: u32, round: u32, leaf: u16) -> Trainer
    ensures { result ≡ at_leaf_of s t stage round leaf }
{
    Trainer {
        leaf,
        ..stand_at(s, t, Phase::Own.number(), stage, round)
    }
}

// What a trainer holds in every phase.
#[derive(Clone, Copy)]
pub struct Place {
    pub settings: Settings,
    pub tree: RuleTree,
    pub stage: u32,
    pub round: u32,
}

impl Place {
    // Where the tree is another, the fields are written out: this one would copy 12 KB for nothing.
    pub fn of(t: &Trainer) -> Place
        ensures { result ≡ place_of t.now }
    {
        Place {
            settings: t.settings,
            tree: t.tree,
            stage: t.stage,
            round: t.round,
        }
    }

    // A trainer that is at no leaf.
    pub fn stand_at(self, phase: Phase) -> Trainer
        ensures { result ≡ stand self.settings self.tree (number_of phase) self.stage self.round }
    {
        stand_at(
            self.settings,
            self.tree,
            phase.number(),
            self.stage,
            self.round,
        )
    }

    // A trainer that asks for the score of a leaf's own action.
    pub fn ask_leaf(self, leaf: u16) -> Trainer
        ensures { result ≡ at_leaf_of self.settings self.tree self.stage self.round leaf }
    {
        ask_leaf(self.settings, self.tree, self.stage, self.round, leaf)
    }

    // A trainer that asks for the score of candidate k.
    pub fn try_candidate(self, leaf: u16, best: f64, k: u16, kept: u16, score: f64) -> Trainer
        ensures { result ≡ trying self.settings self.tree self.stage self.round leaf best k kept score }
    {
        Trainer {
            leaf,
            best,
            k,
            kept,
            kept_score: score,
            ..self.stand_at(Phase::Try)
        }
    }

    // The stage begins: tuning's, or the last.
    #[tactic(auto, using(std::proofs::lemmas::Bool::Decides::nat_tests), unfolding(crate::specs::Phases::begin_stage))]
    pub fn begin_stage(self) -> Trainer
        ensures { result ≡ begin_stage self.settings self.tree self.stage }
    {
        let phase = if self.settings.rule_splits < self.stage {
            Phase::Last
        } else {
            Phase::Split
        };
        Place { round: 0, ..self }.stand_at(phase)
    }

    // The round begins, or the next stage where there are no more rounds.
    #[tactic(auto, using(std::proofs::lemmas::Bool::Decides::nat_tests), unfolding(crate::specs::Phases::begin_round))]
    pub fn begin_round(self) -> Trainer
        requires { self.stage < 4294967295 }
        ensures { result ≡ begin_round self.settings self.tree self.stage self.round }
    {
        if self.round < self.settings.optimization_rounds_per_split {
            return self.stand_at(Phase::Choose);
        }
        let next = Place {
            stage: self.stage + 1,
            ..self
        };
        next.begin_stage()
    }
}

pub fn begin_training(s: Settings) -> Trainer
    ensures { result ≡ started s }
{
    let first = Place {
        settings: s,
        tree: change::fresh(s.ends, s.default_action),
        stage: 0,
        round: 0,
    };
    first.begin_round()
}
