// The trainer: it asks for counts and scores, and grows and tunes a rule tree by the answers.
#![tactic(auto)]

ghost use Rattle.std.specs.Prelude.{◌≡◌};
ghost use Rattle.trainer.specs.State.{accepted_of};
ghost use Rattle.trainer.specs.Calls.{start_of, question_of, answer_counts_of, answer_score_of};
ghost use Rattle.trainer.specs.Change.{change_of};

use crate::inner::accepted::Accepted;
use crate::inner::counting;
use crate::settings::Settings;
use refusal::Refusal;
use remy::action::Action;
use rule_tree::RuleTree;

pub mod candidates;
pub mod inner;
pub mod phase;
pub mod settings;

// The fields of the saved record, one to one: so the phase and what is kept are its numbers, which `Phase::of` and `kept_of` read, and
// a value that the record excludes is refused by number 10. The leaf is a node's number, as in the tree. A phase's unused fields are 0,
// and kept 65535.
#[derive(Clone, Copy)]
pub struct Trainer {
    pub settings: Settings,
    pub tree: RuleTree,
    pub phase: u8,
    pub stage: u32,
    pub round: u32,
    pub leaf: u16,
    pub best: f64,
    pub k: u16,
    pub kept: u16,
    pub kept_score: f64,
}

// What the trainer asks for, with its progress.
#[derive(Clone, Copy)]
pub enum Question {
    Counts(f64),
    Score(u16, Action, f64),
    Done(f64),
}

impl Trainer {
    #[tactic(auto, using(std::proofs::lemmas::Bool::Decides::nat_tests), unfolding(crate::specs::Calls::start_of))]
    pub fn start(s: Settings) -> Result<Trainer, Refusal>
        ensures { result ≡ start_of s }
    {
        if !s.hold() {
            return Err(Refusal::BadSettings);
        }
        Ok(inner::begin::begin_training(s))
    }

    // Whether a trainer holds what the record's rules accept.
    pub fn accepted(self) -> bool
        ensures { result ≡ accepted_of self }
    {
        inner::accepted::holds(&self)
    }

    #[tactic(auto, using(std::proofs::lemmas::Bool::Decides::nat_tests), unfolding(crate::specs::Calls::question_of))]
    pub fn question(self) -> Result<Question, Refusal>
        ensures { result ≡ question_of self }
    {
        Ok(Accepted::of(&self)?.asked())
    }

    pub fn answer_counts(self, counts: &[u64]) -> Result<Trainer, Refusal>
        ensures { result ≡ answer_counts_of self counts.now }
    {
        counting::answered(&self, counts)
    }

    #[tactic(auto, using(std::proofs::lemmas::Bool::Decides::nat_tests), unfolding(crate::specs::Phase::phase_of, crate::specs::Calls::answer_score_of))]
    pub fn answer_score(self, score: f64) -> Result<Trainer, Refusal>
        ensures { result ≡ answer_score_of self score }
    {
        let t = Accepted::of(&self)?;
        if !t.phase.wants_score() {
            return Err(Refusal::NotAsked);
        }
        Ok(t.scored(score))
    }

    // New settings with the same upper ends: the tree, the stage and the round stay.
    #[tactic(auto, using(std::proofs::lemmas::Bool::Decides::nat_tests), unfolding(crate::specs::Change::change_of))]
    pub fn change_settings(self, s: Settings) -> Result<Trainer, Refusal>
        ensures { result ≡ change_of self s }
    {
        let t = Accepted::of(&self)?;
        if !s.hold() {
            return Err(Refusal::BadSettings);
        }
        if !t.takes(&s) {
            return Err(Refusal::UnfitSettings);
        }
        Ok(t.changed(s))
    }
}
