// The scores of a group: taken on the small state, and one trainer is built at the end.
ghost use Rattle.std.specs.Prelude.{◌≡◌, Some, Ok, ◌*◌, ◌/◌, ◌≤◌, ◌<◌, length};
ghost use Rattle.rule_tree.specs.Nodes.{slots};
ghost use Rattle.trainer.specs.Phase.{phase_of};
ghost use Rattle.host_answers.specs.Answers.{scores_on};
ghost use Rattle.host_answers.specs.Parts.{tuned_of, trainer_of, Counted, Ready};

use crate::inner::steps;
use crate::inner::steps::{Step, Tuned};
use refusal::Refusal;
use rule_tree::inner::change;
use trainer::Trainer;
use trainer::inner::begin::Place;
use trainer::inner::leaf::AtLeaf;
use trainer::phase::Phase;
use wire::inner::read;

// The small state of a trainer in phase 5.
fn tuned_of(at: AtLeaf<'_>) -> Tuned
    ensures { result ≡ tuned_of at.entry.trainer.now }
{
    let t = at.trainer;
    let list = at.candidates();
    Tuned {
        action: list.action,
        best: t.best,
        k: t.k,
        kept: t.kept,
        score: t.kept_score,
        count: list.len(),
    }
}

// The trainer that a small state stands for.
fn built(t: &Trainer, u: Tuned) -> Trainer
    requires { t.now.leaf < slots }
    ensures { result ≡ trainer_of t.now u }
{
    let tree = change::with_action(t.tree, t.leaf, u.action);
    if u.count == 0 {
        let place = Place {
            settings: t.settings,
            tree: change::with_mark(tree, t.leaf),
            stage: t.stage,
            round: t.round,
        };
        return place.stand_at(Phase::Choose);
    }
    Trainer {
        tree,
        phase: Phase::Try.number(),
        best: u.best,
        k: u.k,
        kept: u.kept,
        kept_score: u.score,
        ..*t
    }
}

// A trainer that was loaded: accepted, over a tree of as many slots as every tree of the code has.
#[derive(Clone, Copy)]
pub struct Loaded<'a> {
    pub trainer: &'a Trainer,
    ghost ready: { Ready trainer.now },
}

impl<'a> Loaded<'a> {
    // The scores from place from on; those before it gave the small state.
    fn tune(self, first: Tuned, scores: &[u8], from: usize) -> Result<Trainer, Refusal>
        requires leaf { self.trainer.now.leaf < slots }
        requires from { from ≤ length scores.now / 8 }
        requires counted { Counted self.trainer.now.settings first }
        requires before { scores_on self.trainer.now scores.now from ≡ Ok (trainer_of self.trainer.now first) }
        ensures { result ≡ scores_on self.entry.trainer.now scores.now (length scores.now / 8) }
    {
        let settings = &self.trainer.settings;
        let mut u = first;
        for i in from..scores.len() / 8 {
            if u.count == 0 {
                return Err(Refusal::NotAsked);
            }
            let x = read::float_at(&scores[8 * i..8 * i + 8], 0);
            u = Step { settings, from: u }.scored(x);
        }
        Ok(built(self.trainer, u))
    }

    // A score at least. In phase 4 the first is that of the leaf's own action.
    fn scores_in(self, phase: Phase, scores: &[u8]) -> Result<Trainer, Refusal>
        requires named { phase_of self.trainer.now.phase ≡ Some phase }
        requires some { 8 ≤ length scores.now }
        ensures { result ≡ scores_on self.entry.trainer.now scores.now (length scores.now / 8) }
    {
        let trainer = self.trainer;
        match phase {
            Phase::Own => {
                let at = AtLeaf { trainer };
                let first = steps::begun_by(at.candidates(), read::float_at(scores, 0));
                self.tune(first, scores, 1)
            }
            Phase::Try => self.tune(tuned_of(AtLeaf { trainer }), scores, 0),
            _ => Err(Refusal::NotAsked),
        }
    }

    // All the scores that the bytes hold.
    pub fn scores_on(self, scores: &[u8]) -> Result<Trainer, Refusal>
        ensures { result ≡ scores_on self.entry.trainer.now scores.now (length scores.now / 8) }
    {
        if scores.len() < 8 {
            return Ok(*self.trainer);
        }
        match Phase::of(self.trainer.phase) {
            Some(phase) => self.scores_in(phase, scores),
            None => Err(Refusal::NotAsked),
        }
    }
}
