// The tuning of one leaf, score by score, on a small state; no tree is touched. The trainer's own steps give a trainer each, with its tree of
// 12 KB: so a list of many scores takes these, and one trainer is built at its end.
ghost use Rattle.std.specs.Prelude.{◌≡◌};
ghost use Rattle.host_answers.specs.Parts.{begun_with, begin_of, noted_of, last_of, tried_of, step_of, Tuning, Among};

use remy::action::Action;
use trainer::inner::kept::{NONE, kept_of};
use trainer::inner::list::Candidates;
use trainer::inner::scoring;
use trainer::settings::Settings;

// A leaf's present action, and a trainer's fields of its tuning in phase 5: so what is kept is a number, which `kept_of` reads.
// No enum for a leaf that is finished: an action without candidates has the count 0 by itself, and finishes the leaf as well.
#[derive(Clone, Copy)]
pub struct Tuned {
    pub action: Action,
    pub best: f64,
    pub k: u16,
    pub kept: u16,
    pub score: f64,
    pub count: u32,
}

// An action whose candidates, count of them, are tried from the first on. It is copied field by field: so the loop over scores keeps it in registers.
pub fn begun(a: Action, best: f64, count: u32) -> Tuned
    ensures { result ≡ begun_with a best count }
{
    let delay = a.intersend_delay;
    let action = Action {
        window_multiplier: a.window_multiplier,
        window_increment: a.window_increment,
        intersend_delay: delay,
    };
    Tuned {
        action,
        best,
        k: 0,
        kept: NONE,
        score: 0.0,
        count,
    }
}

// The same by the list of its candidates.
pub fn begun_by(list: Candidates<'_>, best: f64) -> Tuned
    ensures { result ≡ begin_of list.entry.settings.now list.entry.action best }
{
    begun(list.action, best, list.len())
}

// A small state whose candidate k has a score now, by the settings that list its action's candidates.
#[derive(Clone, Copy)]
pub struct Step<'a> {
    pub settings: &'a Settings,
    pub from: Tuned,
    ghost tuning: { Tuning settings.now from },
    ghost among: { Among from from.kept },
}

impl<'a> Step<'a> {
    // After the last candidate: the one kept becomes the action, or the leaf is finished.
    fn adopted(self, kept: u16, score: f64) -> Tuned
        requires { Among self.from kept }
        ensures { result ≡ last_of self.entry.settings.now self.entry.from kept score }
    {
        let Some(k) = kept_of(kept) else {
            return Tuned {
                kept,
                score,
                count: 0,
                ..self.from
            };
        };
        let list = Candidates {
            settings: self.settings,
            action: self.from.action,
        };
        let next = Candidates {
            settings: self.settings,
            action: list.at(k),
        };
        begun_by(next, score)
    }

    // The next candidate, with what is kept so far.
    fn tried(self, kept: u16, score: f64) -> Tuned
        requires { Among self.from kept }
        ensures { result ≡ tried_of self.entry.settings.now self.entry.from kept score }
    {
        let k = self.from.k + 1;
        if u32::from(k) < self.from.count {
            return Tuned {
                k,
                kept,
                score,
                ..self.from
            };
        }
        self.adopted(kept, score)
    }

    // What is kept after the score of candidate k, and its score.
    #[tactic(auto, using(std::proofs::lemmas::Bool::Decides::nat_tests), unfolding(crate::specs::Parts::noted_of))]
    fn noted(self, x: f64) -> (u16, f64)
        ensures { result ≡ noted_of self.entry.from x }
    {
        let u = self.from;
        if scoring::keeps(u.best, u.kept, u.score, x) {
            (u.k, x)
        } else {
            (u.kept, u.score)
        }
    }

    // The score of candidate k. One call of `tried`, not one in each branch: so the compiler puts it into the loop over scores.
    pub fn scored(self, x: f64) -> Tuned
        ensures { result ≡ step_of self.entry.settings.now self.entry.from x }
    {
        let (kept, score) = self.noted(x);
        self.tried(kept, score)
    }
}
