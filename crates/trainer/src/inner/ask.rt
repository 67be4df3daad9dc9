// What a trainer asks for.
ghost use Rattle.std.specs.Prelude.{◌≡◌};
ghost use Rattle.trainer.specs.Calls.{progress_of, asked_of, wants_counts, wants_score};

use crate::Question;
use crate::inner::accepted::Accepted;
use crate::phase::Phase;

// Whether counts are asked for in the phase of a number, which may be none.
pub fn wants_counts(phase: u8) -> bool
    ensures { result ≡ wants_counts phase }
{
    matches!(phase, 1 | 2 | 3 | 6)
}

pub fn wants_score(phase: u8) -> bool
    ensures { result ≡ wants_score phase }
{
    matches!(phase, 4 | 5)
}

impl<'a> Accepted<'a> {
    // The stage over the number of stages.
    #[tactic(auto, using(crate::proofs::AcceptedFacts::accepted_splits))]
    fn progress(self) -> f64
        ensures { result ≡ progress_of self.entry.trainer.now }
    {
        let t = self.trainer;
        t.stage as f64 / (t.settings.rule_splits + 1) as f64
    }

    #[tactic(auto, using(std::proofs::lemmas::Bool::Decides::nat_tests, crate::proofs::AcceptedFacts::try_listed), unfolding(crate::specs::Phase::phase_of, crate::specs::Calls::asked_of))]
    pub fn asked(self) -> Question
        ensures { result ≡ asked_of self.entry.trainer.now }
    {
        let t = self.trainer;
        let p = self.progress();
        match self.phase {
            Phase::Own => Question::Score(t.leaf, self.at_leaf().action(), p),
            Phase::Try => {
                let c = self.at_leaf().candidates().at(t.k);
                Question::Score(t.leaf, c, p)
            }
            Phase::Done => Question::Done(p),
            _ => Question::Counts(p),
        }
    }
}
