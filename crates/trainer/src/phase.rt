// The phases of a training, each with the number that the saved record has for it.
ghost use Rattle.std.specs.Prelude.{◌≡◌};
ghost use Rattle.trainer.specs.Phase.{number_of, phase_of};
ghost use Rattle.trainer.specs.Calls.{wants_counts, wants_score};

#[derive(Clone, Copy, PartialEq, Eq)]
pub enum Phase {
    // Counts, to split the most used leaf.
    Split = 1,
    // Counts, to split again until more than one leaf is used.
    Drill = 2,
    // Counts, to choose the leaf to tune.
    Choose = 3,
    // The score of the leaf's own action.
    Own = 4,
    // The score of a candidate.
    Try = 5,
    // Counts, once after the last split.
    Last = 6,
    // Nothing.
    Done = 7,
}

impl Phase {
    #[tactic(auto, using(std::proofs::lemmas::Bool::Decides::nat_tests), unfolding(crate::specs::Phase::phase_of))]
    pub fn of(number: u8) -> Option<Phase>
        ensures { result ≡ phase_of number }
    {
        match number {
            1 => Some(Phase::Split),
            2 => Some(Phase::Drill),
            3 => Some(Phase::Choose),
            4 => Some(Phase::Own),
            5 => Some(Phase::Try),
            6 => Some(Phase::Last),
            7 => Some(Phase::Done),
            _ => None,
        }
    }

    pub fn number(self) -> u8
        ensures { result ≡ number_of self }
    {
        self as u8
    }

    pub fn wants_counts(self) -> bool
        ensures { result ≡ wants_counts (number_of self) }
    {
        matches!(
            self,
            Phase::Split | Phase::Drill | Phase::Choose | Phase::Last
        )
    }

    pub fn wants_score(self) -> bool
        ensures { result ≡ wants_score (number_of self) }
    {
        matches!(self, Phase::Own | Phase::Try)
    }
}
