// The candidates that a leaf's action may give way to.
ghost use Rattle.std.specs.Prelude.{◌≡◌};
ghost use Rattle.trainer.specs.Candidates.{candidate_of};

use crate::inner::list::Candidates;
use crate::settings::Settings;
use refusal::Refusal;
use remy::action::Action;

// The length of the list of candidates, with candidate k, or with none where k is past the end.
#[derive(Clone, Copy)]
pub struct Candidate {
    pub length: u32,
    pub action: Option<Action>,
}

#[tactic(auto, using(std::proofs::lemmas::Bool::Decides::nat_tests), unfolding(crate::specs::Candidates::candidate_of))]
pub fn candidate_at(s: Settings, a: Action, k: u32) -> Result<Candidate, Refusal>
    ensures { result ≡ candidate_of s a k }
{
    if !s.hold() {
        return Err(Refusal::BadSettings);
    }
    if !a.valid() {
        return Err(Refusal::NotAdmitted);
    }
    let list = Candidates {
        settings: &s,
        action: a,
    };
    Ok(list.pick(k))
}
