// The candidate that a trainer keeps, as the saved record has it.
ghost use Rattle.std.specs.Prelude.{◌≡◌};
ghost use Rattle.trainer.specs.State.{kept_of};

// The record's number for no candidate.
pub const NONE: u16 = 65535;

#[tactic(auto, using(std::proofs::lemmas::Bool::Decides::nat_tests), unfolding(crate::specs::State::kept_of))]
pub fn kept_of(kept: u16) -> Option<u16>
    ensures { result ≡ kept_of kept }
{
    if kept == NONE { None } else { Some(kept) }
}
