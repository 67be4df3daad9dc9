// xoshiro256++ of Blackman and Vigna, its step back, and numbers drawn in a range.
#![tactic(auto)]

ghost use Rattle.std.specs.Prelude.{◌≡◌, [], ◌∷◌, Ok};
ghost use Rattle.refusal.specs.Guards.{checked};
ghost use Rattle.xoshiro.specs.Xoshiro.{draw_of};
ghost use Rattle.xoshiro.specs.Calls.{state_order, new_of, step_of, step_back_of};

use refusal::Refusal;

pub mod inner;

#[derive(Clone, Copy, PartialEq, Eq)]
pub struct State {
    pub s0: u64,
    pub s1: u64,
    pub s2: u64,
    pub s3: u64,
}

// A state after a step, with the output that the step gave.
#[derive(Clone, Copy, PartialEq, Eq)]
pub struct Stepped {
    pub output: u64,
    pub state: State,
}

impl State {
    pub fn new(s0: u64, s1: u64, s2: u64, s3: u64) -> Result<State, Refusal>
        ensures { result ≡ new_of s0 s1 s2 s3 }
    {
        State { s0, s1, s2, s3 }.not_zeros()
    }

    pub fn step(self) -> Result<Stepped, Refusal>
        ensures { result ≡ step_of self }
    {
        Ok(inner::next(self.not_zeros()?))
    }

    // The state before the step.
    pub fn step_back(self) -> Result<State, Refusal>
        ensures { result ≡ step_back_of self }
    {
        Ok(inner::back(self.not_zeros()?))
    }

    // The state itself, where it is not four zeros.
    fn not_zeros(self) -> Result<State, Refusal>
        ensures { result ≡ checked (state_order self) (Ok self) }
    {
        if inner::zeros(self) {
            Err(Refusal::ZeroState)
        } else {
            Ok(self)
        }
    }
}

// A number of lo..=hi, none where lo is above hi.
#[tactic(auto, unfolding(crate::specs::Xoshiro::draw_of))]
pub fn draw(output: u64, lo: u32, hi: u32) -> Option<u32>
    ensures { result ≡ draw_of output lo hi }
{
    if lo <= hi {
        let span = u64::from(hi - lo) + 1;
        let n = u64::from(lo) + output % span;
        Some(n as u32)
    } else {
        None
    }
}
