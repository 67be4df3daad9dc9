// The generator's words: rotation, the step and the step back, of every state.
ghost use Rattle.std.specs.Prelude.{◌≡◌, ◌<◌};
ghost use Rattle.xoshiro.specs.Xoshiro.{rotated, zeros_of, stepped_of, back_of};

use crate::{State, Stepped};

const ZEROS: State = State {
    s0: 0,
    s1: 0,
    s2: 0,
    s3: 0,
};

// The word rotated left by k bits.
fn rotl(x: u64, k: u32) -> u64
    requires { (0 < k) × (k < 64) }
    ensures { result ≡ rotated x k }
{
    x.rotate_left(k)
}

// Whether the words are four zeros.
#[tactic(auto, unfolding(crate::specs::Xoshiro::zeros_of))]
pub fn zeros(s: State) -> bool
    ensures { result ≡ zeros_of s }
{
    s == ZEROS
}

// The output, which is of the state that came, and the state after it.
pub fn next(s: State) -> Stepped
    ensures { result ≡ stepped_of s }
{
    let output = rotl(s.s0.wrapping_add(s.s3), 23).wrapping_add(s.s0);
    let t = s.s1 << 17;
    let x2 = s.s2 ^ s.s0;
    let x3 = s.s3 ^ s.s1;
    let state = State {
        s0: s.s0 ^ x3,
        s1: s.s1 ^ x2,
        s2: x2 ^ t,
        s3: rotl(x3, 45),
    };
    Stepped { output, state }
}

// The state before the step.
pub fn back(s: State) -> State
    ensures { result ≡ back_of s }
{
    let x3 = rotl(s.s3, 19);
    let s0 = s.s0 ^ x3;
    let x = s.s1 ^ s.s2;
    let y = x ^ (x << 17);
    let s1 = y ^ (y << 34);
    let s2 = s.s1 ^ s1 ^ s0;
    let s3 = x3 ^ s1;
    State { s0, s1, s2, s3 }
}
