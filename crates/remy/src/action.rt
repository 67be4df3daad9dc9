// What a rule does: a multiple of the window, an increment, and a wait between sends.
ghost use Rattle.std.specs.Prelude.{◌≡◌};
ghost use Rattle.remy.specs.Action.{valid_of, rule_of, window_of, action_of, cut_outside, held_of};

use quantities::TimeSpan;

#[derive(Clone, Copy, PartialEq)]
pub struct Action {
    pub window_multiplier: f64,
    pub window_increment: i32,
    pub intersend_delay: TimeSpan,
}

// The window that an action gives, and whether the rule had to clip it. Two answers, each always there, so no Option.
#[derive(Clone, Copy)]
pub struct Applied {
    pub window: u32,
    pub clipped: bool,
}

impl Action {
    pub fn new(multiplier: f64, increment: i32, delay: f64) -> Action
        ensures { result ≡ action_of multiplier increment delay }
    {
        Action {
            window_multiplier: multiplier,
            window_increment: increment,
            intersend_delay: TimeSpan(delay),
        }
    }

    #[tactic(auto, unfolding(crate::specs::Action::valid_of))]
    pub fn valid(self) -> bool
        ensures { result ≡ valid_of self }
    {
        floats::is_finite(self.window_multiplier)
            && floats::is_finite(self.intersend_delay.0)
            && -1000000 <= self.window_increment
            && self.window_increment <= 1000000
    }

    // The window rule, with whether it clipped.
    pub fn applied(self, window: u32) -> Applied
        ensures { result ≡ rule_of self window }
    {
        let product = (window as f64) * self.window_multiplier;
        let whole = floats::to_i32(product) as i64;
        let sum = whole + (self.window_increment as i64);
        let cut = cut_outside(product);
        held(sum, cut)
    }

    pub fn apply_to(self, window: u32) -> u32
        ensures { result ≡ window_of self window }
    {
        self.applied(window).window
    }
}

// Cut to whole, x lies outside the range of i32, or it is NaN.
fn cut_outside(x: f64) -> bool
    ensures { result ≡ cut_outside x }
{
    !(x > -2147483649.0 && x < 2147483648.0)
}

// The sum held to 0..=1,000,000; `cut` is one more reason to say clipped, and no Option: a product that was cut has its sum as any other.
fn held(sum: i64, cut: bool) -> Applied
    ensures { result ≡ held_of sum cut }
{
    let window = sum.clamp(0, 1000000);
    Applied {
        window: window as u32,
        clipped: window != sum || cut,
    }
}
