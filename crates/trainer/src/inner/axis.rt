// The axes of a change, and what is kept of them.
ghost use Rattle.std.specs.Prelude.{◌≡◌, Bool, true, ◌<◌, ◌≤◌, [], ◌∷◌, ◌++◌, leb, pos, neg_ℤ, ◌+ℤ◌, ◌*ℤ◌, length};
ghost use Rattle.std.specs.Int.Signed.{le_z, mag};
ghost use Rattle.std.specs.Float.{binary64};
ghost use Rattle.std.specs.Float.Ieee.{add, mul, neg, le};
ghost use Rattle.trainer.specs.Settings.{axis};
ghost use Rattle.trainer.specs.Candidates.{filter};
ghost use Rattle.trainer.specs.Axes.{kept_sums, within, Upto, WholeScale};

use arrayvec::ArrayVec;

// A sum and a difference for each of the eight values that an axis may have.
pub const MOST_SUMS: usize = 16;

// A part of an action: it is compared, and changed by the values of an axis.
// Not by std's operators: none promises that its result may be multiplied or added again, as `times` does.
pub trait Part: Copy + Default {
    ghost le: { Self → Self → Bool };

    ghost sum: { Self → Self → Self };

    ghost minus: { Self → Self };

    ghost product: { Self → Self → Self };

    // The factor and the most of an axis whose products fit.
    ghost Scale: { Self → Self → Type 0 };

    // A value of such an axis.
    ghost Change: { Self → Type 0 };

    // A part to which such values may be added.
    ghost Near: { Self → Type 0 };

    fn at_most(self, other: Self) -> bool
        ensures { result ≡ le self other };

    // The value after this one.
    fn times(self, factor: Self, max: Self) -> Self
        requires scale { Scale factor max }
        requires change { Change self }
        requires within { le self max ≡ true }
        ensures value { result ≡ product factor self }
        ensures change { Change result };

    fn plus(self, change: Self) -> Self
        requires near { Near self }
        requires change { Change change }
        ensures { result ≡ sum self change };

    fn less(self, change: Self) -> Self
        requires near { Near self }
        requires change { Change change }
        ensures { result ≡ sum self (minus change) };
}

impl Part for f64 {
    ghost le = { le };

    ghost sum = { add binary64 };

    ghost minus = { neg };

    ghost product = { mul binary64 };

    ghost Scale = { λ _ _. Unit {0} };

    ghost Change = { λ _. Unit {0} };

    ghost Near = { λ _. Unit {0} };

    fn at_most(self, other: f64) -> bool {
        self <= other
    }

    fn times(self, factor: f64, _max: f64) -> f64 {
        factor * self
    }

    fn plus(self, change: f64) -> f64 {
        self + change
    }

    fn less(self, change: f64) -> f64 {
        self + -change
    }
}

impl Part for i32 {
    ghost le = { le_z };

    ghost sum = { ◌+ℤ◌ };

    ghost minus = { neg_ℤ };

    ghost product = { ◌*ℤ◌ };

    ghost Scale = { WholeScale };

    ghost Change = { Upto 1048576 };

    ghost Near = { λ z. mag z ≤ 1000000 };

    fn at_most(self, other: i32) -> bool {
        self <= other
    }

    fn times(self, factor: i32, _max: i32) -> i32 {
        factor * self
    }

    fn plus(self, change: i32) -> i32 {
        self + change
    }

    fn less(self, change: i32) -> i32 {
        self - change
    }
}

// One more sum, if it lies within low and high.
fn keep<T: Part>(kept: &mut ArrayVec<T, MOST_SUMS>, sum: T, low: T, high: T)
    requires { length kept.old.items < 16 }
    ensures { kept.new.items ≡ kept.old.items ++ filter (within T.le low high) (sum ∷ []) }
{
    if low.at_most(sum) && sum.at_most(high) {
        kept.push(sum);
    }
}

// First, then factor times the one before, while at most max.
#[derive(Clone, Copy)]
pub struct Axis<T> {
    pub first: T,
    pub factor: T,
    pub max: T,
}

impl<T: Part> Axis<T> {
    // Whether the axis has at most eight values.
    pub fn ends(self) -> bool
        requires scale { T.Scale self.factor self.max }
        requires first { T.Change self.first }
        ensures { result ≡ leb (length (axis T.le (T.product self.factor) 9 self.first self.max)) 8 }
    {
        let mut x = self.first;
        for turn in 0..8u32 {
            if !x.at_most(self.max) {
                return true;
            }
            x = x.times(self.factor, self.max);
        }
        !x.at_most(self.max)
    }

    // The sums of a part and each value, plus and minus in turn, that lie within low and high.
    pub fn kept(self, part: T, low: T, high: T) -> ArrayVec<T, MOST_SUMS>
        requires scale { T.Scale self.factor self.max }
        requires first { T.Change self.first }
        requires near { T.Near part }
        ensures { result.items ≡ kept_sums T.le T.sum T.minus part low high (axis T.le (T.product self.factor) 8 self.first self.max) }
    {
        let mut kept = ArrayVec::new();
        let mut change = self.first;
        for turn in 0..8u32 {
            if !change.at_most(self.max) {
                return kept;
            }
            keep(&mut kept, part.plus(change), low, high);
            keep(&mut kept, part.less(change), low, high);
            change = change.times(self.factor, self.max);
        }
        kept
    }
}
