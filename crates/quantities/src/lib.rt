// Moments and spans of time, in seconds, with only the operations that have a meaning.
#![tactic(auto)]

ghost use Rattle.std.specs.Prelude.{◌≡◌};
ghost use Rattle.std.specs.Float.{binary64};
ghost use Rattle.std.specs.Float.Ieee.{div};
ghost use Rattle.quantities.specs.Time.{span, sum_of, scaled, ratio_of, thousand, between, moved, later_of, admit_of, moment};

use refusal::Refusal;
use std::ops::{Add, Div, Mul, Sub};

// A span of time, in seconds.
#[derive(Clone, Copy, PartialEq, PartialOrd)]
pub struct TimeSpan(pub f64);

// A moment, in seconds from the start. Its number is private: two moments have a difference and a later one, and no sum.
// It is made by admitting a number, by moving a moment by a span, or by restoring one that was held.
// No PartialEq and no PartialOrd: they would be calls that take two moments, beside the difference and the later one.
#[derive(Clone, Copy)]
pub struct Time(f64);

pub fn milliseconds(value: f64) -> TimeSpan
    ensures { result ≡ span (div binary64 value thousand) }
{
    TimeSpan(value / 1000.0)
}

impl Add for TimeSpan {
    type Output = TimeSpan;

    ghost add_gives = { λ a b r. r ≡ sum_of a b };

    fn add(self, other: TimeSpan) -> TimeSpan {
        TimeSpan(self.0 + other.0)
    }
}

impl Mul<TimeSpan> for f64 {
    type Output = TimeSpan;

    ghost mul_gives = { λ k a r. r ≡ scaled k a };

    fn mul(self, span: TimeSpan) -> TimeSpan {
        TimeSpan(self * span.0)
    }
}

impl Div for TimeSpan {
    type Output = f64;

    ghost div_gives = { λ a b r. r ≡ ratio_of a b };

    fn div(self, other: TimeSpan) -> f64 {
        self.0 / other.0
    }
}

impl Sub for Time {
    type Output = TimeSpan;

    ghost sub_gives = { λ t earlier r. r ≡ between t earlier };

    fn sub(self, earlier: Time) -> TimeSpan {
        TimeSpan(self.0 - earlier.0)
    }
}

impl Add<TimeSpan> for Time {
    type Output = Time;

    ghost add_gives = { λ t by r. r ≡ moved t by };

    fn add(self, by: TimeSpan) -> Time {
        Time(self.0 + by.0)
    }
}

impl Time {
    // A number that is handed in as a moment. No `TryFrom`: `restored` makes a moment of a number too, and the two differ by their names.
    pub fn admit(value: f64) -> Result<Time, Refusal>
        ensures { result ≡ admit_of value }
    {
        if value >= 0.0 && value <= 4294967296.0 {
            // -0 is read as +0.
            Ok(Time(if value == 0.0 { 0.0 } else { value }))
        } else {
            Err(Refusal::NotAdmitted)
        }
    }

    // A moment of a sender that is handed in: the number that `held` gave out, not admitted anew. No `From`, which would not say so.
    pub fn restored(held: f64) -> Time
        ensures { result ≡ moment held }
    {
        Time(held)
    }

    // Its number, for a sender that is handed out, or to be shown.
    pub fn held(self) -> f64
        ensures { result ≡ self.0 }
    {
        self.0
    }

    // The later of the two; self where they do not compare, which a library's `max` has no word for.
    pub fn later(self, other: Time) -> Time
        ensures { result ≡ later_of self other }
    {
        if self.0 < other.0 { other } else { self }
    }
}
