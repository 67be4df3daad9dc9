// The sums of each part of an action and its changes, kept where they lie within the part's least and most.
ghost use Rattle.std.specs.Prelude.{◌≡◌, true, ◌&&◌};
ghost use Rattle.rule_tree.specs.Grown.{ends_hold};
ghost use Rattle.trainer.specs.Settings.{numbers_hold, changes_hold, axes_hold};
ghost use Rattle.trainer.specs.Axes.{multiplier_sums, increment_sums, delay_sums};

use crate::inner::axis::MOST_SUMS;
use crate::inner::list::Candidates;
use crate::settings::Settings;
use arrayvec::ArrayVec;
use remy::action::Action;
use rule_tree::inner::links;

// Whether the axes end, and the upper ends are ones that a box may have.
#[tactic(auto, using(std::proofs::lemmas::Bool::Decides::nat_tests))]
pub fn ranges_hold(s: Settings) -> bool
    requires numbers { numbers_hold s ≡ true }
    requires changes { changes_hold s ≡ true }
    ensures { result ≡ (axes_hold s && ends_hold s.ends) }
{
    s.axes_end() && links::ends_hold(s.ends)
}

// The sums of the two parts that are floats, of any settings and any action: no product or sum of theirs is out of range.
pub fn multiplier_sums(s: &Settings, a: Action) -> ArrayVec<f64, MOST_SUMS>
    ensures { result.items ≡ multiplier_sums s.now a }
{
    s.multiplier_axis().kept(
        a.window_multiplier,
        s.min_action.window_multiplier,
        s.max_action.window_multiplier,
    )
}

pub fn delay_sums(s: &Settings, a: Action) -> ArrayVec<f64, MOST_SUMS>
    ensures { result.items ≡ delay_sums s.now a }
{
    s.delay_axis().kept(
        a.intersend_delay.0,
        s.min_action.intersend_delay.0,
        s.max_action.intersend_delay.0,
    )
}

// Three alike: one function over the part would be given a closure whose contract is longer than a body here.
impl<'a> Candidates<'a> {
    pub fn multiplier_sums(self) -> ArrayVec<f64, MOST_SUMS>
        ensures { result.items ≡ multiplier_sums self.entry.settings.now self.entry.action }
    {
        multiplier_sums(self.settings, self.action)
    }

    pub fn increment_sums(self) -> ArrayVec<i32, MOST_SUMS>
        ensures { result.items ≡ increment_sums self.entry.settings.now self.entry.action }
    {
        let s = self.settings;
        s.increment_axis().kept(
            self.action.window_increment,
            s.min_action.window_increment,
            s.max_action.window_increment,
        )
    }

    pub fn delay_sums(self) -> ArrayVec<f64, MOST_SUMS>
        ensures { result.items ≡ delay_sums self.entry.settings.now self.entry.action }
    {
        delay_sums(self.settings, self.action)
    }
}
