// What a training run is set to.
ghost use Rattle.std.specs.Prelude.{◌≡◌, true};
ghost use Rattle.trainer.specs.Settings.{numbers_hold, actions_hold, changes_hold, axes_hold, settings_hold};
ghost use Rattle.trainer.specs.Axes.{multipliers, increments, delays};

use crate::inner::axes;
use crate::inner::axis::Axis;
use remy::action::Action;
use remy::point::Point;
use rule_tree::MOST_SPLITS;

// The most rounds of tuning for a split.
const MOST_ROUNDS: u32 = 1000;

// The greatest change of an increment.
const MOST_CHANGE: i32 = 65536;

#[derive(Clone, Copy)]
pub struct Settings {
    pub rule_splits: u32,
    pub optimization_rounds_per_split: u32,
    pub action_change_multiplier: u32,
    pub drill_down: bool,
    pub min_action: Action,
    pub max_action: Action,
    pub initial_action_change: Action,
    pub max_action_change: Action,
    pub default_action: Action,
    // The upper ends of the root box.
    pub ends: Point,
}

impl Settings {
    // Whether a trainer may be set so.
    #[tactic(auto, using(std::proofs::lemmas::Bool::Decides::nat_tests), unfolding(crate::specs::Settings::settings_hold))]
    pub fn hold(self) -> bool
        ensures { result ≡ settings_hold self }
    {
        self.numbers_hold() && self.actions_hold() && self.changes_hold() && axes::ranges_hold(self)
    }

    #[tactic(auto, using(std::proofs::lemmas::Bool::Decides::nat_tests), unfolding(crate::specs::Settings::numbers_hold))]
    pub fn numbers_hold(self) -> bool
        ensures { result ≡ numbers_hold self }
    {
        self.rule_splits <= u32::from(MOST_SPLITS)
            && self.optimization_rounds_per_split <= MOST_ROUNDS
            && 2 <= self.action_change_multiplier
            && self.action_change_multiplier <= 16
    }

    // Five tests by `&&`: an array of the five for an iterator's `all` is longer.
    #[tactic(auto, using(std::proofs::lemmas::Bool::Decides::nat_tests), unfolding(crate::specs::Settings::actions_hold))]
    pub fn actions_hold(self) -> bool
        ensures { result ≡ actions_hold self }
    {
        self.min_action.valid()
            && self.max_action.valid()
            && self.initial_action_change.valid()
            && self.max_action_change.valid()
            && self.default_action.valid()
    }

    #[tactic(auto, using(std::proofs::lemmas::Bool::Decides::nat_tests), unfolding(crate::specs::Settings::changes_hold))]
    pub fn changes_hold(self) -> bool
        ensures { result ≡ changes_hold self }
    {
        let first = self.initial_action_change;
        0.0 < first.window_multiplier
            && 0 < first.window_increment
            && 0.0 < first.intersend_delay.0
            && first.window_increment <= MOST_CHANGE
            && self.max_action_change.window_increment <= MOST_CHANGE
    }

    // Whether each axis has at most eight values.
    #[tactic(auto, using(std::proofs::lemmas::Bool::Decides::nat_tests), unfolding(crate::specs::Settings::axes_hold))]
    pub(crate) fn axes_end(self) -> bool
        requires numbers { numbers_hold self ≡ true }
        requires changes { changes_hold self ≡ true }
        ensures { result ≡ axes_hold self }
    {
        self.multiplier_axis().ends() && self.increment_axis().ends() && self.delay_axis().ends()
    }

    // Three alike: one function over the part would be given a closure whose contract is longer than a body here.
    pub(crate) fn multiplier_axis(self) -> Axis<f64>
        ensures { result ≡ multipliers self }
    {
        Axis {
            first: self.initial_action_change.window_multiplier,
            factor: self.action_change_multiplier as f64,
            max: self.max_action_change.window_multiplier,
        }
    }

    pub(crate) fn increment_axis(self) -> Axis<i32>
        requires { numbers_hold self ≡ true }
        ensures { result ≡ increments self }
    {
        Axis {
            first: self.initial_action_change.window_increment,
            factor: self.action_change_multiplier as i32,
            max: self.max_action_change.window_increment,
        }
    }

    pub(crate) fn delay_axis(self) -> Axis<f64>
        ensures { result ≡ delays self }
    {
        Axis {
            first: self.initial_action_change.intersend_delay.0,
            factor: self.action_change_multiplier as f64,
            max: self.max_action_change.intersend_delay.0,
        }
    }
}
