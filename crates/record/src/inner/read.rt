// The parts of a record that need no split count, each read at its place; what lies past the end reads as no bytes.
ghost use Rattle.std.specs.Prelude.{◌≡◌, ◌≤◌};
ghost use Rattle.record.specs.Read.{settings_at, ends_at, split_count};
ghost use Rattle.record.specs.Calls.{length_holds, version_holds};

use crate::inner::layout;
use crate::inner::layout::{
    ENDS_PLACE, LENGTH_SIZE, Layout, MOST_LENGTH, SETTINGS_PLACE, SETTINGS_SIZE,
};
use remy::point::Point;
use trainer::settings::Settings;
use wire::inner::read::{action_at, byte_at, flag_at, point_at, short_at, word_at};

// Read field by field, each at its place, as the record lists them.
pub fn settings_at(bytes: &[u8], l: Layout, at: usize) -> Settings
    requires { at ≤ 60000 }
    ensures { result ≡ settings_at l bytes.now at }
{
    Settings {
        rule_splits: word_at(bytes, at),
        optimization_rounds_per_split: word_at(bytes, at + 4),
        action_change_multiplier: word_at(bytes, at + 8),
        drill_down: flag_at(bytes, at + 12),
        min_action: action_at(bytes, at + 13),
        max_action: action_at(bytes, at + 33),
        initial_action_change: action_at(bytes, at + 53),
        max_action_change: action_at(bytes, at + 73),
        default_action: action_at(bytes, at + 93),
        ends: ends_at(bytes, l, at + SETTINGS_SIZE),
    }
}

// The upper ends that stand at place at, or the usual ones.
pub fn ends_at(bytes: &[u8], l: Layout, at: usize) -> Point
    requires { at ≤ 65000 }
    ensures { result ≡ ends_at l bytes.now at }
{
    if l.ends {
        return point_at(bytes, at);
    }
    Point::usual_ends()
}

pub fn split_count(bytes: &[u8], l: Layout) -> u16
    ensures { result ≡ split_count l bytes.now }
{
    short_at(bytes, ENDS_PLACE + l.ends_size())
}

// The first four bytes say how many follow. The panel and the trace test such a start by bounds of their own.
#[tactic(auto, using(std::proofs::lemmas::Bool::Decides::nat_tests), unfolding(crate::specs::Calls::length_holds))]
pub fn length_holds(bytes: &[u8]) -> bool
    ensures { result ≡ length_holds bytes.now }
{
    if bytes.len() < LENGTH_SIZE {
        return false;
    }
    let n = word_at(bytes, 0) as usize;
    n <= MOST_LENGTH && n == bytes.len() - LENGTH_SIZE
}

#[tactic(auto, using(std::proofs::lemmas::Bool::Decides::nat_tests), unfolding(crate::specs::Calls::version_holds))]
pub fn version_holds(bytes: &[u8]) -> bool
    ensures { result ≡ version_holds bytes.now }
{
    bytes.len() >= SETTINGS_PLACE && layout::known(byte_at(bytes, LENGTH_SIZE))
}
