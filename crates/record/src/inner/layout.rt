// How a version of the record lays a trainer out: the parts that it writes, and their places.
ghost use Rattle.std.specs.Prelude.{◌≡◌, ◌+◌, ◌*◌, ◌≤◌, cond};
ghost use Rattle.record.specs.Layout.{layout_of, known_of, carries, given_action, ends_size, nodes_in, list_place, nodes_place, state_place, size_in};

use remy::action::Action;
use rule_tree::{NODES, SPLITS};
use trainer::settings::Settings;

// The version that is written. No enum of the versions: what the bytes of a record stand for is defined for every byte, known or not.
pub const VERSION: u8 = 3;

// The length of all that follows it, and the most that it may be.
pub const LENGTH_SIZE: usize = 4;

pub const MOST_LENGTH: usize = 16384;

// Where the settings stand: after the length and the version byte.
pub const SETTINGS_PLACE: usize = LENGTH_SIZE + 1;

pub const ACTION_SIZE: usize = 8 + 4 + 8;
// Three numbers and the drill byte, then five actions.
pub const NUMBERS_SIZE: usize = 3 * 4 + 1;

pub const SETTINGS_SIZE: usize = NUMBERS_SIZE + 5 * ACTION_SIZE;
// Where the upper ends stand, in a layout that has them.
pub const ENDS_PLACE: usize = SETTINGS_PLACE + SETTINGS_SIZE;

pub const ENDS_SIZE: usize = 3 * 8;
// The split count, and where the splits' nodes stand in a layout without upper ends.
pub const COUNT_SIZE: usize = 2;

pub const LIST_PLACE: usize = ENDS_PLACE + COUNT_SIZE;
// A node's action and mark.
pub const NODE_SIZE: usize = ACTION_SIZE + 1;
// Phase, stage, round, leaf, best, k, kept and its score.
pub const STATE_SIZE: usize = 1 + 2 * 4 + 2 + 8 + 2 + 2 + 8;

// The most bytes of a record.
pub const MOST_SIZE: usize = LIST_PLACE + ENDS_SIZE + 2 * SPLITS + NODE_SIZE * NODES + STATE_SIZE;

// Every node's action and mark is written, or the leaves' alone; the upper ends follow the settings' actions, or do not. Two flags, and no closures
// that write what a version has: a place is counted from them too.
#[derive(Clone, Copy)]
pub struct Layout {
    pub parents: bool,
    pub ends: bool,
}

impl Layout {
    pub fn of_version(v: u8) -> Layout
        ensures { result ≡ layout_of v }
    {
        Layout {
            parents: 1 < v,
            ends: 2 < v,
        }
    }

    // A node with the first child c is written.
    pub fn carries(self, c: u16) -> bool
        ensures { result ≡ carries self c }
    {
        self.parents || c == 0
    }

    // The bytes of a node with the first child c.
    pub fn node_size(self, c: u16) -> usize
        ensures { (result ≡ 21 * cond (carries self c) 1 0) × (result ≤ 21) }
    {
        if self.carries(c) { NODE_SIZE } else { 0 }
    }

    #[tactic(auto, unfolding(crate::specs::Layout::ends_size))]
    pub fn ends_size(self) -> usize
        ensures { (result ≡ ends_size self) × (result ≤ 24) }
    {
        if self.ends { ENDS_SIZE } else { 0 }
    }

    // The nodes that are written of a tree of s splits.
    #[tactic(auto, unfolding(crate::specs::Layout::nodes_in))]
    pub fn nodes_in(self, s: u16) -> usize
        ensures { (result ≡ nodes_in self s) × (result ≤ 1 + 8 * s) }
    {
        let each = if self.parents { 8 } else { 7 };
        1 + each * usize::from(s)
    }

    // Where the splits' nodes stand.
    pub fn list_place(self) -> usize
        ensures { (result ≡ list_place self) × (result ≤ 144) }
    {
        LIST_PLACE + self.ends_size()
    }

    pub fn nodes_place(self, s: u16) -> usize
        ensures { (result ≡ nodes_place self s) × (result ≤ 144 + 2 * s) }
    {
        self.list_place() + 2 * usize::from(s)
    }

    pub fn state_place(self, s: u16) -> usize
        ensures { (result ≡ state_place self s) × (result ≤ 165 + 170 * s) }
    {
        self.nodes_place(s) + NODE_SIZE * self.nodes_in(s)
    }

    // The size of the record of a trainer whose tree is grown by s splits.
    pub fn size(self, s: u16) -> usize
        ensures { (result ≡ size_in self s) × (result ≤ 196 + 170 * s) }
    {
        self.state_place(s) + STATE_SIZE
    }
}

pub fn known(v: u8) -> bool
    ensures { result ≡ known_of v }
{
    1 <= v && v <= VERSION
}

// The action of a parent that is not written.
pub fn given(s: &Settings) -> Action
    ensures { result ≡ given_action s.now }
{
    s.default_action
}
