// What is refused, each kind with its number.
#![tactic(auto)]

ghost use Rattle.std.specs.Prelude.{◌≡◌};
ghost use Rattle.refusal.specs.Numbers.{number_of};

#[derive(Clone, Copy, PartialEq, Eq)]
pub enum Refusal {
    // A moment that is not admitted, or a single action that is not valid.
    NotAdmitted = 1,
    // Settings, their actions included, or a repeat mode.
    BadSettings = 2,
    // No such leaf.
    NoLeaf = 3,
    // Counts: not one per node, above 0 at a parent, or over 2^53 in all.
    BadCounts = 4,
    // A due draw absent or outside its range.
    NoDraw = 5,
    // A record of another length than it says.
    BadLength = 6,
    // No version byte, or an unknown one.
    UnknownVersion = 7,
    // Any other field of a record, or bytes that end early or run on.
    BadField = 8,
    // A buffer that is too short.
    ShortBuffer = 9,
    // A tree, trainer or node slice that was not grown.
    NotGrown = 10,
    // A 65th split.
    FullTree = 20,
    // Another kind of answer than the phase wants, or training is done.
    NotAsked = 21,
    // No rule for an ack.
    NoRule = 22,
    // A tally that reaches a leaf with the total already 2^53.
    FullTally = 23,
    // Nothing to take back: no split was made.
    NoSplit = 24,
    // A trace of another length or version than it says, or that is not whole events.
    BadTrace = 25,
    // A generator whose state is four zeros.
    ZeroState = 26,
    // New settings that a running training cannot take.
    UnfitSettings = 27,
    // Ranges with a NaN end, or a lowest above its highest.
    BadRanges = 28,
    // A list that is shorter than the leaves found.
    ShortList = 29,
    // No list of splits of a small tree.
    NoSplitList = 30,
}

impl Refusal {
    #[tactic(auto, unfolding(crate::specs::Numbers::number_of))]
    pub fn number(self) -> u32
        ensures { result ≡ number_of self }
    {
        self as u32
    }
}
