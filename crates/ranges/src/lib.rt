// Memory known only within ranges: the leaves that some point within them reaches.
#![tactic(auto)]

ghost use Rattle.std.specs.Prelude.{◌≡◌};
ghost use Rattle.std.specs.Float.Ieee.{le};
ghost use Rattle.ranges.specs.Ranges.{meets, ordered_of, reachable, leaves_of, list_after};

use refusal::Refusal;
use remy::cube::Cube;
use rule_tree::RuleTree;
use rule_tree::inner::grown::Grown;

pub mod inner;

// One axis, known to lie between a lowest and a highest value, both counted.
#[derive(Clone, Copy)]
pub struct Range {
    pub lowest: f64,
    pub highest: f64,
}

#[derive(Clone, Copy)]
pub struct Ranges {
    pub ack_ewma: Range,
    pub send_ewma: Range,
    pub rtt_ratio: Range,
}

impl Range {
    // No end is NaN, and the lowest is not above the highest.
    pub fn ordered(self) -> bool
        ensures { result ≡ le self.lowest self.highest }
    {
        self.lowest <= self.highest
    }

    // Some value of the range is in min..max, max left out.
    pub fn meets(self, min: f64, max: f64) -> bool
        ensures { result ≡ meets self.lowest self.highest min max }
    {
        self.lowest < max && min <= self.highest && min < max
    }
}

impl Ranges {
    pub fn ordered(self) -> bool
        ensures { result ≡ ordered_of self }
    {
        self.ack_ewma.ordered() && self.send_ewma.ordered() && self.rtt_ratio.ordered()
    }

    // Some point within the ranges is in the cube.
    #[tactic(auto, unfolding(crate::specs::Ranges::reachable))]
    pub fn reach(self, c: Cube) -> bool
        ensures { result ≡ reachable c self }
    {
        self.ack_ewma.meets(c.min.ack_ewma.0, c.max.ack_ewma.0)
            && self.send_ewma.meets(c.min.send_ewma.0, c.max.send_ewma.0)
            && self.rtt_ratio.meets(c.min.rtt_ratio, c.max.rtt_ratio)
    }
}

// The leaves that some point within the ranges reaches, by rising node, in the first places of the list; their number.
#[tactic(auto, unfolding(crate::specs::Ranges::leaves_of, crate::specs::Ranges::list_after, refusal::specs::Guards::pass))]
pub fn leaves_within(tree: RuleTree, r: Ranges, list: &mut [u16]) -> Result<u16, Refusal>
    ensures answer { result ≡ leaves_of tree r list.old }
    ensures list { list.new ≡ list_after tree r list.old }
{
    let tree = Grown::of(&tree)?;
    if !r.ordered() {
        return Err(Refusal::BadRanges);
    }
    let found = inner::found_in(tree, r);
    let n = found.len();
    if list.len() < n {
        return Err(Refusal::ShortList);
    }
    list[..n].copy_from_slice(found.as_slice());
    Ok(n as u16)
}
