// Every small tree in turn: the lists of at most three splits, shorter first and then by their node numbers.
#![tactic(auto)]

ghost use Rattle.std.specs.Prelude.{◌≡◌, ◌≢◌, [], ◌∷◌, ◌<◌, ◌≤◌, Ok, length, MatchResult};
ghost use Rattle.refusal.specs.declared.Refusal.TheVariants.{NoSplitList};
ghost use Rattle.small_trees.specs.Held.{held_of};
ghost use Rattle.small_trees.specs.Calls.{next_of};

use refusal::Refusal;
use std::marker::Model;

// The most splits of a list.
pub const MOST_LISTED: u32 = 3;

// A list of at most three splits, each of a node that is a leaf then: the first count of the three. An ArrayVec of them would not be Copy.
#[derive(Clone, Copy)]
pub struct SplitList {
    splits: [u16; 3],
    count: u16,
}

impl Model for SplitList {
    ghost use Rattle.std.specs.Prelude.{ℕ, List, length, take};
    ghost use Rattle.small_trees.specs.Held.{Packed, unpacked, count_back, splits_back};

    ghost Value = { List ℕ };

    ghost view = { λ s. take s.count s.splits };

    // Zeros behind: so the list gives the fields back, and a list of splits may be copied.
    ghost invariant = { λ s. Packed s.splits s.count };

    ghost inverse = { λ l. record { splits = unpacked l; count = length l } };

    ghost inverse_ok = { λ s h j. record { splits = splits_back s.splits s.count h j; count = count_back s.splits s.count h j } };
}

impl SplitList {
    fn of(splits: &[u16]) -> Self
        requires { length splits.now ≤ 3 }
        ensures { result ≡ splits.now }
    {
        let mut list = [0; 3];
        list[..splits.len()].copy_from_slice(splits);
        SplitList {
            splits: list,
            count: splits.len() as u16,
        }
    }

    // The list of these splits, where they are at most three; which nodes they name is not looked at.
    #[tactic(auto, using(std::proofs::lemmas::Bool::Decides::nat_tests))]
    pub fn new(splits: &[u16]) -> Option<Self>
        ensures { result ≡ held_of splits.now }
    {
        if splits.len() > MOST_LISTED as usize {
            return None;
        }
        Some(SplitList::of(splits))
    }

    // The list of no split.
    pub fn empty() -> Self
        ensures { result ≡ [] }
    {
        SplitList::of(&[])
    }

    pub fn as_slice(&self) -> &[u16]
        ensures { (result.now ≡ self.now) × (length self.now ≤ 3) }
    {
        &self.splits[..self.count as usize]
    }
}

// How many splits the lists have at most.
#[derive(Clone, Copy)]
struct Most {
    n: u32,
    ghost few: { n ≤ 3 },
}

impl Most {
    fn of(n: u32) -> Result<Most, Refusal>
        ensures { MatchResult result (λ most. most.n ≡ n) (λ e. (e ≡ NoSplitList) × (3 < n)) }
    {
        if MOST_LISTED < n {
            return Err(Refusal::NoSplitList);
        }
        Ok(Most { n })
    }

    // After [].
    #[tactic(auto, using(crate::proofs::Ways::none_last, crate::proofs::Ways::none_next))]
    fn after_none(self) -> Result<Option<SplitList>, Refusal>
        ensures { result ≡ next_of self.n [] }
    {
        if self.n == 0 {
            Ok(None)
        } else {
            Ok(Some(SplitList::of(&[0])))
        }
    }

    // After [0].
    #[tactic(auto, using(crate::proofs::Ways::one_short, crate::proofs::Ways::one_last, crate::proofs::Ways::one_next))]
    fn after_one(self) -> Result<Option<SplitList>, Refusal>
        ensures { result ≡ next_of self.n (0 ∷ []) }
    {
        match self.n {
            0 => Err(Refusal::NoSplitList),
            1 => Ok(None),
            _ => Ok(Some(SplitList::of(&[0, 1]))),
        }
    }

    // After [0, a].
    #[tactic(auto, using(crate::proofs::Ways::two_up, crate::proofs::Ways::two_last, crate::proofs::Ways::two_over, crate::proofs::Ways::two_refused))]
    fn after_two(self, a: u16) -> Result<Option<SplitList>, Refusal>
        ensures { result ≡ next_of self.n (0 ∷ a ∷ []) }
    {
        match (self.n, a) {
            (2..=3, 1..=7) => Ok(Some(SplitList::of(&[0, a + 1]))),
            (2, 8) => Ok(None),
            (3, 8) => Ok(Some(SplitList::of(&[0, 1, 2]))),
            _ => Err(Refusal::NoSplitList),
        }
    }

    // After [0, a, b].
    #[tactic(auto, using(crate::proofs::Ways::three_refused))]
    fn after_three(self, a: u16, b: u16) -> Result<Option<SplitList>, Refusal>
        ensures { result ≡ next_of self.n (0 ∷ a ∷ b ∷ []) }
    {
        match (self.n, a, b) {
            (3, 1..=8, 1..=16) if a != b => Ok(after_leaf(a, b)),
            _ => Err(Refusal::NoSplitList),
        }
    }
}

// After [0, a, b] of the leaves that there are.
#[tactic(auto, using(crate::proofs::Ways::leaf_over, crate::proofs::Ways::leaf_up, crate::proofs::Ways::leaf_row, crate::proofs::Ways::leaf_last))]
fn after_leaf(a: u16, b: u16) -> Option<SplitList>
    requires { (1 ≤ a) × (a ≤ 8) × (1 ≤ b) × (b ≤ 16) × (a ≢ b) }
    ensures { Ok result ≡ next_of 3 (0 ∷ a ∷ b ∷ []) }
{
    if b + 1 == a {
        Some(SplitList::of(&[0, a, b + 2]))
    } else if b < 16 {
        Some(SplitList::of(&[0, a, b + 1]))
    } else if a < 8 {
        Some(SplitList::of(&[0, a + 1, 1]))
    } else {
        None
    }
}

// The list after this one among those of at most n splits; none after the last.
#[tactic(auto, using(crate::proofs::Tables::next_above))]
pub fn next(n: u32, list: &[u16]) -> Result<Option<SplitList>, Refusal>
    ensures { result ≡ next_of n list.now }
{
    let most = Most::of(n)?;
    match list {
        [] => most.after_none(),
        [0] => most.after_one(),
        [0, a] => most.after_two(*a),
        [0, a, b] => most.after_three(*a, *b),
        _ => Err(Refusal::NoSplitList),
    }
}
