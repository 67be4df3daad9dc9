// The list of candidates, as the product of what each axis keeps.
ghost use Rattle.std.specs.Prelude.{◌≡◌, true, ◌<◌, length, get_or, slice_index_or};
ghost use Rattle.remy.specs.Action.{valid_of};
ghost use Rattle.trainer.specs.Settings.{settings_hold};
ghost use Rattle.trainer.specs.Candidates.{candidates_of, pick_of, no_candidate};

use crate::candidates::Candidate;
use crate::settings::Settings;
use remy::action::Action;

fn value_at<T: Copy>(values: &[T], k: usize) -> T
    requires { k < length values.now }
    ensures { result ≡ slice_index_or values.now k result }
{
    values[k]
}

// The candidates of a valid action, by settings that hold.
#[derive(Clone, Copy)]
pub struct Candidates<'a> {
    pub settings: &'a Settings,
    pub action: Action,
    ghost set: { settings_hold settings.now ≡ true },
    ghost valid: { valid_of action ≡ true },
}

impl<'a> Candidates<'a> {
    pub fn len(self) -> u32
        ensures { result ≡ length (candidates_of self.entry.settings.now self.entry.action) }
    {
        let m = self.multiplier_sums().len();
        let i = self.increment_sums().len();
        let d = self.delay_sums().len();
        (m * (i * d)) as u32
    }

    // host_lists has this over slices that it computes once for a whole row of candidates.
    // The list's length with candidate k, if there is one: of the axes the multiplier's is outermost.
    pub fn pick(self, k: u32) -> Candidate
        ensures { result ≡ pick_of (candidates_of self.entry.settings.now self.entry.action) k }
    {
        let m = self.multiplier_sums();
        let i = self.increment_sums();
        let d = self.delay_sums();
        let each = i.len() * d.len();
        let length = m.len() * each;
        let k = k as usize;
        if k >= length {
            return Candidate {
                length: length as u32,
                action: None,
            };
        }
        let rest = k % each;
        let multiplier = value_at(m.as_slice(), k / each);
        let increment = value_at(i.as_slice(), rest / d.len());
        let delay = value_at(d.as_slice(), rest % d.len());
        Candidate {
            length: length as u32,
            action: Some(Action::new(multiplier, increment, delay)),
        }
    }

    pub fn at(self, k: u16) -> Action
        requires { k < length (candidates_of self.settings.now self.action) }
        ensures { result ≡ get_or (candidates_of self.entry.settings.now self.entry.action) k no_candidate }
    {
        self.pick(u32::from(k)).action.unwrap()
    }
}
