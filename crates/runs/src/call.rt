// The calls of a script.
ghost use Rattle.std.specs.Prelude.{◌≡◌, ◌≤◌, length, MatchOption};

use remy::point::Point;
use sender::Event;
use trainer::settings::Settings;

// The most bytes that a reload's buffer has.
pub(crate) const MOST_BYTES: usize = 32768;

// A reload's buffer, a word for each byte.
#[derive(Clone, Copy)]
pub(crate) struct Buffer<'a> {
    pub(crate) words: &'a [u64],
    ghost few: { length words.now ≤ 32768 },
}

impl<'a> Buffer<'a> {
    pub(crate) fn of(words: &'a [u64]) -> Option<Buffer<'a>>
        ensures { MatchOption result (32769 ≤ length words.now) (λ b. (b.words.now ≡ words.now) × (length words.now ≤ 32768)) }
    {
        if words.len() > MOST_BYTES {
            return None;
        }
        Some(Buffer { words })
    }
}

#[derive(Clone, Copy)]
pub(crate) enum TrainerCall<'a> {
    Counts(&'a [u64]),
    Score(f64),
    // A save into the buffer, and a load of the bytes that were written.
    Reload(Buffer<'a>),
    Change(Settings),
}

// A call to the trainer, an event of the sender, or a lookup in the trainer's tree.
#[derive(Clone, Copy)]
pub(crate) enum Call<'a> {
    Train(TrainerCall<'a>),
    React(Event),
    Look(Point),
}
