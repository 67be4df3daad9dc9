// Words put into a lent slice one after the other, as many as it has room for, and the words that stand for a value.
ghost use Rattle.std.specs.Prelude.{◌≡◌, ◌≤◌, length, Option};
ghost use Rattle.runs.specs.SenderWords.{action_words, mode_words, number_words, trip_words, pending_words};
ghost use Rattle.runs.specs.Ran.{number_or_0};

use quantities::Time;
use refusal::Refusal;
use remy::action::Action;
use sender::{Held, Repeat, RepeatMode, Rtt, Sender};
use trainer::Question;
use wire::inner::write::flag_of;

// A refusal's number, or 0.
pub(crate) fn of_refusal(refusal: Option<Refusal>) -> u64
    ensures { result ≡ number_or_0 refusal }
{
    refusal.map_or(0, |r| u64::from(r.number()))
}

fn of_action(a: Action) -> [u64; 3]
    ensures { result ≡ action_words a }
{
    [
        floats::to_bits(a.window_multiplier),
        u64::from(a.window_increment.cast_unsigned()),
        floats::to_bits(a.intersend_delay.0),
    ]
}

#[tactic(auto, unfolding(crate::specs::SenderWords::mode_words))]
fn of_mode(mode: RepeatMode) -> [u64; 3]
    ensures { result ≡ mode_words mode }
{
    match mode {
        RepeatMode::Off => [0, 0, 0],
        RepeatMode::Always(n) => [1, u64::from(n), 0],
        RepeatMode::Between(lo, hi) => [2, u64::from(lo), u64::from(hi)],
    }
}

// A moment's or a span's seconds, if there is one.
#[tactic(auto, unfolding(crate::specs::SenderWords::number_words))]
fn of_number(seconds: Option<f64>) -> [u64; 2]
    ensures { result ≡ number_words seconds }
{
    match seconds {
        Some(x) => [1, floats::to_bits(x)],
        None => [0, 0],
    }
}

#[tactic(auto, unfolding(crate::specs::SenderWords::trip_words))]
fn of_trips(rtt: Option<Rtt>) -> [u64; 3]
    ensures { result ≡ trip_words rtt }
{
    match rtt {
        Some(trips) => [
            1,
            floats::to_bits(trips.shortest.0),
            floats::to_bits(trips.current.0),
        ],
        None => [0, 0, 0],
    }
}

#[tactic(auto, unfolding(crate::specs::SenderWords::pending_words))]
fn of_pending(pending: Option<Repeat>) -> [u64; 5]
    ensures { result ≡ pending_words pending }
{
    let Some(repeat) = pending else {
        return [0, 0, 0, 0, 0];
    };
    let [multiplier, increment, delay] = of_action(repeat.action);
    [1, u64::from(repeat.left), multiplier, increment, delay]
}

// The lent words, and the place of the next one.
#[derive(Drop)]
pub(crate) struct Writer<'a> {
    pub(crate) out: &'a mut [u64],
    pub(crate) at: usize,
    ghost within: { at ≤ length out.now },
}

impl<'a> Writer<'a> {
    ghost use Rattle.std.specs.Prelude.{[], ◌∷◌, Result, Float};
    ghost use Rattle.wire.specs.Bytes.{flag_byte};
    ghost use Rattle.runs.specs.SenderWords.{bits, sender_words};
    ghost use Rattle.runs.specs.Ran.{question_words, looked_words};
    ghost use Rattle.runs.specs.Writing.{Appends};

    pub(crate) fn new(out: &'a mut [u64]) -> Writer<'a>
        ensures same { result.out.ghost_name ≡ out.entry.ghost_name }
        ensures words { result.out.now ≡ out.old }
        ensures first { result.at ≡ 0 }
    {
        Writer { out, at: 0 }
    }

    pub(crate) fn put_all(&mut self, words: &[u64])
        ensures { Appends self.old words.now self.new }
    {
        let n = words.len().min(self.out.len() - self.at);
        let end = self.at + n;
        self.out[self.at..end].copy_from_slice(&words[..n]);
        self.at = end;
    }

    pub(crate) fn put(&mut self, x: u64)
        ensures { Appends self.old (x ∷ []) self.new }
    {
        self.put_all(&[x]);
    }

    // A word for each byte.
    #[tactic(auto, using(crate::proofs::Putting::as_words))]
    pub(crate) fn put_bytes(&mut self, bytes: &[u8])
        ensures { Appends self.old bytes.now self.new }
    {
        for b in bytes {
            self.put(u64::from(*b));
        }
    }

    #[tactic(auto, unfolding(crate::specs::Ran::question_words))]
    pub(crate) fn put_question(&mut self, question: Result<Question, Refusal>)
        ensures { Appends self.old (question_words question) self.new }
    {
        match question {
            Ok(Question::Counts(progress)) => self.put_all(&[1, floats::to_bits(progress)]),
            Ok(Question::Score(leaf, a, progress)) => {
                let [multiplier, increment, delay] = of_action(a);
                let progress = floats::to_bits(progress);
                self.put_all(&[2, u64::from(leaf), multiplier, increment, delay, progress]);
            }
            Ok(Question::Done(progress)) => self.put_all(&[3, floats::to_bits(progress)]),
            Err(_) => {}
        }
    }

    #[tactic(auto, unfolding(crate::specs::Ran::looked_words))]
    pub(crate) fn put_looked(&mut self, found: Result<Option<Action>, Refusal>)
        ensures { Appends self.old (looked_words found) self.new }
    {
        let Ok(Some(a)) = found else {
            self.put(0);
            return;
        };
        let [multiplier, increment, delay] = of_action(a);
        self.put_all(&[1, multiplier, increment, delay]);
    }

    // A refusal's number or 0, the window that is handed back, whether it was clipped, and the wait that is held.
    pub(crate) fn put_reaction(&mut self, refused: Option<Refusal>, held: Held)
        ensures { Appends self.old (number_or_0 refused ∷ (held.window ∷ (flag_byte held.clipped ∷ (bits held.sender.intersend_delay.0 ∷ [])))) self.new }
    {
        let clipped = u64::from(flag_of(held.clipped));
        let wait = floats::to_bits(held.sender.intersend_delay.0);
        self.put_all(&[of_refusal(refused), u64::from(held.window), clipped, wait]);
    }

    // The whole sender, in words. host_sender puts the same fields as bytes, and replay as lines: one walk for all three is no plainer.
    pub(crate) fn put_sender(&mut self, s: Sender)
        ensures { Appends self.old (sender_words s) self.new }
    {
        self.put_all(&of_mode(s.repeat_actions));
        self.put_all(&of_number(s.last_ack.map(Time::held)));
        self.put_all(&of_number(s.last_ack_send.map(Time::held)));
        self.put_all(&of_number(s.ack_ewma.map(|span| span.0)));
        self.put_all(&of_number(s.send_ewma.map(|span| span.0)));
        self.put_all(&of_trips(s.rtt));
        self.put_all(&of_pending(s.next_change));
        self.put_all(&of_number(s.last_send.map(Time::held)));
        self.put_all(&[u64::from(s.window), floats::to_bits(s.intersend_delay.0)]);
    }
}
