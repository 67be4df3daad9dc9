// The sender: it remembers its acks, looks its memory up in a rule tree, and paces itself by the action found.
#![tactic(auto)]

ghost use Rattle.std.specs.Prelude.{◌≡◌};
ghost use Rattle.sender.specs.Sender.{new_of, ack_of, send_of, tick_of, event_of, wake_of};
ghost use Rattle.sender.specs.Burst.{burst_of, windows_after, flags_after};

use quantities::{Time, TimeSpan};
use refusal::Refusal;
use remy::action::Action;
use rule_tree::RuleTree;
use rule_tree::inner::grown::Grown;
use rule_tree::inner::rules::Rules;

pub mod inner;

// The shortest and the current round trip.
#[derive(Clone, Copy)]
pub struct Rtt {
    pub shortest: TimeSpan,
    pub current: TimeSpan,
}

// An action that serves the next acks with no lookup, one more than are left.
#[derive(Clone, Copy)]
pub struct Repeat {
    pub left: u32,
    pub action: Action,
}

// How often an action that was looked up is repeated: never, as often always, or as a draw says.
#[derive(Clone, Copy)]
pub enum RepeatMode {
    Off,
    Always(u32),
    Between(u32, u32),
}

// An ack of what was sent at a moment, received at another, with a draw or none.
#[derive(Clone, Copy, Default)]
pub struct Ack {
    pub sent: f64,
    pub received: f64,
    pub draw: Option<u32>,
}

// What happens to a sender: an ack, a send at a moment, or a tick.
#[derive(Clone, Copy)]
pub enum Event {
    Ack(Ack),
    Send(f64),
    Tick,
}

// The last ack, the averages of gaps, which are none while there was no gap, and the round trips, none before the first ack;
// the action that the next acks repeat, if any; and the send that stands, if any. A moment and the average of its gaps are no struct of their own, which
// would be no plainer: an average is read alone, and docs/SCOPE.md lists the fields so.
#[derive(Clone, Copy)]
pub struct Sender {
    pub last_ack: Option<Time>,
    pub last_ack_send: Option<Time>,
    pub ack_ewma: Option<TimeSpan>,
    pub send_ewma: Option<TimeSpan>,
    pub rtt: Option<Rtt>,
    pub next_change: Option<Repeat>,
    pub repeat_actions: RepeatMode,
    pub last_send: Option<Time>,
    pub window: u32,
    pub intersend_delay: TimeSpan,
}

// A sender after a call, with the window that the call answers, and beside it whether its action's window was clipped: no test of the window, which is
// there in any case.
#[derive(Clone, Copy)]
pub struct Held {
    pub sender: Sender,
    pub window: u32,
    pub clipped: bool,
}

// A sender after a burst, how many acks were taken, and the refusal that ended it, if any.
#[derive(Clone, Copy)]
pub struct Ran {
    pub sender: Sender,
    pub taken: usize,
    pub stopped: Option<Refusal>,
}

impl Sender {
    #[tactic(auto, unfolding(crate::specs::Sender::new_of))]
    pub fn new(mode: RepeatMode) -> Result<Sender, Refusal>
        ensures { result ≡ new_of mode }
    {
        if !inner::memory::mode_holds(mode) {
            return Err(Refusal::BadSettings);
        }
        Ok(inner::memory::fresh(mode))
    }

    // An ack of what was sent at a moment, received at another, over a tree, with a draw or none.
    #[tactic(auto, using(crate::proofs::AckEvents::ack_event))]
    pub fn ack_received(
        self,
        tree: RuleTree,
        sent: f64,
        received: f64,
        draw: Option<u32>,
    ) -> Result<Held, Refusal>
        ensures { result ≡ ack_of tree self sent received draw }
    {
        self.event(
            tree,
            Event::Ack(Ack {
                sent,
                received,
                draw,
            }),
        )
    }

    // A packet is sent at a moment.
    #[tactic(auto, unfolding(crate::specs::Sender::send_admitted, crate::specs::Acks::window_in))]
    pub fn packet_sent(self, at: f64) -> Result<Held, Refusal>
        ensures { result ≡ send_of self at }
    {
        let last_send = Some(Time::admit(at)?);
        Ok(Held {
            sender: Sender { last_send, ..self },
            window: 0,
            clipped: false,
        })
    }

    // A tick: no send stands any more.
    pub fn tick(self) -> Held
        ensures { result ≡ tick_of self }
    {
        let sender = Sender {
            last_send: None,
            ..self
        };
        Held {
            sender,
            window: inner::memory::window_now(sender),
            clipped: false,
        }
    }

    // An event, over a tree.
    #[tactic(auto, unfolding(crate::specs::Sender::event_of))]
    pub fn event(self, tree: RuleTree, e: Event) -> Result<Held, Refusal>
        ensures { result ≡ event_of tree self e }
    {
        self.event_by(&Rules::of(Grown::of(&tree)?), e)
    }

    // The acks of a burst one by one, over a tree, up to the first that is refused: the window of each that is taken, and 1 where it
    // was clipped, else 0. A refused burst changes neither list.
    // Windows and flags are lists apart, and flags are bytes, since hosts lend them so.
    #[tactic(auto, unfolding(crate::specs::Burst::burst_of, crate::specs::Burst::windows_after, crate::specs::Burst::flags_after, crate::specs::Burst::room_for))]
    pub fn burst(
        self,
        tree: RuleTree,
        acks: &[Ack],
        windows: &mut [u32],
        clipped: &mut [u8],
    ) -> Result<Ran, Refusal>
        ensures { (result ≡ burst_of tree self acks.now windows.old clipped.old) × (windows.new ≡ windows_after tree self acks.now windows.old result) × (clipped.new ≡ flags_after tree self acks.now clipped.old result) }
    {
        let tree = Grown::of(&tree)?;
        if !inner::burst::fits(acks.len(), windows.len(), clipped.len()) {
            return Err(Refusal::ShortBuffer);
        }
        Ok(inner::burst::run(&Rules::of(tree), self, acks, windows, clipped))
    }

    // When the sender next wants a tick, never while no send stands.
    #[tactic(auto, unfolding(crate::specs::Sender::wake_admitted, crate::specs::Sender::wake_in))]
    pub fn next_tick(self, now: f64) -> Result<Option<Time>, Refusal>
        ensures { result ≡ wake_of self now }
    {
        let t = Time::admit(now)?;
        let wait = self.intersend_delay;
        Ok(self.last_send.map(|sent| t.later(sent + wait)))
    }
}
