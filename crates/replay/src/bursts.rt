// A burst of acks, and the line of what it did.
use crate::calls::Replay;
use crate::lines::Listed;
use host_sender::inner::run::ack_at;
use refusal::Refusal;
use sender::Ack;
use wire::inner::read::short_at;

// The bytes of an ack, and the most acks that a script gives at once.
pub(crate) const ACK_SIZE: usize = 21;

pub(crate) const MOST_ACKS: usize = 600;

// The acks, in an array with room for any burst. host_burst has its like, for 256 of them, with a contract of which they are.
fn acks_at(list: &[u8]) -> [Ack; MOST_ACKS] {
    let none = Ack {
        sent: 0.0,
        received: 0.0,
        draw: None,
    };
    let mut acks = [none; MOST_ACKS];
    for (ack, bytes) in acks.iter_mut().zip(list.chunks_exact(ACK_SIZE)) {
        *ack = ack_at(bytes, 0);
    }
    acks
}

impl Replay {
    // What follows the acks says how long the lent lists are. Longer ones than any burst needs are lent as ones of that length.
    pub(crate) fn burst(&mut self, list: &[u8]) -> Result<(), Refusal> {
        let n = (list.len() / ACK_SIZE).min(MOST_ACKS);
        let lent = usize::from(short_at(list, ACK_SIZE * n)).min(MOST_ACKS);
        let acks = acks_at(list);
        // Lists apart, and flags as bytes, since a burst is lent them so.
        let mut windows = [0u32; MOST_ACKS];
        let mut clipped = [0u8; MOST_ACKS];
        let ran = self.sender.burst(
            self.trainer.tree,
            &acks[..n],
            &mut windows[..lent],
            &mut clipped[..lent],
        )?;
        self.sender = ran.sender;
        let stopped = ran.stopped.map_or(0, Refusal::number);
        let k = ran.taken.min(MOST_ACKS);
        let windows = Listed(&windows[..k]);
        self.out
            .line(format_args!("burst {} {stopped}{windows}", ran.taken));
        Ok(())
    }
}
