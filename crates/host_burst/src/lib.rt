// A burst of acks for hosts: a sender kept in 108 bytes, acks in 21 bytes each, a window in four bytes and a flag in one.
#![tactic(auto)]

ghost use Rattle.std.specs.Prelude.{◌≡◌, ◌+◌, ◌*◌, ◌≤◌, length};
ghost use Rattle.std.proofs.lemmas.List.Edits.{sets};
ghost use Rattle.host_burst.specs.Bursts.{ack_count, acks_of, stop_number, windows_bytes, fits, given_in, sender_on, windows_on, flags_on, burst_in, sender_left, windows_left, flags_left};
ghost use Rattle.host_burst.specs.Parts.{Fit, Given};

use arrayvec::ArrayVec;
use host_sender::inner::read::read_sender;
use host_sender::inner::run::ack_at;
use host_sender::inner::write::{SENDER_SIZE, write_sender};
use refusal::Refusal;
use rule_tree::inner::grown::Grown;
use rule_tree::inner::rules::Rules;
use sender::Ack;
use sender::inner::burst;
use wire::inner::write::put;

// The bytes of an ack, and the most acks of a burst.
const ACK_SIZE: usize = 21;

const MOST: usize = 256;

// The acks of the list.
#[tactic(auto, using(crate::proofs::Gathering::none, crate::proofs::Gathering::one_more))]
fn acks_in(list: &[u8]) -> ArrayVec<Ack, MOST>
    requires { ack_count list.now ≤ 256 }
    ensures { result.items ≡ acks_of list.now }
{
    let mut acks = ArrayVec::new();
    for i in 0..list.len() / ACK_SIZE {
        acks.push(ack_at(list, ACK_SIZE * i));
    }
    acks
}

// A window in four bytes. No function for these and for wire's numbers of two bytes: it would take a trait of the two types for this one line.
#[tactic(auto, using(crate::proofs::Writing::none, crate::proofs::Writing::turn, std::proofs::lemmas::List::take_all))]
fn put_windows(out: &mut [u8], windows: &[u32])
    requires { 4 * length windows.now ≤ length out.old }
    ensures { out.new ≡ sets out.old 0 (windows_bytes windows.now) }
{
    for (i, window) in windows.iter().enumerate() {
        put(out, 4 * i, 4, u64::from(*window));
    }
}

// At most 256 acks, and four bytes of windows and a flag for each.
#[tactic(auto, using(crate::proofs::Lengths::has_room))]
fn has_room(n: usize, windows: usize, clipped: usize) -> bool
    ensures { result ≡ fits n windows clipped }
{
    burst::fits(n, windows / 4, clipped)
}

// How many were taken, and in the bits above them the number of the refusal that stopped it: one number, as the C interface has it.
#[tactic(auto, unfolding(crate::specs::Bursts::stop_number))]
fn answer(stopped: Option<Refusal>, taken: usize) -> usize
    requires { taken ≤ 256 }
    ensures { result ≡ stop_number stopped * 4294967296 + taken }
{
    let number = stopped.map_or(0, Refusal::number);
    (number as usize) * 4294967296 + taken
}

// The acks over a tree that was tested, where the lengths fit.
fn give(
    tree: Grown<'_>,
    sender: &mut [u8],
    list: &[u8],
    windows: &mut [u8],
    clipped: &mut [u8],
) -> usize
    requires { Fit (length sender.old) (length list.now) (length windows.old) (length clipped.old) }
    ensures { Given tree.entry.tree.now sender.old list.now windows.old clipped.old result sender.new windows.new clipped.new }
{
    let acks = acks_in(list);
    // The project's fixed memory: the windows of any burst as numbers, before their bytes.
    let mut ws = [0u32; MOST];
    let ran = burst::run(
        &Rules::of(tree),
        read_sender(sender),
        acks.as_slice(),
        &mut ws,
        clipped,
    );
    put_windows(windows, &ws[..ran.taken]);
    write_sender(sender, ran.sender);
    answer(ran.stopped, ran.taken)
}

// The acks over a tree that was tested. A refused call writes nothing.
#[tactic(auto, unfolding(crate::specs::Bursts::given_in, crate::specs::Bursts::sender_on, crate::specs::Bursts::windows_on, crate::specs::Bursts::flags_on))]
fn burst_on(
    tree: Grown<'_>,
    sender: &mut [u8],
    list: &[u8],
    windows: &mut [u8],
    clipped: &mut [u8],
) -> Result<usize, Refusal>
    ensures { let t = tree.entry.tree.now in (result ≡ given_in t sender.old list.now windows.old clipped.old) × (sender.new ≡ sender_on t sender.old list.now windows.old clipped.old) × (windows.new ≡ windows_on t sender.old list.now windows.old clipped.old) × (clipped.new ≡ flags_on t sender.old list.now windows.old clipped.old) }
{
    if sender.len() != SENDER_SIZE {
        return Err(Refusal::BadLength);
    }
    if list.len() % ACK_SIZE != 0 {
        return Err(Refusal::BadLength);
    }
    if !has_room(list.len() / ACK_SIZE, windows.len(), clipped.len()) {
        return Err(Refusal::ShortBuffer);
    }
    Ok(give(tree, sender, list, windows, clipped))
}

// Gives the acks of the list to the sender one by one, up to the first that is refused. It answers how many were taken, plus 2^32 times the
// number of the refusal that stopped it. A refused call writes nothing.
#[tactic(auto, using(record::proofs::Loaded::loaded_grown, record::proofs::Loaded::loaded_few))]
pub fn burst(
    held: &[u8],
    sender: &mut [u8],
    list: &[u8],
    windows: &mut [u8],
    clipped: &mut [u8],
) -> Result<usize, Refusal>
    ensures { (result ≡ burst_in held.now sender.old list.now windows.old clipped.old) × (sender.new ≡ sender_left held.now sender.old list.now windows.old clipped.old) × (windows.new ≡ windows_left held.now sender.old list.now windows.old clipped.old) × (clipped.new ≡ flags_left held.now sender.old list.now windows.old clipped.old) }
{
    let t = record::load(held)?;
    burst_on(Grown { tree: &t.tree }, sender, list, windows, clipped)
}
