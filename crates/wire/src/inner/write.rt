// Stores from a place on. What is not written stays.
ghost use Rattle.std.specs.Prelude.{◌≡◌, ◌+◌, ◌*◌, ◌≤◌, length};
ghost use Rattle.std.proofs.lemmas.List.Edits.{sets};
ghost use Rattle.wire.specs.Bytes.{bytes_of, shorts_bytes, flag_byte};
ghost use Rattle.wire.specs.Fields.{action_bytes, point_bytes};

use remy::action::Action;
use remy::point::Point;

// x in n bytes from place at on, the highest first. No `to_be_bytes`: it gives eight bytes, and n is the caller's.
pub fn put(buf: &mut [u8], at: usize, n: usize, x: u64)
    requires { at + n ≤ length buf.old }
    ensures { buf.new ≡ sets buf.old at (bytes_of n x) }
{
    let mut rest = x;
    for i in (0..n).rev() {
        buf[at + i] = (rest % 256) as u8;
        rest /= 256;
    }
}

// Numbers of two bytes each, one after the other.
#[tactic(auto, using(crate::proofs::Stores::list_none, crate::proofs::Stores::list_turn, std::proofs::lemmas::List::take_all))]
pub fn put_list(buf: &mut [u8], at: usize, numbers: &[u16])
    requires { at + 2 * length numbers.now ≤ length buf.old }
    ensures { buf.new ≡ sets buf.old at (shorts_bytes numbers.now) }
{
    for (k, x) in numbers.iter().enumerate() {
        put(buf, at + 2 * k, 2, u64::from(*x));
    }
}

pub fn flag_of(b: bool) -> u8
    ensures { result ≡ flag_byte b }
{
    u8::from(b)
}

// An action and a point are two layouts, of three fields each: an action's increment has four bytes.
pub fn put_action(buf: &mut [u8], at: usize, a: Action)
    requires { at + 20 ≤ length buf.old }
    ensures { buf.new ≡ sets buf.old at (action_bytes a) }
{
    let multiplier = floats::to_bits(a.window_multiplier);
    let increment = a.window_increment.cast_unsigned();
    let delay = floats::to_bits(a.intersend_delay.0);
    put(buf, at, 8, multiplier);
    put(buf, at + 8, 4, u64::from(increment));
    put(buf, at + 12, 8, delay);
}

pub fn put_point(buf: &mut [u8], at: usize, p: Point)
    requires { at + 24 ≤ length buf.old }
    ensures { buf.new ≡ sets buf.old at (point_bytes p) }
{
    let ack = floats::to_bits(p.ack_ewma.0);
    let send = floats::to_bits(p.send_ewma.0);
    let ratio = floats::to_bits(p.rtt_ratio);
    put(buf, at, 8, ack);
    put(buf, at + 8, 8, send);
    put(buf, at + 16, 8, ratio);
}
