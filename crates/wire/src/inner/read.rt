// What stands at a place; what lies past the end reads as no bytes.
ghost use Rattle.std.specs.Prelude.{◌≡◌, ℕ, ◌*◌, ◌^◌, ◌≤◌, ◌<◌, get_or, take, drop};
ghost use Rattle.wire.specs.Bytes.{number_at};
ghost use Rattle.wire.specs.Fields.{float_at, action_at, flag_at, point_at};

use remy::action::Action;
use remy::point::Point;

// The n bytes from place at on, or as many of them as there are.
fn field(bytes: &[u8], at: usize, n: usize) -> &[u8]
    ensures { result.now ≡ take n (drop at bytes.now) }
{
    let rest = &bytes[at.min(bytes.len())..];
    &rest[..n.min(rest.len())]
}

// The number in n bytes from place at on. Bytes that end early stand for a shorter number; eight are a word, which is read at once.
pub fn number_at(bytes: &[u8], at: usize, n: usize) -> u64
    requires { n ≤ 8 }
    ensures { (result ≡ number_at bytes.now at n) × (result < 256 ^ n) }
{
    let field = field(bytes, at, n);
    if let [a, b, c, d, e, f, g, h] = field {
        return u64::from_be_bytes([*a, *b, *c, *d, *e, *f, *g, *h]);
    }
    let mut x: u64 = 0;
    for b in field {
        x = x * 256 + u64::from(*b);
    }
    x
}

pub fn byte_at(bytes: &[u8], at: usize) -> u8
    ensures { result ≡ get_or bytes.now at 0 }
{
    bytes.get(at).copied().unwrap_or(0)
}

pub fn flag_at(bytes: &[u8], at: usize) -> bool
    ensures { result ≡ flag_at bytes.now at }
{
    byte_at(bytes, at) == 1
}

// A number in two bytes, in four, and a float in eight: one function each, since each has a type of its own to give.
pub fn short_at(bytes: &[u8], at: usize) -> u16
    ensures { result ≡ number_at bytes.now at 2 }
{
    number_at(bytes, at, 2) as u16
}

pub fn word_at(bytes: &[u8], at: usize) -> u32
    ensures { result ≡ number_at bytes.now at 4 }
{
    number_at(bytes, at, 4) as u32
}

// The first n numbers of eight bytes each. The project's fixed memory: an array of N, of which the caller takes the first n.
pub fn counts_at<const N: usize>(bytes: &[u8], n: usize) -> [u64; N]
    requires { n ≤ N }
    ensures { (i : ℕ) → i < n → get_or result i 0 ≡ number_at bytes.now (8 * i) 8 }
{
    let mut counts = [0; N];
    for i in 0..n {
        counts[i] = number_at(bytes, 8 * i, 8);
    }
    counts
}

pub fn float_at(bytes: &[u8], at: usize) -> f64
    ensures { result ≡ float_at bytes.now at }
{
    floats::from_bits(number_at(bytes, at, 8))
}

pub fn action_at(bytes: &[u8], at: usize) -> Action
    requires { at ≤ 65000 }
    ensures { result ≡ action_at bytes.now at }
{
    let multiplier = float_at(bytes, at);
    let increment = word_at(bytes, at + 8).cast_signed();
    let delay = float_at(bytes, at + 12);
    Action::new(multiplier, increment, delay)
}

pub fn point_at(bytes: &[u8], at: usize) -> Point
    requires { at ≤ 65000 }
    ensures { result ≡ point_at bytes.now at }
{
    let ack = float_at(bytes, at);
    let send = float_at(bytes, at + 8);
    let ratio = float_at(bytes, at + 16);
    Point::new(ack, send, ratio)
}
