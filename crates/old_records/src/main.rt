// Records of versions 1 and 2 on standard input, one after the other: for each a line with its size, the size of what is saved of its trainer,
// which is of version 3, 1 where that loads as a trainer of which the same bytes are saved, and those bytes.
#![tactic(auto)]

use refusal::Refusal;
use wire::inner::read;

fn put_number(n: usize) {
    io::print_decimal(1, n as u64);
    io::write_all(1, b" ");
}

fn put_bytes(bytes: &[u8]) {
    for b in bytes {
        io::print_hex(1, u64::from(*b), 2);
    }
    io::write_all(1, b"\n");
}

// The bytes that are saved of the trainer of a record, into lent ones; of a refused one none.
fn saved_of<'a>(record: &[u8], out: &'a mut [u8]) -> &'a [u8] {
    let saved = record::load(record).and_then(|trainer| record::save(trainer, out));
    let n = saved.unwrap_or(0).min(out.len());
    &out[..n]
}

// The line of a record.
fn line(record: &[u8]) {
    let mut out = io::large_buffer();
    let saved = saved_of(record, &mut out);
    let mut again = io::large_buffer();
    put_number(record.len());
    put_number(saved.len());
    put_number(usize::from(saved_of(saved, &mut again) == saved));
    put_bytes(saved);
}

// The next record, by its own length. Whether there was one.
fn next(bytes: &mut [u8; 65536]) -> bool {
    if io::read_full(0, &mut bytes[..4]) < 4 {
        return false;
    }
    let n = read::word_at(bytes, 0) as usize;
    let end = (4 + n).min(bytes.len());
    io::read_full(0, &mut bytes[4..end]);
    line(&bytes[..end]);
    true
}

// At most 1000 records, so that the loop ends whatever is read.
fn main() {
    let mut bytes = io::large_buffer();
    for _ in 0..1000 {
        if !next(&mut bytes) {
            return;
        }
    }
}
