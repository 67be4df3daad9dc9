// Every small tree in turn, printed: the split lists from [] on for n of 0 to 3, how many they are, and lists that are refused or the last.
// Printing goes by io's bytes and digits: std's macros lean on two more of the kit's C functions, and nothing more is to be trusted.
#![tactic(auto)]

use small_trees::SplitList;

// What this program prints with. Each has its own: a public function of a library has a contract that gives its answer, and printing has none.
fn say(text: &[u8]) {
    io::write_all(1, text);
}

fn number(n: u64) {
    io::print_decimal(1, n);
}

fn show(list: &[u16]) {
    say(b"list");
    for node in list {
        say(b" ");
        number(u64::from(*node));
    }
    say(b"\n");
}

fn refused(k: u32) {
    say(b"refused ");
    number(u64::from(k));
    say(b"\n");
}

// The lists for n, and their number.
fn walk(n: u32) {
    say(b"n ");
    number(u64::from(n));
    say(b"\n");
    let mut list = SplitList::empty();
    for i in 1..=200 {
        show(list.as_slice());
        match small_trees::next(n, list.as_slice()) {
            Ok(Some(next)) => list = next,
            Ok(None) => {
                number(i);
                say(b" in all\n");
                return;
            }
            Err(refusal) => {
                refused(refusal.number());
                return;
            }
        }
    }
}

fn tell(n: u32, list: &[u16]) {
    match small_trees::next(n, list) {
        Ok(Some(next)) => show(next.as_slice()),
        Ok(None) => say(b"last\n"),
        Err(refusal) => refused(refusal.number()),
    }
}

fn main() {
    for n in 0..=3 {
        walk(n);
    }
    tell(4, &[]);
    tell(3, &[0, 1, 2, 3]);
    tell(2, &[0, 1, 2]);
    tell(3, &[1]);
    tell(3, &[0, 4, 4]);
    tell(3, &[0, 4, 17]);
    tell(3, &[0, 9]);
    tell(3, &[0, 8, 16]);
}
