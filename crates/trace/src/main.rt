// Prints the lines of the record and the trace on standard input: a window or a refusal for each event, or the one refusal of the whole.
#![tactic(auto)]

// An input of more than 49,157 bytes is answered as its first 49,157 are.
fn main() {
    let mut input = [0u8; 49157];
    let n = io::read_full(0, &mut input);
    let mut out = [0u8; 180191];
    let size = trace_lines::printed(&input[..n], &mut out);
    io::write_all(1, &out[..size]);
}
