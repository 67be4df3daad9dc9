// Prints the panel's lines of the record and the counts on standard input, or the refusal's number.
#![tactic(auto)]

// An input of more than 20,493 bytes is answered as its first 20,493 are.
#[tactic(auto, using(panel_lines::proofs::PanelLaws::size_inside))]
fn main() {
    let mut input = [0u8; 20493];
    let n = io::read_full(0, &mut input);
    let mut out = [0u8; 8192];
    match panel_lines::panel(&input[..n], &mut out) {
        Ok(size) => {
            let (lines, _) = out.split_at(size);
            io::write_all(1, lines);
        }
        Err(refusal) => {
            io::write_all(1, b"refused ");
            io::print_decimal(1, u64::from(refusal.number()));
            io::write_all(1, b"\n");
        }
    }
}
