// A short script of calls with the settings of the Rust's default trainer. The words that are compared, one a line.
#![tactic(auto)]

// Words by place, as a driver hands them in. Calls by name that are then made words are no plainer: what is read here is the words.
const SCRIPT: [u64; 173] = [
    // rule_splits, rounds, multiplier, drill
    12,
    2,
    4,
    1,
    // min action
    0,
    0,
    0x3f30_624d_d2f1_a9fc,
    // max action
    0x3ff0_0000_0000_0000,
    256,
    0x3f68_9374_bc6a_7efa,
    // initial change
    0x3f84_7ae1_47ae_147b,
    1,
    0x3f0a_36e2_eb1c_432d,
    // max change
    0x3fe0_0000_0000_0000,
    32,
    0x3f50_624d_d2f1_a9fc,
    // default action
    0x3ff0_0000_0000_0000,
    1,
    0x3f68_9374_bc6a_7efa,
    // a fresh sender
    0,
    // repeats: a draw of 0..=3
    2,
    0,
    3,
    // what a sender handed in would hold
    0,
    0,
    0,
    0,
    0,
    0,
    0,
    0,
    0,
    0,
    0,
    0,
    0,
    0,
    0,
    0,
    0,
    0,
    0,
    0,
    // the usual upper ends
    0x4082_c000_0000_0000,
    0x4082_c000_0000_0000,
    0x408f_4000_0000_0000,
    // counts: the leaf is taken
    1,
    1,
    5,
    // counts again: refused with 21
    1,
    1,
    5,
    // a score
    2,
    0x3fe0_0000_0000_0000,
    // new settings with another default action: the candidates are dropped
    15,
    12,
    3,
    2,
    0,
    0,
    0,
    0x3f30_624d_d2f1_a9fc,
    0x3ff0_0000_0000_0000,
    256,
    0x3f68_9374_bc6a_7efa,
    0x3f84_7ae1_47ae_147b,
    1,
    0x3f0a_36e2_eb1c_432d,
    0x3fe0_0000_0000_0000,
    32,
    0x3f50_624d_d2f1_a9fc,
    0x3fe0_0000_0000_0000,
    3,
    0x3f50_624d_d2f1_a9fc,
    0x4082_c000_0000_0000,
    0x4082_c000_0000_0000,
    0x408f_4000_0000_0000,
    // a multiplier of 1 and another end: refused with 2
    15,
    12,
    3,
    1,
    0,
    0,
    0,
    0x3f30_624d_d2f1_a9fc,
    0x3ff0_0000_0000_0000,
    256,
    0x3f68_9374_bc6a_7efa,
    0x3f84_7ae1_47ae_147b,
    1,
    0x3f0a_36e2_eb1c_432d,
    0x3fe0_0000_0000_0000,
    32,
    0x3f50_624d_d2f1_a9fc,
    0x3fe0_0000_0000_0000,
    3,
    0x3f50_624d_d2f1_a9fc,
    0x4082_c800_0000_0000,
    0x4082_c000_0000_0000,
    0x408f_4000_0000_0000,
    // another end: refused with 27
    15,
    12,
    3,
    2,
    0,
    0,
    0,
    0x3f30_624d_d2f1_a9fc,
    0x3ff0_0000_0000_0000,
    256,
    0x3f68_9374_bc6a_7efa,
    0x3f84_7ae1_47ae_147b,
    1,
    0x3f0a_36e2_eb1c_432d,
    0x3fe0_0000_0000_0000,
    32,
    0x3f50_624d_d2f1_a9fc,
    0x3fe0_0000_0000_0000,
    3,
    0x3f50_624d_d2f1_a9fc,
    0x4082_c800_0000_0000,
    0x4082_c000_0000_0000,
    0x408f_4000_0000_0000,
    // no rounds: refused with 27
    15,
    12,
    0,
    2,
    0,
    0,
    0,
    0x3f30_624d_d2f1_a9fc,
    0x3ff0_0000_0000_0000,
    256,
    0x3f68_9374_bc6a_7efa,
    0x3f84_7ae1_47ae_147b,
    1,
    0x3f0a_36e2_eb1c_432d,
    0x3fe0_0000_0000_0000,
    32,
    0x3f50_624d_d2f1_a9fc,
    0x3fe0_0000_0000_0000,
    3,
    0x3f50_624d_d2f1_a9fc,
    0x4082_c000_0000_0000,
    0x4082_c000_0000_0000,
    0x408f_4000_0000_0000,
    // the score of the leaf's own action once more
    2,
    0x3fe0_0000_0000_0000,
    // a reload by two bytes: refused with 9
    3,
    2,
    7,
    8,
    // an ack with the draw 2
    4,
    0x3ff0_0000_0000_0000,
    0x3ff4_0000_0000_0000,
    2,
    // an ack by the repeat, with no draw
    4,
    0x3ff8_0000_0000_0000,
    0x3ff4_0000_0000_0000,
    18446744073709551615,
    // a send
    5,
    0x4000_0000_0000_0000,
    // a tick
    6,
    // a lookup inside the root box
    8,
    0x4072_c000_0000_0000,
    0,
    0,
    // a lookup outside
    8,
    0,
    0,
    0x408f_4000_0000_0000,
    // a reload by a buffer that is too long: here the list ends
    3,
    32769,
];

fn print_words(words: &[u64]) {
    for x in words {
        io::print_decimal(1, *x);
        io::write_all(1, b"\n");
    }
}

fn main() {
    let script = SCRIPT;
    let mut out = [0u64; 1024];
    let n = runs::run(&script, &mut out);
    print_words(&out[0..n]);
}
