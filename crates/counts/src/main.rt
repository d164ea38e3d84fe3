// The counts program: standard input, at most one byte more than is admitted, through `counts_text::run` to
// standard output (rules 10.1 and 10.9).
#![tactic(auto)]

fn main() {
    let mut input = [0u8; 65537];
    let got = io::read_full(0, &mut input);
    let mut out = [0u8; 16384];
    let written = counts_text::run(&input[..got], &mut out);
    let _ok = io::write_all(1, &out[..written]);
}
