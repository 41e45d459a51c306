// Reads one line from standard input, as `rmap 4096 1000`: a tree, a block size and a number of records. Prints how many blocks each level of
// such a tree has and how many there are in all, or why there is no plan.
#![tactic(auto)]

fn main() {
    // A longer input is cut here and prints the same: no line of 48 bytes or more asks for a plan (`CutIsExact` of plan_text's specs/Text.antt).
    let mut input = [0u8; 64];
    let n = io::read_full(0, &mut input);
    let mut out = [0u8; plan_text::text::ROOM];
    let k = plan_text::text::respond(&input[..n], &mut out);
    io::write_all(1, &out[..k]);
}
