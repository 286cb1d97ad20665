// The survey program (rules I1 to I6): triangles and rays from standard input, one line for each ray to standard output.
// It reads, calls `report::survey` and writes. The largest legal input has 28,808 bytes; one byte more is read, so that overlong input shows.
#![tactic(auto)]

fn main() {
    let mut input = [0u8; 28809];
    let n = io::read_full(0, &mut input);
    let mut text = [0u8; 25728];
    let end = report::survey(&input[..n], &mut text);
    io::write_all(1, &text[..end]);
}
