// One model record and one call record on standard input, one answer record on standard output.
#![tactic(auto)]

ghost use Rattle.std.specs.Prelude.{◌≡◌, length};

use frames::{STDERR_FILENO, STDIN_FILENO, STDOUT_FILENO, answer, answer_room};

// One byte more than the longest two records, so that longer input is seen to be too long.
fn input_room() -> [u8; 27065]
    ensures { 27065 ≡ length result }
{
    [0u8; 27065]
}

fn main() {
    let mut input = input_room();
    let n = io::read_full(STDIN_FILENO, &mut input);
    let mut out = answer_room();
    let k = answer(&input[..n], &mut out);
    let written = io::write_all(STDOUT_FILENO, &out[..k]);
    if !written {
        io::write_all(STDERR_FILENO, b"figures: the answer was not written\n");
    }
}
