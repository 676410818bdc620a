// Framed inputs on standard input, framed answer records on standard output.
#![tactic(auto)]

use frames::{STDERR_FILENO, STDOUT_FILENO, answer, answer_room, read_frame};
use wire::write::put_u32;

// One frame; whether all of it was written.
fn send(answer: &[u8]) -> bool {
    let mut head = [0u8; 4];
    put_u32(&mut head, 0, answer.len());
    let first = io::write_all(STDOUT_FILENO, &head);
    let second = io::write_all(STDOUT_FILENO, answer);
    first & second
}

// All frames, at most a thousand million, until one could not be written.
fn answer_all() -> bool {
    let mut input = io::large_buffer();
    let mut out = answer_room();
    for _ in 0..1000000000u64 {
        let Some(n) = read_frame(&mut input) else {
            return true;
        };
        let k = answer(&input[..n], &mut out);
        if !send(&out[..k]) {
            return false;
        }
    }
    true
}

fn main() {
    if !answer_all() {
        io::write_all(STDERR_FILENO, b"answers: an answer was not written\n");
    }
}
