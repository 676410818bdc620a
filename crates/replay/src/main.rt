// Replays the fixed list of records and counts, by refusal number, the answers that agree with the oracle's.
#![tactic(auto)]

ghost use Rattle.std.specs.Prelude.{◌≤◌};

use frames::{STDOUT_FILENO, answer, answer_room, read_frame};

// How many cases there were, by the refusal number of the oracle's answer, and how many answers are its bytes.
#[derive(Drop)]
struct Tally {
    run: u64,
    same: u64,
    numbers: [u64; 16],
}

// The refusal number of an answer record, 15 for what is none.
fn number_in(answer: &[u8]) -> usize
    ensures { result ≤ 15 }
{
    if answer.len() < 9 {
        return 15;
    }
    let number = answer[6];
    if number < 15 {
        return number as usize;
    }
    15
}

// All cases, at most a million.
fn replay() -> Tally {
    let mut input = io::large_buffer();
    let mut expected = io::large_buffer();
    let mut out = answer_room();
    let mut numbers = [0u64; 16];
    let mut same = 0;
    for run in 0..1000000u64 {
        let Some(n) = read_frame(&mut input) else {
            return Tally { run, same, numbers };
        };
        let e = read_frame(&mut expected).unwrap_or(0);
        let k = answer(&input[..n], &mut out);
        same += u64::from(check::same(&out[..k], &expected[..e]));
        let number = number_in(&expected[..e]);
        numbers[number] = numbers[number].saturating_add(1);
    }
    Tally {
        run: 1000000,
        same,
        numbers,
    }
}

fn print_count(number: u64, count: u64) {
    io::write_all(STDOUT_FILENO, b"refusal ");
    io::print_decimal(STDOUT_FILENO, number);
    io::write_all(STDOUT_FILENO, b": ");
    io::print_decimal(STDOUT_FILENO, count);
    io::write_all(STDOUT_FILENO, b"\n");
}

// The refusal numbers that were answered.
fn print_counts(counts: &[u64; 16]) {
    for (number, &count) in counts.iter().enumerate() {
        if count != 0 {
            print_count(number as u64, count);
        }
    }
}

fn main() {
    let t = replay();
    io::write_all(STDOUT_FILENO, b"cases ");
    io::print_decimal(STDOUT_FILENO, t.run);
    io::write_all(STDOUT_FILENO, b", answers that agree ");
    io::print_decimal(STDOUT_FILENO, t.same);
    io::write_all(STDOUT_FILENO, b"\n");
    print_counts(&t.numbers);
}
