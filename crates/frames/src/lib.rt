// What the programs share: frames on standard input, and the answer to any bytes.
#![tactic(auto)]

ghost use Rattle.std.specs.Prelude.{◌≡◌, IfSome, length};
ghost use Rattle.io.specs.Counts.{IsPrefixLen};

pub mod fields;

use wire::read::u32_at;

/// The three files that a program starts with.
pub const STDIN_FILENO: i32 = 0;

pub const STDOUT_FILENO: i32 = 1;

pub const STDERR_FILENO: i32 = 2;

/// The longest answer record: 69 figures.
pub fn answer_room() -> [u8; 561]
    ensures { 561 ≡ length result }
{
    [0u8; 561]
}

/// What `records` answers, as a count of bytes at the front of the lent table.
pub fn answer(input: &[u8], out: &mut [u8]) -> usize
    ensures { IsPrefixLen result out.new }
{
    records::answer::answer(input, out)
}

/// The next frame, a length of 4 bytes and that many bytes, at the front of a lent table: how many bytes it has. `None` where the input ends or the table is too short for it.
pub fn read_frame(body: &mut [u8]) -> Option<usize>
    ensures { IfSome result (λ n. IsPrefixLen n body.new) }
{
    let mut head = [0u8; 4];
    let got = io::read_full(STDIN_FILENO, &mut head);
    if got < 4 {
        return None;
    }
    let n = u32_at(&head, 0) as usize;
    if body.len() < n {
        return None;
    }
    let read = io::read_full(STDIN_FILENO, &mut body[..n]);
    if read != n {
        return None;
    }
    Some(n)
}
