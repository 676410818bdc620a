// The answer record.
ghost use Rattle.std.specs.Prelude.{[], ◌≡◌, ◌≤◌, length};
ghost use Rattle.wire.specs.Placed.{placed};
ghost use Rattle.records.specs.Answers.{head_bytes, answer_bytes};
ghost use Rattle.records.specs.Reply.{sent};

use wire::write::{put_floats, put_u8, put_u16, put_u32};

// All but the figures, n of them.
fn put_head(out: &mut [u8], number: u8, n: usize)
    requires { (n ≤ 69) × (9 ≤ length out.old) }
    ensures { out.new ≡ placed out.old 0 (head_bytes number n) }
{
    put_u32(out, 0, 5 + 8 * n);
    put_u8(out, 4, 1);
    put_u8(out, 5, 3);
    put_u8(out, 6, number);
    put_u16(out, 7, n);
}

// How many bytes were written: all of the record, or none where it does not fit.
pub(crate) fn put_answer(number: u8, figures: &[f64], out: &mut [u8]) -> usize
    requires { length figures.now ≤ 69 }
    ensures { record { count = result; out = out.new } ≡ sent (answer_bytes (record { number = number; figures = figures.now })) out.old }
{
    let n = figures.len();
    let size = 9 + 8 * n;
    if out.len() < size {
        return 0;
    }
    put_head(out, number, n);
    put_floats(out, 9, figures);
    size
}

// "a refused answer has count 0"
pub(crate) fn put_refusal(number: u8, out: &mut [u8]) -> usize
    ensures { record { count = result; out = out.new } ≡ sent (answer_bytes (record { number = number; figures = [] })) out.old }
{
    if out.len() < 9 {
        return 0;
    }
    put_head(out, number, 0);
    9
}
