// A record's loads as a table in three parts.
ghost use Rattle.std.specs.Prelude.{◌≡◌, length};
ghost use Rattle.records.specs.Reading.{Readable};

use records::shape::CallShape;
use wire::read::{f64_at, size_at};

// The link of each load.
pub(crate) fn load_links(s: &[u8], call: CallShape) -> [usize; 256]
    requires { Readable s.now call.place call.moving call.loads }
    ensures { length result ≡ 256 }
{
    let mut t = [0; 256];
    for i in 0..call.loads {
        t[i] = size_at(s, call.place + 164 + 33 * call.moving + 50 * i);
    }
    t
}

// Six numbers of each load.
pub(crate) fn load_numbers(s: &[u8], call: CallShape) -> [f64; 1536]
    requires { Readable s.now call.place call.moving call.loads }
    ensures { length result ≡ 1536 }
{
    let mut t = [0.0; 1536];
    for i in 0..call.loads {
        let at = call.place + 166 + 33 * call.moving + 50 * i;
        for j in 0..6 {
            t[6 * i + j] = f64_at(s, at + 8 * j);
        }
    }
    t
}
