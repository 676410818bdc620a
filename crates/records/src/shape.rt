// Where a call stands in the bytes, and how large it is.
ghost use Rattle.std.specs.Prelude.{◌≡◌};
ghost use Rattle.records.specs.Places.{link_count, moving, call_place, load_count};
ghost use Rattle.records.specs.Layout.{LaidBytes};
ghost use Rattle.records.specs.Reading.{Readable};

use wire::read::size_at;

/// Where the call record stands, and how many moving joints and loads it has.
#[derive(Clone, Copy)]
pub struct CallShape {
    pub place: usize,
    pub moving: usize,
    pub loads: usize,
}

impl CallShape {
    /// The shape of the call in bytes that keep the layout.
    pub fn of(s: &[u8]) -> CallShape
        requires { LaidBytes s.now }
        ensures told { result ≡ record { place = call_place (link_count s.now); moving = moving s.now; loads = load_count s.now (call_place (link_count s.now)) } }
        ensures readable { Readable s.now result.place result.moving result.loads }
    {
        let n = size_at(s, 6);
        let place = 10 + 104 * n + 85 * (n - 1);
        CallShape {
            place,
            moving: size_at(s, 8),
            loads: size_at(s, place + 162),
        }
    }
}
