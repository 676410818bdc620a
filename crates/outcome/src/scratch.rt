// Tables that a call works in, made once and lent to each call.
ghost use Rattle.std.specs.Prelude.{◌≡◌};
ghost use Rattle.loads.specs.Sums.{start_sums};

use dynamics::Motion;
use spatial::constants::zero_wrench;
use spatial::{Frame, Vector3, Wrench};

/// The joints' frames, what each link takes from its parent, and the links' load sums.
#[derive(Clone, Copy)]
pub struct Scratch<V> {
    pub frames: [Frame; 63],
    pub values: [V; 64],
    pub sums: [Wrench; 64],
}

/// For inverse dynamics and the velocity product: the links' motions.
pub type DynamicsScratch = Scratch<Motion>;

/// For gravity: gravity in the links' axes.
pub type GravityScratch = Scratch<Vector3>;

impl<V: Copy + Default> Scratch<V> {
    /// Tables that are not filled yet, and load sums of +0.
    #[tactic(auto, unfolding(loads::specs::Sums::start_sums))]
    pub fn new() -> Scratch<V>
        ensures { result.sums ≡ start_sums.sums }
    {
        Scratch {
            frames: [Frame::default(); 63],
            values: [V::default(); 64],
            sums: [zero_wrench(); 64],
        }
    }
}
