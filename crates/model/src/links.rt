// What a good link is.
ghost use Rattle.std.specs.Prelude.{◌≡◌, ◌≤◌};
ghost use Rattle.spatial.specs.All.{all};
ghost use Rattle.model.specs.Tables.{link_at};
ghost use Rattle.model.specs.Links.{good_link};
ghost use Rattle.model.specs.Products.{times_each};

use crate::Model;
use fit::finite::finite_vector;
use spatial::Vector3;
use spatial::constants::zero_vector;
use spatial::vectors::scale;

// Number by number: 0 stays 0 as long as it meets finite numbers, and is a NaN after any other.
#[tactic(auto, unfolding(crate::specs::Products::times_each))]
pub(crate) fn times(a: Vector3, b: Vector3) -> Vector3
    ensures { result ≡ times_each a b }
{
    Vector3 {
        x: a.x * b.x,
        y: a.y * b.y,
        z: a.z * b.z,
    }
}

// The first links of a model are good. A finite moment has a finite mass and a finite centre.
pub(crate) fn links_good(model: &Model, count: usize) -> bool
    requires { count ≤ 64 }
    ensures { result ≡ all count (λ l. good_link (link_at model.now l)) }
{
    let mut good = true;
    let mut a = zero_vector();
    let mut b = zero_vector();
    for l in 0..count {
        let link = model.links[l];
        let moment = scale(link.center, link.mass);
        a = times(times(a, moment), link.inertia.y);
        b = times(times(b, link.inertia.x), link.inertia.z);
        good = good & (0.0 <= link.mass);
    }
    let finite = finite_vector(times(a, b));
    good & finite
}
