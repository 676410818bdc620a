// The links of a model's record.
ghost use Rattle.std.specs.Prelude.{◌≡◌, ◌+◌, ◌*◌, ◌≤◌, length};
ghost use Rattle.model.specs.Links.{link_numbers};
ghost use Rattle.wire.specs.Placed.{placed};
ghost use Rattle.encode.specs.Joined.{joined};
ghost use Rattle.encode.specs.Models.{link_bytes};

use model::{Link, Model};
use wire::write::put_floats;

// Mass, centre and inertia by rows.
fn link_table(link: Link) -> [f64; 13]
    ensures { result ≡ link_numbers link }
{
    let c = link.center;
    let i = link.inertia;
    [
        link.mass, c.x, c.y, c.z, i.x.x, i.x.y, i.x.z, i.y.x, i.y.y, i.y.z, i.z.x, i.z.y, i.z.z,
    ]
}

#[tactic(auto, using(crate::proofs::JoinedLaws::joined_start))]
pub(crate) fn put_links(out: &mut [u8], at: usize, model: &Model)
    requires { (model.now.count ≤ 64) × (at + 104 * model.now.count ≤ length out.old) }
    ensures { out.new ≡ placed out.old at (joined model.now.count (link_bytes model.now)) }
{
    for (l, link) in model.links[..model.count].iter().enumerate() {
        put_floats(out, at + 104 * l, &link_table(*link));
    }
}
