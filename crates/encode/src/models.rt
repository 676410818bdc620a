// The record of a model.
ghost use Rattle.std.specs.Prelude.{◌≡◌, ◌≤◌, length};
ghost use Rattle.records.specs.Reply.{sent};
ghost use Rattle.wire.specs.Placed.{placed};
ghost use Rattle.encode.specs.Models.{model_head, model_bytes, counts_writable};
ghost use Rattle.encode.specs.Written.{told, written_model};

use crate::joints::{joints_writable, put_joints};
use crate::links::put_links;
use model::Model;
use wire::write::{put_u8, put_u16, put_u32};

#[tactic(auto, unfolding(crate::specs::Models::counts_writable))]
fn counts_writable(id: u64, count: usize, moving: usize) -> bool
    ensures { result ≡ counts_writable id count moving }
{
    (id == 0) & ((1 <= count) & ((count <= 64) & (moving <= 63)))
}

fn put_head(out: &mut [u8], count: usize, moving: usize)
    requires { (10 ≤ length out.old) × (1 ≤ count) × (count ≤ 64) }
    ensures { out.new ≡ placed out.old 0 (model_head count moving) }
{
    put_u32(out, 0, 6 + 104 * count + 85 * (count - 1));
    put_u8(out, 4, 1);
    put_u8(out, 5, 1);
    put_u16(out, 6, count);
    put_u16(out, 8, moving);
}

// The model's record where it fits.
fn put_model(out: &mut [u8], model: &Model) -> usize
    requires { (1 ≤ model.now.count) × (model.now.count ≤ 64) }
    ensures { told result out.new ≡ sent (model_bytes model.now) out.old }
{
    let joints = 10 + 104 * model.count;
    let size = joints + 85 * (model.count - 1);
    if out.len() < size {
        return 0;
    }
    put_head(out, model.count, model.moving);
    put_links(out, 10, model);
    put_joints(out, joints, model);
    size
}

/// How many bytes were written: the whole record, or none where the model has no record or the table is too short.
pub fn write_model(model: &Model, out: &mut [u8]) -> usize
    ensures { told result out.new ≡ written_model model.now out.old }
{
    if !counts_writable(model.id, model.count, model.moving) {
        return 0;
    }
    if !joints_writable(model) {
        return 0;
    }
    put_model(out, model)
}
