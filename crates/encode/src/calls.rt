// The record of a call.
ghost use Rattle.std.specs.Prelude.{◌≡◌, ◌+◌, ◌*◌, ◌≤◌, length};
ghost use Rattle.records.specs.Reply.{sent};
ghost use Rattle.wire.specs.Placed.{placed};
ghost use Rattle.encode.specs.Calls.{call_lists, asked, call_bytes, counts_fit, Counted};
ghost use Rattle.encode.specs.Written.{told, written_call};

use crate::CallArguments;
use crate::heads::put_head;
use crate::lists::{links_writable, put_loads, put_poses};
use wire::write::put_floats;

#[tactic(auto, unfolding(crate::specs::Calls::counts_fit))]
fn counts_fit(m: usize, speeds: usize, accelerations: usize, k: usize, numbers: usize) -> bool
    ensures { result ≡ counts_fit m speeds accelerations k numbers }
{
    if 256 < k {
        return false;
    }
    (m <= 63) & ((speeds == m) & ((accelerations == m) & (numbers == 6 * k)))
}

fn put_lists(out: &mut [u8], call: &CallArguments)
    requires { Counted (asked call.now) × (164 + 33 * length call.now.positions.now + 50 * length call.now.links.now ≤ length out.old) }
    ensures { out.new ≡ placed out.old 164 (call_lists call.now.positions.now call.now.speeds.now call.now.accelerations.now call.now.links.now call.now.numbers.now) }
{
    let m = call.positions.len();
    put_poses(out, 164, call.positions);
    put_floats(out, 164 + 17 * m, call.speeds);
    put_floats(out, 164 + 25 * m, call.accelerations);
    put_loads(out, 164 + 33 * m, call.links, call.numbers);
}

// The call's record where it fits.
fn put_call(out: &mut [u8], call: &CallArguments) -> usize
    requires { Counted (asked call.now) }
    ensures { told result out.new ≡ sent (call_bytes (asked call.now)) out.old }
{
    let m = call.positions.len();
    let k = call.links.len();
    let size = 164 + 33 * m + 50 * k;
    if out.len() < size {
        return 0;
    }
    put_head(out, call.function, call.mode, call.base, m, k);
    put_lists(out, call);
    size
}

/// How many bytes were written: the whole record, or none where the call has no record or the table is too short.
pub fn write_call(call: &CallArguments, out: &mut [u8]) -> usize
    ensures { told result out.new ≡ written_call (asked call.now) out.old }
{
    if !counts_fit(
        call.positions.len(),
        call.speeds.len(),
        call.accelerations.len(),
        call.links.len(),
        call.numbers.len(),
    ) {
        return 0;
    }
    if !links_writable(call.links) {
        return 0;
    }
    put_call(out, call)
}
