// The front of a call's record: what is asked, the base and the counts.
ghost use Rattle.std.specs.Prelude.{◌≡◌, ◌≤◌, length};
ghost use Rattle.model.specs.Bases.{base_numbers};
ghost use Rattle.wire.specs.Placed.{placed};
ghost use Rattle.encode.specs.Calls.{function_code, mode_code, call_start, call_head};

use model::{BaseState, RootMode};
use outcome::Function;
use wire::write::{put_floats, put_u8, put_u16, put_u32};

fn function_code(function: Function) -> u8
    ensures { result ≡ function_code function }
{
    match function {
        Function::InverseDynamics => 1,
        Function::Gravity => 2,
        Function::VelocityProduct => 3,
    }
}

fn mode_code(mode: RootMode) -> u8
    ensures { result ≡ mode_code mode }
{
    match mode {
        RootMode::Fixed => 0,
        RootMode::Floating => 1,
    }
}

fn base_table(base: BaseState) -> [f64; 19]
    ensures { result ≡ base_numbers base }
{
    let f = base.frame;
    let v = base.velocity;
    let a = base.acceleration;
    [
        f.rotation.w,
        f.rotation.i,
        f.rotation.j,
        f.rotation.k,
        f.translation.x,
        f.translation.y,
        f.translation.z,
        v.angular.x,
        v.angular.y,
        v.angular.z,
        v.linear.x,
        v.linear.y,
        v.linear.z,
        a.angular.x,
        a.angular.y,
        a.angular.z,
        a.linear.x,
        a.linear.y,
        a.linear.z,
    ]
}

fn put_start(out: &mut [u8], size: usize, function: u8, mode: u8)
    requires { 8 ≤ length out.old }
    ensures { out.new ≡ placed out.old 0 (call_start size function mode) }
{
    put_u32(out, 0, size);
    put_u8(out, 4, 1);
    put_u8(out, 5, 2);
    put_u8(out, 6, function);
    put_u8(out, 7, mode);
}

pub(crate) fn put_head(
    out: &mut [u8],
    function: Function,
    mode: RootMode,
    base: BaseState,
    m: usize,
    k: usize,
)
    requires { (164 ≤ length out.old) × (m ≤ 63) × (k ≤ 256) }
    ensures { out.new ≡ placed out.old 0 (call_head function mode base m k) }
{
    put_start(
        out,
        160 + 33 * m + 50 * k,
        function_code(function),
        mode_code(mode),
    );
    let numbers = base_table(base);
    put_floats(out, 8, &numbers);
    put_u16(out, 160, m);
    put_u16(out, 162, k);
}
