// Long fills and copies, piece by piece. One of more than 2 KB would be compiled into an instruction that repeats for each byte.
ghost use Rattle.std.specs.Prelude.{◌≡◌, ◌++◌, ◌-◌, ◌≤◌, length, take, drop};
ghost use Rattle.leaves.specs.Reply.{reply_of};
ghost use Rattle.leaves.specs.Square.{zeros};
ghost use Rattle.leaves.specs.Vector.{copy as copy_of};

use crate::reply::Refusal;
use crate::sizes::least;
use crate::vector::fill;

fn clear_piece(a: usize, e: usize, dst: &mut [f64])
    requires { (a ≤ e) × (e ≤ length dst.old) }
    ensures { dst.new ≡ take a dst.old ++ (zeros (e - a) ++ drop e dst.old) }
{
    fill(0.0, &mut dst[a..e]);
}

// +0 at every place of dst. Refuses nothing.
pub fn clear_long(dst: &mut [f64])
    ensures { dst.new ≡ zeros (length dst.old) }
{
    let len = dst.len();
    for a in (0..len).step_by(128) {
        clear_piece(a, a + least(len - a, 128), dst);
    }
}

fn copy_piece(a: usize, e: usize, src: &[f64], dst: &mut [f64])
    requires a_le_e { (a ≤ e) × (e ≤ length dst.old) }
    requires src_len { length src.now ≡ length dst.old }
    ensures { dst.new ≡ take a dst.old ++ (take (e - a) (drop a src.now) ++ drop e dst.old) }
{
    dst[a..e].copy_from_slice(&src[a..e]);
}

fn copy_pieces(src: &[f64], dst: &mut [f64])
    requires { length src.now ≡ length dst.old }
    ensures { dst.new ≡ src.now }
{
    let len = src.len();
    for a in (0..len).step_by(128) {
        copy_piece(a, a + least(len - a, 128), src, dst);
    }
}

// src to dst, as `copy` does.
//
// src: the numbers, only read. dst: as long; on exit the same numbers.
// Refused 3 where the lengths differ; dst is then unwritten.
pub fn copy_long(src: &[f64], dst: &mut [f64]) -> Result<(), Refusal>
    ensures { (reply_of result, dst.new) ≡ copy_of src.now dst.old }
{
    if src.len() != dst.len() {
        return Err(Refusal::Length);
    }
    copy_pieces(src, dst);
    Ok(())
}
