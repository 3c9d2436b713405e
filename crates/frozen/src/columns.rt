// From a matrix of n columns to the matrix of the free ones.
ghost use Rattle.std.specs.Prelude.{◌≡◌, ◌*◌, ◌≤◌, length};
ghost use Rattle.leaves.specs.Reply.{reply_of};
ghost use Rattle.frozen.specs.Frozen.{marks_of, free_count, free_columns};
ghost use Rattle.frozen.specs.Moved.{columns_call};

use crate::marks::{free_count, next_of};
use leaves::reply::Refusal;
use leaves::sizes::outside;

fn copy_free(m: usize, n: usize, marks: u16, src: &[f64], dst: &mut [f64])
    requires n_in_bounds { m * n ≤ length src.now }
    requires dst_len { length dst.old ≡ m * free_count (marks_of n marks) }
    ensures { dst.new ≡ free_columns m (marks_of n marks) src.now }
{
    let mut x = marks as u32;
    let mut b = 0;
    for k in 0..n {
        if x < 32768 {
            let a = k * m;
            dst[b..b + m].copy_from_slice(&src[a..a + m]);
            b += m;
        }
        x = next_of(x);
    }
}

// The free columns of a matrix, one after the other.
//
// m, n: rows and columns. src: its first m·n, column by column, only read. dst: on exit the free columns, its surplus as it was.
// Refused 2 for the sizes, 3 where src has fewer than m·n numbers, or dst fewer than m for each free column; dst is then as it was.
pub fn free_columns(
    m: usize,
    n: usize,
    marks: u16,
    src: &[f64],
    dst: &mut [f64],
) -> Result<(), Refusal>
    ensures { (reply_of result, dst.new) ≡ columns_call m n marks src.now dst.old }
{
    if outside(m, n) {
        return Err(Refusal::Sizes);
    }
    if src.len() < m * n {
        return Err(Refusal::Length);
    }
    let need = m * free_count(n, marks);
    if dst.len() < need {
        return Err(Refusal::Length);
    }
    copy_free(m, n, marks, src, &mut dst[..need]);
    Ok(())
}
