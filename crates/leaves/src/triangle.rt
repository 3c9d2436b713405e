// Document 01, 'Leaf rules', upper triangular solve. The distance between columns is a number of its own, as MINPACK's `ldr` is: document
// 01's square has its columns n apart, and `factor` says so once (`load` and `lay`).
ghost use Rattle.std.specs.Prelude.{◌≡◌, ◌+◌, ◌*◌, ◌<◌, ◌≤◌, length};
ghost use Rattle.leaves.specs.Reply.{reply_of};
ghost use Rattle.leaves.specs.Triangle.{columns, solve_place, solve_down, solve_upper};

use crate::reply::Refusal;
use crate::vector::axpy;

// Place i: divided by the diagonal, then taken out of the places above.
fn solve_place(r: &[f64], apart: usize, n: usize, i: usize, x: &mut [f64])
    requires i_lt_n { (i < n) × (n ≤ apart) }
    requires apart_in_bounds { i * apart + apart ≤ length r.now }
    requires apart_in_bounds_2 { n * apart ≤ length r.now }
    requires n_in_bounds { n ≤ length x.old }
    ensures { x.new ≡ solve_place (columns apart n r.now) i x.old }
{
    let c = i * apart;
    let d = c + i;
    let q = x[i] / r[d];
    x[i] = q;
    axpy(-q, &r[c..d], &mut x[..i]).unwrap();
}

fn solve_down(r: &[f64], apart: usize, n: usize, x: &mut [f64])
    requires n_le_apart { n ≤ apart }
    requires apart_in_bounds { n * apart ≤ length r.now }
    requires n_in_bounds { n ≤ length x.old }
    ensures { x.new ≡ solve_down (columns apart n r.now) n x.old }
{
    for i in (0..n).rev() {
        solve_place(r, apart, n, i, x);
    }
}

// Solves R·x = b for an upper triangle, from the last place down.
//
// r: n columns that stand `apart` places apart, of which the upper triangle is read. x: on entry the right side, on exit the answer, in its
// first n; its surplus is not touched.
// Refused 3 where n is over `apart`, x has under n places, or r is shorter than n columns; x is then as it was.
pub fn solve_upper(r: &[f64], apart: usize, n: usize, x: &mut [f64]) -> Result<(), Refusal>
    ensures { (reply_of result, x.new) ≡ solve_upper apart n r.now x.old }
{
    if apart < n {
        return Err(Refusal::Length);
    }
    if x.len() < n {
        return Err(Refusal::Length);
    }
    if n == 0 {
        return Ok(());
    }
    if r.len() / apart < n {
        return Err(Refusal::Length);
    }
    solve_down(r, apart, n, x);
    Ok(())
}
