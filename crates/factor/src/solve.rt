// Document 01, module 4: rank, the zero solve, the damped solve after elimination, and where an answer entry goes.
// The square is R's n columns, n apart; a vector is in pivot order unless said otherwise.
ghost use Rattle.std.specs.Prelude.{◌≡◌, [], ◌++◌, suc, ◌-◌, ◌<◌, ◌≤◌, length, take, drop, get_or, set};
ghost use Rattle.std.specs.Float.{nan, binary64};
ghost use Rattle.std.specs.Float.Ieee.{sub, div};
ghost use Rattle.leaves.specs.Vector.{dot_of};
ghost use Rattle.leaves.specs.Square.{uppers_of, belows_of, diagonal, zeros};
ghost use Rattle.factor.specs.Solve.{rank, scatter, gather, zero_solved, non_singular_of, backward, damped_solved};

use crate::store::Lower;
use leaves::lent::{Order, Square};
use leaves::sizes::least;
use leaves::triangle::solve_upper;
use leaves::vector::{dot, fill};

fn diagonal_at(square: Square, k: usize) -> f64
    requires { k < square.n }
    ensures { result ≡ get_or (diagonal (uppers_of square.entry.n square.entry.cells.now)) k nan }
{
    square.cells[k * square.n + k]
}

// The place of the first exact zero among the first `top` of R's diagonal; `top` if there is none.
pub(crate) fn rank_of(square: Square, top: usize) -> usize
    requires { top ≤ square.n }
    ensures { result ≡ rank (take top (diagonal (uppers_of square.entry.n square.entry.cells.now))) }
{
    for k in 0..top {
        let d = diagonal_at(square, k);
        if d == 0.0 {
            return k;
        }
    }
    top
}

// The same of L's diagonal.
pub(crate) fn rank_of_diag(ldiag: &[f64]) -> usize
    ensures { result ≡ rank ldiag.now }
{
    ldiag.iter().position(|d| *d == 0.0).unwrap_or(ldiag.len())
}

pub(crate) fn non_singular(square: Square, m: usize) -> bool
    ensures { result ≡ non_singular_of m square.entry.n (uppers_of square.entry.n square.entry.cells.now) }
{
    let n = square.n;
    if m < n {
        return false;
    }
    for k in 0..n {
        let d = diagonal_at(square, k);
        if d == 0.0 {
            return false;
        }
    }
    true
}

// R's diagonal, place by place.
pub(crate) fn copy_diagonal(square: Square, w: &mut [f64])
    requires { length w.old ≡ square.n }
    ensures { w.new ≡ diagonal (uppers_of square.entry.n square.entry.cells.now) }
{
    for (k, x) in w.iter_mut().enumerate() {
        *x = diagonal_at(square, k);
    }
}

// The places from k on become +0.
fn clear_from(k: usize, w: &mut [f64])
    requires { k ≤ length w.old }
    ensures { w.new ≡ take k w.old ++ zeros (length w.old - k) }
{
    fill(0.0, &mut w[k..]);
}

// w is Qᵀb on entry and the answer on exit; what stands at the rank and after it is left out.
pub(crate) fn zero_solve(square: Square, m: usize, w: &mut [f64])
    requires { length w.old ≡ square.n }
    ensures { w.new ≡ zero_solved m (uppers_of square.entry.n square.entry.cells.now) w.old }
{
    let top = least(m, square.n);
    let full = rank_of(square, top);
    clear_from(full, w);
    solve_upper(square.cells, square.n, full, &mut w[..full]).unwrap();
}

// An entry in pivot order goes to the column that the order list names.
pub(crate) fn scatter_into(order: Order, w: &[f64], out: &mut [f64])
    requires w_len { length w.now ≡ order.n }
    requires n_in_bounds { order.n ≤ length out.old }
    ensures { out.new ≡ scatter (take order.entry.n order.entry.places.now) w.now out.old }
{
    for (k, o) in order.places[..order.n].iter().enumerate() {
        out[*o] = w[k];
    }
}

pub(crate) fn gather_into(order: Order, xs: &[f64], w: &mut [f64])
    requires n_in_bounds { order.n ≤ length xs.now }
    requires w_len { length w.old ≡ order.n }
    ensures { w.new ≡ gather (take order.entry.n order.entry.places.now) xs.now }
{
    for (k, o) in order.places[..order.n].iter().enumerate() {
        w[k] = xs[*o];
    }
}

// Place j of Lᵀ·x = w, once the places after it, up to `full`, are done.
fn backward_place(l: Lower, full: usize, j: usize, w: &mut [f64])
    requires j_lt_full { (j < full) × (full ≤ l.square.n) }
    requires w_len { length w.old ≡ l.square.n }
    ensures { w.new ≡ set w.old j (div binary64 (sub binary64 (get_or w.old j nan) (dot_of (take (full - suc j) (get_or (belows_of l.entry.square.n l.entry.square.cells.now) j [])) (take (full - suc j) (drop (suc j) w.old)))) (get_or l.entry.ldiag.now j nan)) }
{
    let a = j + 1;
    let c = j * l.square.n;
    let from = c + a;
    let to = c + full;
    let s = dot(&l.square.cells[from..to], &w[a..full]).unwrap();
    w[j] = (w[j] - s) / l.ldiag[j];
}

fn backward_from(l: Lower, full: usize, w: &mut [f64])
    requires full_le_n { full ≤ l.square.n }
    requires w_len { length w.old ≡ l.square.n }
    ensures { w.new ≡ backward (take full l.entry.ldiag.now) (take full (belows_of l.entry.square.n l.entry.square.cells.now)) (take full w.old) ++ drop full w.old }
{
    for j in (0..full).rev() {
        backward_place(l, full, j, w);
    }
}

// The damped solve after elimination. w is the eliminated right side on entry and the answer on exit.
pub(crate) fn backward_in(l: Lower, w: &mut [f64])
    requires { length w.old ≡ l.square.n }
    ensures { w.new ≡ damped_solved l.entry.ldiag.now (belows_of l.entry.square.n l.entry.square.cells.now) w.old }
{
    let full = rank_of_diag(l.ldiag);
    clear_from(full, w);
    backward_from(l, full, w);
}
