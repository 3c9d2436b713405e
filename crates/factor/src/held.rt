// Document 01, 'Lent room': the two held calls. After a zero solve R's columns are the rows of L; after a damped solve L stands
// below the diagonal of the square, by columns, and its diagonal apart.
ghost use Rattle.std.specs.Prelude.{◌≡◌, [], ◌∷◌, ◌++◌, suc, ◌<◌, length, take, drop, get_or, set};
ghost use Rattle.std.specs.Float.{nan, binary64};
ghost use Rattle.std.specs.Float.Ieee.{sub, div};
ghost use Rattle.leaves.specs.Vector.{dot_of, axpy_all};
ghost use Rattle.leaves.specs.Square.{uppers_of, belows_of, zeros};
ghost use Rattle.factor.specs.Held.{forward_upper, forward_lower, mul_upper, mul_lower};

use crate::store::Lower;
use leaves::lent::Square;
use leaves::vector::{axpy, dot, fill};

fn forward_place(square: Square, j: usize, w: &mut [f64])
    requires j_lt_n { j < square.n }
    requires w_len { length w.old ≡ square.n }
    ensures { w.new ≡ set w.old j (div binary64 (sub binary64 (get_or w.old j nan) (dot_of (take j w.old) (take j (get_or (uppers_of square.entry.n square.entry.cells.now) j [])))) (get_or (get_or (uppers_of square.entry.n square.entry.cells.now) j []) j nan)) }
{
    let c = j * square.n;
    let d = c + j;
    let s = dot(&w[..j], &square.cells[c..d]).unwrap();
    w[j] = (w[j] - s) / square.cells[d];
}

// Rᵀ·x = w from the first place on.
pub(crate) fn forward_upper(square: Square, w: &mut [f64])
    requires { length w.old ≡ square.n }
    ensures { w.new ≡ forward_upper [] (uppers_of square.entry.n square.entry.cells.now) w.old }
{
    for j in 0..square.n {
        forward_place(square, j, w);
    }
}

// v at place j, and a times the column under the diagonal added to the places after it.
fn add_below(square: Square, j: usize, v: f64, a: f64, w: &mut [f64])
    requires j_lt_n { j < square.n }
    requires w_len { length w.old ≡ square.n }
    ensures { w.new ≡ take j w.old ++ (v ∷ axpy_all a (get_or (belows_of square.entry.n square.entry.cells.now) j []) (drop (suc j) w.old)) }
{
    let b = j + 1;
    let c = j * square.n;
    let from = c + b;
    let to = c + square.n;
    w[j] = v;
    axpy(a, &square.cells[from..to], &mut w[b..]).unwrap();
}

// L·x = w from the first place on.
pub(crate) fn forward_lower(l: Lower, w: &mut [f64])
    requires { length w.old ≡ l.square.n }
    ensures { w.new ≡ forward_lower l.entry.ldiag.now (belows_of l.entry.square.n l.entry.square.cells.now) w.old }
{
    for j in 0..l.square.n {
        let x = w[j] / l.ldiag[j];
        add_below(l.square, j, x, -x, w);
    }
}

fn row_times(square: Square, j: usize, q: &[f64]) -> f64
    requires j_lt_n { j < square.n }
    requires q_len { length q.now ≡ square.n }
    ensures { result ≡ get_or (mul_upper q.now (uppers_of square.entry.n square.entry.cells.now)) j nan }
{
    let b = j + 1;
    let c = j * square.n;
    let to = c + b;
    dot(&q[..b], &square.cells[c..to]).unwrap()
}

// L·q with R's columns as the rows of L.
pub(crate) fn mul_upper(square: Square, q: &[f64], out: &mut [f64])
    requires q_len { length q.now ≡ square.n }
    requires out_len { length out.old ≡ square.n }
    ensures { out.new ≡ mul_upper q.now (uppers_of square.entry.n square.entry.cells.now) }
{
    for (j, y) in out.iter_mut().enumerate() {
        *y = row_times(square, j, q);
    }
}

fn mul_onto(l: Lower, q: &[f64], out: &mut [f64])
    requires q_len { length q.now ≡ l.square.n }
    requires out_len { length out.old ≡ l.square.n }
    ensures { out.new ≡ mul_lower q.now l.entry.ldiag.now (belows_of l.entry.square.n l.entry.square.cells.now) out.old }
{
    for j in 0..l.square.n {
        let v = out[j] + q[j] * l.ldiag[j];
        add_below(l.square, j, v, q[j], out);
    }
}

// L·q with L by columns.
pub(crate) fn mul_lower(l: Lower, q: &[f64], out: &mut [f64])
    requires q_len { length q.now ≡ l.square.n }
    requires out_len { length out.old ≡ l.square.n }
    ensures { out.new ≡ mul_lower q.now l.entry.ldiag.now (belows_of l.entry.square.n l.entry.square.cells.now) (zeros l.entry.square.n) }
{
    fill(0.0, out);
    mul_onto(l, q, out);
}
