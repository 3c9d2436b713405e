// Document 01, module 7: what a search does with vectors of a number for each column.
ghost use Rattle.std.specs.Prelude.{◌≡◌, ◌≤◌, length, take};
ghost use Rattle.leaves.specs.Norm.{norm, ranges};
ghost use Rattle.leaves.specs.Vector.{scale_all};
ghost use Rattle.leaves.specs.Product.{product_all};
ghost use Rattle.factor.specs.Solve.{gather, scatter};
ghost use Rattle.search.specs.Bounds.{quotients};
ghost use Rattle.search.specs.inner.Read.{turned_by};

use leaves::lent::Order;
use leaves::norm::{Normed, enorm};

// The norm of so few numbers is never refused. Once here, for five callers.
pub(crate) fn norm_of(v: &[f64]) -> Normed
    requires { length v.now ≤ 128 }
    ensures value_value { result.value ≡ norm v.now }
    ensures seen_value { result.seen ≡ ranges v.now }
{
    enorm(v).unwrap()
}

// Each place over the scaling of the column that stands there.
pub(crate) fn divide_by(w: &mut [f64], order: Order, diag: &[f64])
    requires w_len { (length w.old ≡ order.n) × (length diag.now ≡ order.n) }
    ensures { w.new ≡ quotients w.old (gather (take order.entry.n order.entry.places.now) diag.now) }
{
    for i in 0..order.n {
        let o = order.places[i];
        w[i] = w[i] / diag[o];
    }
}

// A number times the scaling, in pivot order.
pub(crate) fn scale_by(a: f64, order: Order, x: &[f64], w: &mut [f64])
    requires x_len { (length x.now ≡ order.n) × (length w.old ≡ order.n) }
    ensures { w.new ≡ gather (take order.entry.n order.entry.places.now) (scale_all a x.now) }
{
    for k in 0..order.n {
        let o = order.places[k];
        w[k] = a * x[o];
    }
}

// The right side of the held solve: the scaled step over its norm, times the scaling once more, in pivot order.
pub(crate) fn turn_into(v: &[f64], norm: f64, order: Order, diag: &[f64], w: &mut [f64])
    requires v_len { (length v.now ≡ order.n) × (length diag.now ≡ order.n) × (length w.old ≡ order.n) }
    ensures { w.new ≡ gather (take order.entry.n order.entry.places.now) (turned_by norm v.now diag.now) }
{
    for k in 0..order.n {
        let o = order.places[k];
        w[k] = (v[o] / norm) * diag[o];
    }
}

// Each number times the scaling of its column, at its column.
pub(crate) fn place_scaled(order: Order, w: &[f64], diag: &[f64], v: &mut [f64])
    requires w_len { (length w.now ≡ order.n) × (length diag.now ≡ order.n) × (length v.old ≡ order.n) }
    ensures { v.new ≡ scatter (take order.entry.n order.entry.places.now) (product_all w.now (gather (take order.entry.n order.entry.places.now) diag.now)) v.old }
{
    for k in 0..order.n {
        let o = order.places[k];
        v[o] = w[k] * diag[o];
    }
}

// Each number at its column.
pub(crate) fn place(order: Order, w: &[f64], out: &mut [f64])
    requires w_len { (length w.now ≡ order.n) × (length out.old ≡ order.n) }
    ensures { out.new ≡ scatter (take order.entry.n order.entry.places.now) w.now out.old }
{
    for k in 0..order.n {
        let o = order.places[k];
        out[o] = w[k];
    }
}
