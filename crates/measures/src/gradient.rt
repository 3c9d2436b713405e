// Document 01, module 6: the gradient's measure (`max_a_t_b_scaled`), with the question of 02, #105, and the norm of Jx (`a_x_norm`), of a
// problem that is lent. Norms and x are read inside the loops at the columns that the order list names, and not from a copy in pivot order.
ghost use Rattle.std.specs.Prelude.{◌≡◌, [], suc, ◌<◌, ◌≤◌, length, get_or, take};
ghost use Rattle.std.specs.Float.{binary64};
ghost use Rattle.std.specs.Float.Ieee.{div};
ghost use Rattle.leaves.specs.Reply.{reply_of, measured_of};
ghost use Rattle.leaves.specs.Number.{plus_zero, abs_of};
ghost use Rattle.leaves.specs.Vector.{dot_of, axpy_all};
ghost use Rattle.factor.specs.Room.{load};
ghost use Rattle.factor.specs.Solve.{gather};
ghost use Rattle.leaves.specs.Product.{divided_by};
ghost use Rattle.measures.specs.Gradient.{measures, largest, gradient, above, above_limit, combined, jx_norm_of, jx_ranges};
ghost use Rattle.measures.specs.Measures.{finite_or_8};

use crate::problem::LinearLeastSquaresDiagonalProblem;
use factor::parts::{norms, qt_b};
use leaves::norm::{Normed, enorm};
use leaves::number::{abs, is_finite, max};
use leaves::reply::Refusal;
use leaves::vector::{axpy, dot, fill};

fn divide_all(v: &mut [f64], d: f64)
    ensures { v.new ≡ divided_by d v.old }
{
    for x in v.iter_mut() {
        *x = *x / d;
    }
}

impl LinearLeastSquaresDiagonalProblem<'_> {
    // What the measures are made of: qt_b over the residual norm goes to b, the column norms to s.
    fn fill_in(&self, bnorm: f64, b: &mut [f64], s: &mut [f64])
        requires { (length b.old ≡ self.now.n) × (length s.old ≡ self.now.n) }
        ensures b_after { b.new ≡ divided_by bnorm (load self.now.n self.now.store.now).qtb }
        ensures s_after { s.new ≡ (load self.now.n self.now.store.now).norms }
    {
        qt_b(self.n, self.store, b).unwrap();
        divide_all(b, bnorm);
        norms(self.n, self.store, s).unwrap();
    }

    // The measure of the column at place j, whose norm is s.
    fn measure(&self, j: usize, b: &[f64], s: f64) -> f64
        requires { (j < self.now.n) × (length b.now ≡ self.now.n) }
        ensures { result ≡ abs_of (div binary64 (dot_of (get_or (load self.now.n self.now.store.now).upper j []) (take (suc j) b.now)) s) }
    {
        let c = j * self.n;
        let k = j + 1;
        let e = c + k;
        abs(dot(&self.store[c..e], &b[..k]).unwrap() / s)
    }

    // b is qt_b divided by the residual norm, norms the column norms, each at its column. The Rust gives None for a NaN; here that is refused
    // 8, as is a measure that is not finite.
    fn measure_of(&self, b: &[f64], norms: &[f64]) -> Result<f64, Refusal>
        requires { (length b.now ≡ self.now.n) × (length norms.now ≡ self.now.n) }
        ensures { reply_of result ≡ largest plus_zero (measures b.now (load self.now.n self.now.store.now).upper (gather (take self.now.n self.now.permutation.now) norms.now)) }
    {
        let mut top = 0.0;
        for j in 0..self.n {
            let o = self.permutation[j];
            let s = norms[o];
            if s != 0.0 {
                let x = self.measure(j, b, s);
                if x != x {
                    return Err(Refusal::Overflow);
                }
                top = max(top, x);
            }
        }
        if is_finite(top) {
            return Ok(top);
        }
        Err(Refusal::Overflow)
    }

    // The same measures, until one ends it: one that is not finite before one above the limit.
    fn above_of(&self, b: &[f64], norms: &[f64], limit: f64) -> Result<bool, Refusal>
        requires { (length b.now ≡ self.now.n) × (length norms.now ≡ self.now.n) }
        ensures { reply_of result ≡ above limit (measures b.now (load self.now.n self.now.store.now).upper (gather (take self.now.n self.now.permutation.now) norms.now)) }
    {
        for j in 0..self.n {
            let column = self.permutation[j];
            let s = norms[column];
            if s != 0.0 {
                let x = self.measure(j, b, s);
                if !is_finite(x) {
                    return Err(Refusal::Overflow);
                }
                if limit < x {
                    return Ok(true);
                }
            }
        }
        Ok(false)
    }

    // b is for qt_b over the residual norm, s for the norms.
    pub(crate) fn max_a_t_b_scaled(
        &self,
        bnorm: f64,
        b: &mut [f64],
        s: &mut [f64],
    ) -> Result<f64, Refusal>
        requires { (length b.old ≡ self.now.n) × (length s.old ≡ self.now.n) }
        ensures { reply_of result ≡ gradient (gather (take self.now.n self.now.permutation.now) (load self.now.n self.now.store.now).norms) bnorm (load self.now.n self.now.store.now).upper (load self.now.n self.now.store.now).qtb }
    {
        self.fill_in(bnorm, b, s);
        self.measure_of(b, s)
    }

    // As `max_a_t_b_scaled`.
    pub(crate) fn above_limit(
        &self,
        bnorm: f64,
        limit: f64,
        b: &mut [f64],
        s: &mut [f64],
    ) -> Result<bool, Refusal>
        requires { (length b.old ≡ self.now.n) × (length s.old ≡ self.now.n) }
        ensures { reply_of result ≡ above_limit (gather (take self.now.n self.now.permutation.now) (load self.now.n self.now.store.now).norms) bnorm limit (load self.now.n self.now.store.now).upper (load self.now.n self.now.store.now).qtb }
    {
        self.fill_in(bnorm, b, s);
        self.above_of(b, s, limit)
    }

    // Column i of R times x, onto the first i + 1 of w.
    fn add_column(&self, i: usize, x: f64, w: &mut [f64])
        requires { (i < self.now.n) × (length w.old ≡ self.now.n) }
        ensures { w.new ≡ axpy_all x (get_or (load self.now.n self.now.store.now).upper i []) w.old }
    {
        let c = i * self.n;
        let k = i + 1;
        let e = c + k;
        axpy(x, &self.store[c..e], &mut w[..k]).unwrap();
    }

    // The entries of x at the columns that the order list names.
    fn combine(&self, x: &[f64], w: &mut [f64])
        requires { (self.now.n ≤ length x.now) × (length w.old ≡ self.now.n) }
        ensures { w.new ≡ combined w.old (load self.now.n self.now.store.now).upper (gather (take self.now.n self.now.permutation.now) x.now) }
    {
        for i in 0..self.n {
            let o = self.permutation[i];
            self.add_column(i, x[o], w);
        }
    }

    // w is for R·x.
    pub(crate) fn a_x_norm(&self, x: &[f64], w: &mut [f64]) -> Result<Normed, Refusal>
        requires { (self.now.n ≤ length x.now) × (length w.old ≡ self.now.n) }
        ensures { measured_of result ≡ finite_or_8 (jx_norm_of (gather (take self.now.n self.now.permutation.now) x.now) (load self.now.n self.now.store.now).upper) (jx_ranges (gather (take self.now.n self.now.permutation.now) x.now) (load self.now.n self.now.store.now).upper) }
    {
        fill(0.0, w);
        self.combine(x, w);
        let s = enorm(w).unwrap();
        if is_finite(s.value) {
            Ok(s)
        } else {
            Err(Refusal::Overflow)
        }
    }
}
