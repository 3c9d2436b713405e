// Document 01, module 2: factoring with column pivoting. The residuals are the bench's last column, and take each
// reflection as it arises (docs/DECISIONS.md, D45).
ghost use Rattle.std.specs.Prelude.{◌≡◌, ◌+◌, ◌-◌, ◌<◌, ◌≤◌, min, length, get_or, drop, []};
ghost use Rattle.leaves.specs.Norm.{norm, ranges, either as either_of};
ghost use Rattle.leaves.specs.Loop.{upto, along};
ghost use Rattle.leaves.specs.Vector.{imax_of};
ghost use Rattle.reduce.specs.Reduction.{swap, pivoted, axis_by, signed as signed_of, reflected, reduced, measured_reflected, measured_at};
ghost use Rattle.reduce.specs.inner.Bench.{moved};
ghost use Rattle.reduce.specs.inner.Going.{grid_of, Beside, going, Same, Begun, Sees};

use crate::pivoted::PivotedQR;
use crate::reflect::{make_axis, signed};
use leaves::norm::{Normed, either, enorm};
use leaves::sizes::least;
use leaves::vector::imax;

impl PivotedQR<'_> {
    // Row by row, from where the columns begin. By hand: with the slice's own `swap`, which tests which place is first, a factoring is up to
    // 2.6% dearer.
    fn swap_columns(&mut self, j: usize, k: usize)
        requires j_lt_k { j < k }
        requires k_lt_n { k < self.old.n }
        ensures beside { Beside self.old self.new }
        ensures after { grid_of self.new ≡ swap [] j k (grid_of self.old) }
    {
        let m = self.m;
        let a = self.row_at(j, 0);
        let b = self.row_at(k, 0);
        let bench = &mut *self.bench;
        for i in 0..m {
            let t = bench[a + i];
            bench[a + i] = bench[b + i];
            bench[b + i] = t;
        }
    }

    // The axis of column j goes straight into the scratch, never back to the bench. The answer is the column's signed norm.
    fn axis_of(&self, j: usize, s: f64, axis: &mut [f64]) -> f64
        requires j_lt_n { j < self.now.n }
        requires j_lt_m { j < self.now.m }
        requires axis_len { length axis.old ≡ self.now.m - j }
        ensures value { result ≡ signed_of s (drop j (get_or (grid_of self.now) j [])) }
        ensures axis_after { axis.new ≡ axis_by result (drop j (get_or (grid_of self.now) j [])) }
    {
        let a = self.row_at(j, j);
        let e = a + (self.m - j);
        let t = signed(s, &self.bench[a..e]);
        make_axis(&self.bench[a..e], t, axis);
        t
    }

    pub(crate) fn norm_from(&self, k: usize, j: usize) -> Normed
        requires k_lt_n { k < self.now.n }
        requires j_le_m { j ≤ self.now.m }
        ensures value_value { result.value ≡ norm (drop j (get_or (grid_of self.now) k [])) }
        ensures seen_value { result.seen ≡ ranges (drop j (get_or (grid_of self.now) k [])) }
    {
        let a = self.row_at(k, j);
        let e = a + (self.m - j);
        enorm(&self.bench[a..e]).unwrap()
    }

    // Place k of r_diag and work gets what place j had.
    fn swap_entries(&mut self, j: usize, k: usize)
        requires j_lt_k { j < k }
        requires k_lt_n { k < self.old.n }
        ensures same { Same self.old self.new }
        ensures after { going self.new ≡ moved j k (going self.old) }
        ensures seen { self.new.seen ≡ self.old.seen }
    {
        self.diag[k] = self.diag[j];
        self.work[k] = self.work[j];
        self.order.swap(j, k);
    }

    // How far from place j the largest of r_diag stands, of places j on.
    fn largest(&self, j: usize) -> usize
        requires { j < self.now.n }
        ensures value { result ≡ imax_of (drop j self.now.diag.now) }
        ensures below { j + result < self.now.n }
    {
        let n = self.n;
        imax(&self.diag[j..n]).unwrap()
    }

    fn pivot(&mut self, j: usize)
        requires { j < self.old.n }
        ensures same { Same self.old self.new }
        ensures after { going self.new ≡ pivoted j (going self.old) }
        ensures seen { self.new.seen ≡ self.old.seen }
    {
        let d = self.largest(j);
        if d == 0 {
            return;
        }
        let k = j + d;
        self.swap_columns(j, k);
        self.swap_entries(j, k);
    }

    fn reflect_from(&mut self, j: usize, s: f64, axis: &mut [f64])
        requires j_lt_n { j < self.old.n }
        requires j_lt_m { j < self.old.m }
        requires axis_len { length axis.old ≡ self.old.m - j }
        ensures same { Same self.old self.new }
        ensures after { going self.new ≡ reflected self.old.n j s (going self.old) }
        ensures sees { Sees (measured_reflected self.old.n j s) self.old self.new }
    {
        let t = self.axis_of(j, s, axis);
        self.diag[j] = -t;
        self.later_columns(j, axis);
        let n = self.n;
        self.reflect_column(j, n, axis);
    }

    // At j = 0 r_diag has the norm of the pivot column already: its largest.
    fn first_pivot(&mut self) -> f64
        requires n_nonzero { 0 < self.old.n }
        requires begun { Begun self.old }
        ensures value { result ≡ norm (get_or (going self.new).cols 0 []) }
        ensures same { Same self.old self.new }
        ensures after { going self.new ≡ pivoted 0 (going self.old) }
        ensures seen { self.new.seen ≡ self.old.seen }
    {
        let k = self.largest(0);
        let s = self.diag[k];
        self.pivot(0);
        s
    }

    // The norm of the pivot column from row j on, once it stands at place j, and all that is seen with it.
    fn pivot_norm(&mut self, j: usize) -> f64
        requires j_lt_n { j < self.old.n }
        requires j_lt_m { j < self.old.m }
        requires begun { j ≡ 0 → Begun self.old }
        ensures value { result ≡ norm (drop j (get_or (going self.new).cols j [])) }
        ensures same { Same self.old self.new }
        ensures after { going self.new ≡ pivoted j (going self.old) }
        ensures seen { self.new.seen ≡ either_of self.old.seen (ranges (drop j (get_or (going self.new).cols j []))) }
    {
        if j == 0 {
            return self.first_pivot();
        }
        self.pivot(j);
        let s = self.norm_from(j, j);
        self.seen = either(self.seen, s.seen);
        s.value
    }

    // A zero reduced norm sets r_diag 0 and skips the reflection.
    fn reduce_column(&mut self, j: usize, axis: &mut [f64; 128])
        requires j_lt_n { j < self.old.n }
        requires j_lt_m { j < self.old.m }
        requires begun { j ≡ 0 → Begun self.old }
        ensures same { Same self.old self.new }
        ensures after { going self.new ≡ reduced self.old.n j (going self.old) }
        ensures sees { Sees (measured_at self.old.n j) self.old self.new }
    {
        let s = self.pivot_norm(j);
        if s == 0.0 {
            self.diag[j] = 0.0;
            return;
        }
        let len = self.m - j;
        self.reflect_from(j, s, &mut axis[..len]);
    }

    pub(crate) fn reduce(&mut self, axis: &mut [f64; 128])
        requires { Begun self.old }
        ensures same { Same self.old self.new }
        ensures after { going self.new ≡ upto (reduced self.old.n) (min self.old.m self.old.n) (going self.old) }
        ensures sees { Sees (along (measured_at self.old.n) (reduced self.old.n) (min self.old.m self.old.n)) self.old self.new }
    {
        for j in 0..least(self.m, self.n) {
            self.reduce_column(j, axis);
        }
    }
}
