// Document 01, module 2: one reflection of the factoring, on the lower end of columns from row j on.
ghost use Rattle.std.specs.Prelude.{◌≡◌, [], suc, ◌+◌, ◌-◌, ◌*◌, ◌<◌, ◌≤◌, length, get_or, set};
ghost use Rattle.leaves.specs.Loop.{between, along_between};
ghost use Rattle.reduce.specs.Reduction.{axis_by, reflect as reflect_of, reflect_from, later, signed as signed_of, shrunk as shrunk_of, measured_later};
ghost use Rattle.reduce.specs.inner.Bench.{divided, renewing, measured_renewing, stale as stale_of};
ghost use Rattle.reduce.specs.inner.Going.{grid_of, Beside, going, Same, Sees};

use crate::pivoted::PivotedQR;
use leaves::norm::either;
use leaves::number::{epsmch, is_negative, max};
use leaves::root::sqrt;
use leaves::vector::{axpy, dot};

// The norm of a column with the sign of its first place.
pub(crate) fn signed(s: f64, col: &[f64]) -> f64
    requires { 0 < length col.now }
    ensures { result ≡ signed_of s col.now }
{
    if is_negative(col[0]) { -s } else { s }
}

fn divide(col: &[f64], t: f64, axis: &mut [f64])
    requires { length axis.old ≡ length col.now }
    ensures { axis.new ≡ divided t col.now }
{
    for (i, x) in col.iter().enumerate() {
        axis[i] = *x / t;
    }
}

// Straight into the scratch: the column itself is not needed again.
pub(crate) fn make_axis(col: &[f64], t: f64, axis: &mut [f64])
    requires axis_len { length axis.old ≡ length col.now }
    requires col_nonzero { 0 < length col.now }
    ensures { axis.new ≡ axis_by t col.now }
{
    divide(col, t, axis);
    axis[0] = axis[0] + 1.0;
}

fn reflect(axis: &[f64], col: &mut [f64])
    requires col_len { length col.old ≡ length axis.now }
    requires axis_nonzero { 0 < length axis.now }
    ensures { col.new ≡ reflect_of axis.now col.old }
{
    let s = dot(&col[..], axis).unwrap();
    axpy(-(s / axis[0]), axis, col).unwrap();
}

fn shrunk(d: f64, x: f64) -> f64
    ensures { result ≡ shrunk_of d x }
{
    let t = x / d;
    d * sqrt(max(1.0 - t * t, 0.0))
}

fn stale(s: f64, w: f64) -> bool
    ensures { result ≡ stale_of s w }
{
    let t = s / w;
    0.05 * (t * t) <= epsmch()
}

impl PivotedQR<'_> {
    // Where row i of column k stands.
    pub(crate) fn row_at(&self, k: usize, i: usize) -> usize
        requires k_le_n { k ≤ self.now.n }
        requires i_le_m { i ≤ self.now.m }
        ensures value { result ≡ k * self.now.m + i }
        ensures i_bound { result + (self.now.m - i) ≤ suc self.now.n * self.now.m }
    {
        k * self.m + i
    }

    // The residuals are column n.
    pub(crate) fn reflect_column(&mut self, j: usize, k: usize, axis: &[f64])
        requires k_le_n { k ≤ self.old.n }
        requires j_lt_m { j < self.old.m }
        requires axis_len { length axis.now ≡ self.old.m - j }
        ensures beside { Beside self.old self.new }
        ensures after { grid_of self.new ≡ set (grid_of self.old) k (reflect_from j axis.now (get_or (grid_of self.old) k [])) }
    {
        let a = self.row_at(k, j);
        let e = a + (self.m - j);
        reflect(axis, &mut self.bench[a..e]);
    }

    // A norm of zero stays. Another loses the row that has gone to R, or is worked out anew from the rows below.
    fn renew(&mut self, j: usize, k: usize)
        requires k_lt_n { k < self.old.n }
        requires j_lt_m { j < self.old.m }
        ensures same { Same self.old self.new }
        ensures after { going self.new ≡ renewing j k (going self.old) }
        ensures sees { Sees (measured_renewing j k) self.old self.new }
    {
        let d = self.diag[k];
        if d == 0.0 {
            return;
        }
        let a = self.row_at(k, j);
        let s = shrunk(d, self.bench[a]);
        if stale(s, self.work[k]) {
            let z = self.norm_from(k, j + 1);
            self.diag[k] = z.value;
            self.work[k] = z.value;
            self.seen = either(self.seen, z.seen);
        } else {
            self.diag[k] = s;
        }
    }

    fn later_column(&mut self, j: usize, k: usize, axis: &[f64])
        requires k_lt_n { k < self.old.n }
        requires j_lt_m { j < self.old.m }
        requires axis_len { length axis.now ≡ self.old.m - j }
        ensures same { Same self.old self.new }
        ensures after { going self.new ≡ later j axis.now k (going self.old) }
        ensures sees { Sees (measured_later j axis.now k) self.old self.new }
    {
        self.reflect_column(j, k, axis);
        self.renew(j, k);
    }

    pub(crate) fn later_columns(&mut self, j: usize, axis: &[f64])
        requires j_lt_n { j < self.old.n }
        requires j_lt_m { j < self.old.m }
        requires axis_len { length axis.now ≡ self.old.m - j }
        ensures same { Same self.old self.new }
        ensures after { going self.new ≡ between (later j axis.now) (suc j) self.old.n (going self.old) }
        ensures sees { Sees (along_between (measured_later j axis.now) (later j axis.now) (suc j) self.old.n) self.old self.new }
    {
        for k in j + 1..self.n {
            self.later_column(j, k, axis);
        }
    }
}
