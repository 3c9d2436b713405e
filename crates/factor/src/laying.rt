// Document 01, modules 2 and 3: R and the transformed residuals, taken from the bench into the store's parts.
ghost use Rattle.std.specs.Prelude.{◌≡◌, [], ◌++◌, suc, ◌+◌, ◌-◌, ◌*◌, ◌<◌, ◌≤◌, length, get_or, take};
ghost use Rattle.leaves.specs.Square.{joined, zeros};
ghost use Rattle.factor.specs.Factoring.{upper_column, uppers, no_lower, transformed};
ghost use Rattle.reduce.specs.inner.Bench.{grid};
ghost use Rattle.leaves.specs.inner.Patch.{patch};

use crate::store::Bench;
use leaves::sizes::least;

// Where column k stands, where columns are m apart.
fn column_at(m: usize, n: usize, k: usize) -> usize
    requires m_bound { m ≤ 128 }
    requires n_bound { n ≤ 16 }
    requires k_le_n { k ≤ n }
    ensures value { result ≡ k * m }
    ensures m_bound_2 { result + m ≤ suc n * m }
{
    k * m
}

// The first of a list, then +0 to the end.
fn lay_front(top: usize, col: &[f64], out: &mut [f64])
    requires top_in_bounds { top ≤ length col.now }
    requires top_in_bounds_2 { top ≤ length out.old }
    ensures { out.new ≡ take top col.now ++ zeros (length out.old - top) }
{
    let e = out.len();
    out[..top].copy_from_slice(&col[..top]);
    leaves::vector::fill(0.0, &mut out[top..e]);
}

// Column k of R, d on its diagonal, +0 below. R's rows from m on are 0.
fn lay_in(k: usize, d: f64, col: &[f64], out: &mut [f64])
    requires { k < length out.old }
    ensures { out.new ≡ upper_column (length col.now) k col.now d ++ zeros (length out.old - suc k) }
{
    let m = col.len();
    if m <= k {
        lay_front(m, col, out);
        return;
    }
    lay_front(k, col, out);
    out[k] = d;
}

// Places of qt_b from m on are 0.
fn lay_rhs(col: &[f64], qtb: &mut [f64])
    ensures { qtb.new ≡ transformed (length qtb.old) col.now }
{
    let top = least(col.len(), qtb.len());
    lay_front(top, col, qtb);
}

impl<'a> Bench<'a> {
    // Column k; the residuals are column n.
    fn column(self, k: usize) -> &'a [f64]
        requires { k ≤ self.n }
        ensures value { result.now ≡ get_or (grid self.entry.m self.entry.n self.entry.cells.now) k [] }
        ensures len { length result.now ≡ self.entry.m }
    {
        let a = column_at(self.m, self.n, k);
        let e = a + self.m;
        &self.cells[a..e]
    }

    fn lay_column(self, k: usize, d: f64, square: &mut [f64])
        requires k_lt_n { k < self.n }
        requires square_len { length square.old ≡ self.n * self.n }
        ensures { square.new ≡ patch (k * self.entry.n) self.entry.n square.old (upper_column self.entry.m k (get_or (grid self.entry.m self.entry.n self.entry.cells.now) k []) d ++ zeros (self.entry.n - suc k)) }
    {
        let n = self.n;
        let from = column_at(n, n, k);
        let to = from + n;
        lay_in(k, d, self.column(k), &mut square[from..to]);
    }

    pub(crate) fn lay_out(self, diag: &[f64], square: &mut [f64])
        requires diag_len { length diag.now ≡ self.n }
        requires square_len { length square.old ≡ self.n * self.n }
        ensures { square.new ≡ joined (uppers self.entry.m 0 (take self.entry.n (grid self.entry.m self.entry.n self.entry.cells.now)) diag.now) (no_lower self.entry.n) }
    {
        for (k, d) in diag.iter().enumerate() {
            self.lay_column(k, *d, square);
        }
    }

    pub(crate) fn take_rhs(self, qtb: &mut [f64])
        requires { length qtb.old ≡ self.n }
        ensures { qtb.new ≡ transformed self.entry.n (get_or (grid self.entry.m self.entry.n self.entry.cells.now) self.entry.n []) }
    {
        lay_rhs(self.column(self.n), qtb);
    }
}
