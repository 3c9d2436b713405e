// Document 01, module 5, elimination in place. R is mirrored, so that column k holds row k of R from its diagonal on; each entry of the
// diagonal begins a new row, which is rotated into these rows one after the other. What is left there is Lᵀ by rows, L by columns. The
// mirror is the Rust's; rotations from R's rows would need none. A row and the new row are lent from place k on, as is quickest.
ghost use Rattle.std.specs.Prelude.{◌≡◌, ◌+◌, ◌*◌, ◌-◌, ◌<◌, ◌≤◌, length, take, drop};
ghost use Rattle.leaves.specs.Number.{plus_zero};
ghost use Rattle.eliminate.specs.Eliminate.{lesser, givens, turned_all, left_all, started, eliminated, heads};
ghost use Rattle.eliminate.specs.inner.Edges.{edges_of, up_to, ahead, TurnsPlace, Ahead, Turns, Ends, MirrorsColumn, Mirrors, Settles, Eliminates};
ghost use Rattle.eliminate.specs.inner.Kept.{Kept};

use crate::elimination::Elimination;
use leaves::number::{abs, abs_below};
use leaves::root::sqrt;
use leaves::sizes::filled;

#[derive(Clone, Copy)]
pub struct Rotation {
    pub sin: f64,
    pub cos: f64,
}

// A right side's entry after a rotation, and what is left of the new row's.
#[derive(Clone, Copy)]
pub struct Pair {
    pub b: f64,
    pub rest: f64,
}

fn lesser_of(t: f64) -> f64
    ensures { result ≡ lesser t }
{
    0.5 / sqrt(0.25 + 0.25 * (t * t))
}

// The quotient is chosen first: one root for both ways.
fn givens_of(r: f64, l: f64) -> Rotation
    ensures { result ≡ givens r l }
{
    let cot = abs_below(r, abs(l));
    let t = if cot { r / l } else { l / r };
    let c = lesser_of(t);
    if cot {
        Rotation { sin: c, cos: c * t }
    } else {
        Rotation { sin: c * t, cos: c }
    }
}

fn turn_rest(col: &mut [f64], l: &mut [f64], g: Rotation)
    requires { length col.old ≡ length l.old }
    ensures col_after { col.new ≡ turned_all g col.old l.old }
    ensures l_after { l.new ≡ left_all g col.old l.old }
{
    let sin = g.sin;
    let cos = g.cos;
    for i in 0..col.len() {
        let x = col[i];
        let y = l[i];
        l[i] = -sin * x + cos * y;
        col[i] = cos * x + sin * y;
    }
}

// A row of R from its diagonal on, and the new row from the same place on; b and rest are their right sides. The new row's first entry
// is not read again, and is turned with the others.
fn turn_place(col: &mut [f64], l: &mut [f64], b: f64, rest: f64) -> Pair
    requires col_len { length col.old ≡ length l.old }
    requires col_nonzero { 0 < length col.old }
    ensures { TurnsPlace col.old col.new l.old l.new b rest result }
{
    let g = givens_of(col[0], l[0]);
    let sin = g.sin;
    let cos = g.cos;
    turn_rest(col, l, g);
    Pair {
        b: cos * b + sin * rest,
        rest: -sin * b + cos * rest,
    }
}

impl Elimination<'_> {
    // Where place i of column j stands.
    fn cell_at(&self, j: usize, i: usize) -> usize
        requires { (j < self.now.n) × (i < self.now.n) }
        ensures value { result ≡ j * self.now.n + i }
        ensures i_bound { result + (self.now.n - i) ≤ self.now.n * self.now.n }
    {
        j * self.n + i
    }

    // The new row l, whose right side is q, is rotated into row k of the square; where its entry is zero the row is skipped.
    fn rotate_place(&mut self, k: usize, l: &mut [f64; 16], q: f64) -> f64
        requires { k < self.old.n }
        ensures kept { Kept self.old self.new }
        ensures ahead { Ahead self.old.n self.old.upper_r.now self.new.upper_r.now (ahead self.old.n k self.old.upper_r.now self.old.rhs.now (take self.old.n l.old) q) (ahead self.old.n (k + 1) self.new.upper_r.now self.new.rhs.now (take self.old.n l.new) result) }
    {
        if l[k] == 0.0 {
            return q;
        }
        let n = self.n;
        let b = self.rhs[k];
        let from = self.cell_at(k, k);
        let to = from + (n - k);
        let p = turn_place(&mut self.upper_r[from..to], &mut l[k..n], b, q);
        self.rhs[k] = p.b;
        p.rest
    }

    fn rotate_row(&mut self, j: usize, l: &mut [f64; 16])
        requires { j ≤ self.old.n }
        ensures kept { Kept self.old self.new }
        ensures turned { Turns self.old.n self.old.upper_r.now self.new.upper_r.now self.new.rhs.now (ahead self.old.n j self.old.upper_r.now self.old.rhs.now (take self.old.n l.old) plus_zero) }
    {
        let mut q = 0.0;
        for k in j..self.n {
            q = self.rotate_place(k, l, q);
        }
    }

    fn start_row(&mut self, j: usize, d: f64)
        requires { j < self.old.n }
        ensures kept { Kept self.old self.new }
        ensures turned { Turns self.old.n self.old.upper_r.now self.new.upper_r.now self.new.rhs.now (up_to j (edges_of self.old.n self.old.upper_r.now) self.old.rhs.now (started d (drop j (edges_of self.old.n self.old.upper_r.now)) (drop j self.old.rhs.now))) }
    {
        if d == 0.0 {
            return;
        }
        let mut l: [f64; 16] = filled(0.0);
        l[j] = d;
        self.rotate_row(j, &mut l);
    }

    // The diagonal entry of a row that is done; v goes in its place.
    fn end_row(&mut self, j: usize, v: f64) -> f64
        requires { j < self.old.n }
        ensures kept { Kept self.old self.new }
        ensures rhs_same { self.new.rhs.now ≡ self.old.rhs.now }
        ensures ended { Ends self.old.n j self.old.upper_r.now self.new.upper_r.now v result }
    {
        let p = self.cell_at(j, j);
        let old = self.upper_r[p];
        self.upper_r[p] = v;
        old
    }

    fn mirror_column(&mut self, k: usize)
        requires { k < self.old.n }
        ensures kept { Kept self.old self.new }
        ensures rhs_same { self.new.rhs.now ≡ self.old.rhs.now }
        ensures mirrored { MirrorsColumn self.old.n k self.old.upper_r.now self.new.upper_r.now }
    {
        for i in k + 1..self.n {
            let p = self.cell_at(i, k);
            let q = self.cell_at(k, i);
            self.upper_r[q] = self.upper_r[p];
        }
    }

    fn mirror(&mut self)
        ensures kept { Kept self.old self.new }
        ensures rhs_same { self.new.rhs.now ≡ self.old.rhs.now }
        ensures mirrored { Mirrors self.old.n self.old.upper_r.now self.new.upper_r.now }
    {
        for k in 0..self.n {
            self.mirror_column(k);
        }
    }

    fn save_diagonal(&self, saved: &mut [f64])
        requires { length saved.old ≡ self.now.n }
        ensures { saved.new ≡ heads (edges_of self.now.n self.now.upper_r.now) }
    {
        for (j, d) in saved.iter_mut().enumerate() {
            let p = self.cell_at(j, j);
            *d = self.upper_r[p];
        }
    }

    // R's diagonal is lost to Lᵀ's, and put back row by row.
    fn eliminate_rows(&mut self, ds: &[f64], ldiag: &mut [f64], saved: &[f64])
        requires ds_len { (length ds.now ≡ self.old.n) × (length ldiag.old ≡ self.old.n) }
        requires saved_value { saved.now ≡ heads (edges_of self.old.n self.old.upper_r.now) }
        ensures kept { Kept self.old self.new }
        ensures settled { Settles self.old.n self.old.upper_r.now self.new.upper_r.now self.new.rhs.now ldiag.new (eliminated ds.now (edges_of self.old.n self.old.upper_r.now) self.old.rhs.now) }
    {
        for j in 0..self.n {
            self.start_row(j, ds[j]);
            ldiag[j] = self.end_row(j, saved[j]);
        }
    }

    pub(crate) fn eliminate(&mut self, ds: &[f64], ldiag: &mut [f64])
        requires { (length ds.now ≡ self.old.n) × (length ldiag.old ≡ self.old.n) }
        ensures kept { Kept self.old self.new }
        ensures eliminated { Eliminates self.old.n ds.now self.old.upper_r.now self.new.upper_r.now self.old.rhs.now self.new.rhs.now ldiag.new }
    {
        self.mirror();
        let n = self.n;
        let mut saved: [f64; 16] = filled(0.0);
        self.save_diagonal(&mut saved[..n]);
        self.eliminate_rows(ds, ldiag, &saved[..n]);
    }
}
