// What the reduction is lent, once its form is known: each value of this type is of that form, so that no working asks for it again.
ghost use Rattle.std.specs.Prelude.{◌≡◌, ◌<◌, length};
ghost use Rattle.reduce.specs.inner.Bench.{Benched};

use leaves::norm::Ranges;

// A factoring under way. bench: the n columns of m rows and the residuals as one more, one after the other; diag: R's diagonal; work: the
// norms it is measured against; order: the column at each place; seen: the ranges that took part in any norm so far.
#[derive(Drop)]
pub struct PivotedQR<'a> {
    pub m: usize,
    pub n: usize,
    pub bench: &'a mut [f64],
    pub diag: &'a mut [f64],
    pub work: &'a mut [f64],
    pub order: &'a mut [usize],
    pub seen: Ranges,
    pub ghost some: { 0 < m },
    pub ghost benched: { Benched m n bench.now },
    pub ghost diag_long: { length diag.now ≡ n },
    pub ghost work_long: { length work.now ≡ n },
    pub ghost order_long: { length order.now ≡ n },
}
