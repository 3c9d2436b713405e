// Document 01, module 2: what factoring starts from.
ghost use Rattle.std.specs.Prelude.{◌≡◌, map, length};
ghost use Rattle.leaves.specs.Norm.{norm, ranges_of};
ghost use Rattle.reduce.specs.Reduction.{start};
ghost use Rattle.reduce.specs.inner.Going.{going, Same};

use crate::pivoted::PivotedQR;
use leaves::norm::{Ranges, either, neither};
use leaves::vector::count;

impl PivotedQR<'_> {
    // The norms of the columns, and the ranges that took part in them.
    fn norms_in(&self, norms: &mut [f64]) -> Ranges
        requires { length norms.old ≡ self.now.n }
        ensures norms_after { norms.new ≡ map norm (going self.now).cols }
        ensures value { result ≡ ranges_of (going self.now).cols }
    {
        let mut seen = neither();
        for (k, norm) in norms.iter_mut().enumerate() {
            let s = self.norm_from(k, 0);
            *norm = s.value;
            seen = either(seen, s.seen);
        }
        seen
    }

    // Of the columns and the residuals that stand in the bench.
    pub(crate) fn begin(&mut self, norms: &mut [f64])
        requires { length norms.old ≡ self.old.n }
        ensures norms_after { norms.new ≡ map norm (going self.old).cols }
        ensures same { Same self.old self.new }
        ensures after { going self.new ≡ start (going self.old).cols (going self.old).rhs }
        ensures seen { self.new.seen ≡ ranges_of (going self.old).cols }
    {
        self.seen = self.norms_in(norms);
        self.diag.copy_from_slice(norms);
        self.work.copy_from_slice(norms);
        count(self.order);
    }
}
