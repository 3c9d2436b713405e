// Document 01, modules 2 and 3: the reduction on lent slices.
ghost use Rattle.std.specs.Prelude.{◌≡◌, false, ◌+◌, ◌*◌, length};
ghost use Rattle.leaves.specs.Reply.{answered, reply_of, failed_by};
ghost use Rattle.leaves.specs.Tests.{first_of, outside};
ghost use Rattle.reduce.specs.Reduced.{reduced_as, reduce_tests, filled_call};
ghost use Rattle.reduce.specs.inner.Going.{Same};

use crate::pivoted::PivotedQR;
use leaves::norm::{Ranges, neither};
use leaves::reply::Refusal;
use leaves::sizes::{filled, outside};

impl PivotedQR<'_> {
    // Of what stands in the bench.
    fn factor(&mut self, norms: &mut [f64], axis: &mut [f64; 128])
        requires sizes { outside self.old.m self.old.n ≡ false }
        requires norms_len { length norms.old ≡ self.old.n }
        ensures same { Same self.old self.new }
        ensures whole { reduced_as (answered self.new.seen) norms.new self.new.diag.now self.new.order.now self.new.bench.now ≡ filled_call self.old.m self.old.n norms.old self.old.diag.now self.old.order.now self.old.bench.now }
    {
        self.begin(norms);
        self.reduce(axis);
    }
}

// The columns and the residuals stand in the bench: its length tells theirs.
fn check(
    m: usize,
    n: usize,
    norms: usize,
    diag: usize,
    order: usize,
    bench: usize,
) -> Result<(), Refusal>
    ensures { failed_by result ≡ first_of (reduce_tests m n (m * n) m norms diag order bench) }
{
    if outside(m, n) {
        return Err(Refusal::Sizes);
    }
    if norms != n {
        return Err(Refusal::Length);
    }
    if diag != n {
        return Err(Refusal::Length);
    }
    if order != n {
        return Err(Refusal::Length);
    }
    if bench != m * n + m {
        Err(Refusal::Length)
    } else {
        Ok(())
    }
}

// All tests passed: what stands in the bench, reduced.
fn reduce_whole(
    m: usize,
    n: usize,
    norms: &mut [f64],
    diag: &mut [f64],
    order: &mut [usize],
    bench: &mut [f64],
) -> Ranges
    requires n_value { outside m n ≡ false }
    requires norms_len { length norms.old ≡ n }
    requires diag_len { length diag.old ≡ n }
    requires order_len { length order.old ≡ n }
    requires bench_len { length bench.old ≡ m * n + m }
    ensures { reduced_as (answered result) norms.new diag.new order.new bench.new ≡ filled_call m n norms.old diag.old order.old bench.old }
{
    let mut work: [f64; 16] = filled(0.0);
    let mut axis: [f64; 128] = filled(0.0);
    let mut qr = PivotedQR {
        m,
        n,
        bench,
        diag,
        work: &mut work[..n],
        order,
        seen: neither(),
    };
    qr.factor(norms, &mut axis);
    qr.seen
}

// Reduces a Jacobian to R by reflections with column pivoting, and its residuals with it. Both stand in the bench: with frozen columns it is
// the free ones that are gathered there (02, #108).
//
// m, n: rows and columns. norms: n numbers, not read; on exit the norms of the columns. diag: n numbers, not read; on exit R's diagonal,
// min(m, n) of them by reflections. order: n places, not read; on exit the column that stands at each. bench: m·n + m numbers, the columns
// one after the other and then the residuals; on exit the reduced columns, column k with R's first k, and then the transformed residuals.
// Answers the ranges that took part in any norm worked out for it (02, #106).
// Refused 2 for m outside 1 to 128 or n outside 1 to 16, 3 where a slice is not of its exact length; every slice is then as it was.
pub fn reduce_filled(
    m: usize,
    n: usize,
    norms: &mut [f64],
    diag: &mut [f64],
    order: &mut [usize],
    bench: &mut [f64],
) -> Result<Ranges, Refusal>
    ensures { reduced_as (reply_of result) norms.new diag.new order.new bench.new ≡ filled_call m n norms.old diag.old order.old bench.old }
{
    check(m, n, norms.len(), diag.len(), order.len(), bench.len())?;
    Ok(reduce_whole(m, n, norms, diag, order, bench))
}
