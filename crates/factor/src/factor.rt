// Document 01, modules 2 and 3: a factoring from its lent slices to its lent slices, all tests passed.
ghost use Rattle.std.specs.Prelude.{◌≡◌, [], ◌++◌, map, ◌+◌, ◌*◌, ◌≤◌, length, get_or, take, drop, false};
ghost use Rattle.leaves.specs.Norm.{norm, ranges_of};
ghost use Rattle.leaves.specs.Square.{joined, zeros};
ghost use Rattle.factor.specs.Room.{lay};
ghost use Rattle.factor.specs.Factoring.{uppers, no_lower, transformed, factored_room, factor_worked};
ghost use Rattle.reduce.specs.Reduction.{measured};
ghost use Rattle.leaves.specs.Loop.{count_from};
ghost use Rattle.leaves.specs.Tests.{all_finite};
ghost use Rattle.reduce.specs.inner.Bench.{grid};
ghost use Rattle.factor.specs.inner.Worked.{outcome, SquareLong};
ghost use Rattle.factor.specs.inner.Going.{jacobian_of, residuals_of, reduced_of, Same};

use crate::store::{Bench, PivotedQR};
use leaves::norm::Ranges;
use leaves::pieces::{clear_long, copy_long};
use leaves::reply::Refusal;
use leaves::sizes::filled;
use leaves::vector::{all_finite, count};
use reduce::bench::reduce_filled;

// The norms are in their place already.
fn lay_store(bench: Bench, diag: &[f64], store: &mut [f64])
    requires diag_len { length diag.now ≡ bench.n }
    requires n_in_bounds { bench.n * bench.n + 4 * bench.n ≤ length store.old }
    ensures store_after { store.new ≡ joined (uppers bench.entry.m 0 (take bench.entry.n (grid bench.entry.m bench.entry.n bench.entry.cells.now)) diag.now) (no_lower bench.entry.n) ++ (transformed bench.entry.n (get_or (grid bench.entry.m bench.entry.n bench.entry.cells.now) bench.entry.n []) ++ (take bench.entry.n (drop (bench.entry.n * bench.entry.n + bench.entry.n) store.old) ++ (zeros bench.entry.n ++ (zeros bench.entry.n ++ drop (bench.entry.n * bench.entry.n + 4 * bench.entry.n) store.old)))) }
    ensures n_len { length (joined (uppers bench.entry.m 0 (take bench.entry.n (grid bench.entry.m bench.entry.n bench.entry.cells.now)) diag.now) (no_lower bench.entry.n)) ≡ bench.entry.n * bench.entry.n }
{
    let n = bench.n;
    let nn = n * n;
    let p = nn + n;
    let q = p + n;
    let e = q + 2 * n;
    bench.lay_out(diag, &mut store[..nn]);
    bench.take_rhs(&mut store[nn..p]);
    leaves::vector::fill(0.0, &mut store[q..e]);
}

impl PivotedQR<'_> {
    fn reduce(&mut self) -> Ranges
        ensures same { Same self.old self.new }
        ensures store_after { self.new.store.now ≡ lay (factored_room self.old.m self.old.n (map norm (jacobian_of self.old)) (reduced_of self.old) (drop (self.old.n * self.old.n + 4 * self.old.n) self.old.store.now)) }
        ensures order_after { self.new.order.now ≡ (reduced_of self.old).order ++ drop self.old.n self.old.order.now }
        ensures bench_after { self.new.bench.now ≡ zeros (self.old.m * self.old.n + self.old.m) ++ drop (self.old.m * self.old.n + self.old.m) self.old.bench.now }
        ensures square_long { SquareLong self.old.m self.old.n (reduced_of self.old) }
        ensures order_long { length (reduced_of self.old).order ≡ self.old.n }
        ensures value { result ≡ ranges_of (measured self.old.m self.old.n (jacobian_of self.old) (residuals_of self.old)) }
    {
        let m = self.m;
        let n = self.n;
        let need = m * n + m;
        let a = n * n + n;
        let e = a + n;
        let mut diag: [f64; 16] = filled(0.0);
        let diag = &mut diag[..n];
        let bench = &mut self.bench[..need];
        let seen = reduce_filled(
            m,
            n,
            &mut self.store[a..e],
            diag,
            &mut self.order[..n],
            bench,
        )
        .unwrap();
        lay_store(Bench { m, n, cells: bench }, diag, self.store);
        clear_long(bench);
        seen
    }

    fn clear(&mut self)
        ensures same { Same self.old self.new }
        ensures store_after { self.new.store.now ≡ zeros (self.old.n * self.old.n + 4 * self.old.n) ++ drop (self.old.n * self.old.n + 4 * self.old.n) self.old.store.now }
        ensures order_after { self.new.order.now ≡ count_from self.old.n 0 ++ drop self.old.n self.old.order.now }
        ensures bench_unchanged { self.new.bench.now ≡ self.old.bench.now }
    {
        let n = self.n;
        let need = n * n + 4 * n;
        leaves::vector::fill(0.0, &mut self.store[..need]);
        count(&mut self.order[..n]);
    }

    // R, qt_b and the norms. Below R the square is +0, so it is tested whole.
    fn all_finite(&self) -> bool
        ensures { result ≡ all_finite (take (self.now.n * self.now.n + 2 * self.now.n) self.now.store.now) }
    {
        let n = self.n;
        let k = n * n + 2 * n;
        all_finite(&self.store[..k])
    }

    // Of what stands in the bench. Answers the ranges that took part in the norms; refused 8 where R, qt_b or a column norm is
    // not finite.
    pub(crate) fn filled_working(&mut self) -> Result<Ranges, Refusal>
        ensures same_store { self.new.store.ghost_name ≡ self.old.store.ghost_name }
        ensures same_order { self.new.order.ghost_name ≡ self.old.order.ghost_name }
        ensures same_bench { self.new.bench.ghost_name ≡ self.old.bench.ghost_name }
        ensures whole { outcome result self.old.m self.old.n self.new.store.now self.new.order.now self.new.bench.now ≡ factor_worked self.old.m self.old.n (take (self.old.m * self.old.n) self.old.bench.now) (drop (self.old.m * self.old.n) self.old.bench.now) self.old.store.now self.old.order.now self.old.bench.now }
    {
        let seen = self.reduce();
        if self.all_finite() {
            return Ok(seen);
        }
        self.clear();
        Err(Refusal::Overflow)
    }

    // The Jacobian and then the residuals, in the bench.
    fn copy_in(&mut self, jacobian: &[f64], residuals: &[f64])
        requires jacobian_long { self.old.m * self.old.n ≤ length jacobian.now }
        requires residuals_long { self.old.m ≤ length residuals.now }
        ensures same { Same self.old self.new }
        ensures store_unchanged { self.new.store.now ≡ self.old.store.now }
        ensures order_unchanged { self.new.order.now ≡ self.old.order.now }
        ensures bench_after { self.new.bench.now ≡ take (self.old.m * self.old.n) jacobian.now ++ (take self.old.m residuals.now ++ drop (self.old.m * self.old.n + self.old.m) self.old.bench.now) }
    {
        let m = self.m;
        let p = m * self.n;
        let e = p + m;
        copy_long(&jacobian[..p], &mut self.bench[..p]).unwrap();
        self.bench[p..e].copy_from_slice(&residuals[..m]);
    }

    pub(crate) fn factor_working(
        &mut self,
        jacobian: &[f64],
        residuals: &[f64],
    ) -> Result<Ranges, Refusal>
        requires jacobian_long { self.old.m * self.old.n ≤ length jacobian.now }
        requires residuals_long { self.old.m ≤ length residuals.now }
        ensures same_store { self.new.store.ghost_name ≡ self.old.store.ghost_name }
        ensures same_order { self.new.order.ghost_name ≡ self.old.order.ghost_name }
        ensures same_bench { self.new.bench.ghost_name ≡ self.old.bench.ghost_name }
        ensures whole { outcome result self.old.m self.old.n self.new.store.now self.new.order.now self.new.bench.now ≡ factor_worked self.old.m self.old.n jacobian.now residuals.now self.old.store.now self.old.order.now self.old.bench.now }
    {
        self.copy_in(jacobian, residuals);
        self.filled_working()
    }
}
