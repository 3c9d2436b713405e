// Document 01, 'Job sheet and its program': a sheet worked, from its bytes to its answer.
ghost use Rattle.std.specs.Prelude.{◌≡◌, length};
ghost use Rattle.sheet.specs.Sheet.{count_of, task_of, job_of};
ghost use Rattle.sheet.specs.Fit.{fit_of, finished, task_from, worked_in, worked, sheet_call};
ghost use Rattle.sheet.specs.inner.Handed.{numbers_call};

use crate::answer::Answer;
use crate::check::check_fields;
use crate::head::head_of;
use crate::number::doubles_into;
use crate::seek::{search, start};
use crate::sized::{Bytes, Numbers, Rest, Sizes};
use factor::pivoted_qr::pivoted_qr;
use factor::state::State;
use leaves::reply::Refusal;
use leaves::sizes::filled;

impl Rest<'_> {
    // The call, after a factoring.
    fn work(
        &self,
        st: State,
        store: &mut [f64],
        order: &[usize],
        step: &mut [f64],
    ) -> Result<Answer, Refusal>
        ensures { finished (fit_of result) step.new ≡ task_from (task_of self.now.call self.now.n self.now.xs.now) st order.now store.old step.old }
    {
        let rest = self.xs;
        let n = self.n;
        if self.call == 1 {
            let radius = rest[n];
            let lambda = rest[n + 1];
            return search(st, store, order, &rest[..n], radius, lambda, step);
        }
        let bound = rest[n];
        start(st, store, order, &rest[..n], bound, step)
    }
}

impl Numbers<'_> {
    fn work_in(
        &self,
        store: &mut [f64],
        order: &mut [usize],
        bench: &mut [f64],
        step: &mut [f64],
    ) -> Result<Answer, Refusal>
        ensures { finished (fit_of result) step.new ≡ worked_in (job_of self.now.of.head self.now.xs.now) store.old order.old bench.old step.old }
    {
        let xs = self.xs;
        let h = self.of.head;
        let m = h.m;
        let n = h.n;
        let a = m * n;
        let f = pivoted_qr(m, n, &xs[..a], &xs[a..a + m], store, order, bench);
        f.answer?;
        let rest = self.rest();
        rest.work(f.state, store, order, step)
    }

    fn work(&self, step: &mut [f64]) -> Result<Answer, Refusal>
        ensures { finished (fit_of result) step.new ≡ worked (job_of self.now.of.head self.now.xs.now) step.old }
    {
        let mut store: [f64; 320] = filled(0.0);
        let mut order: [usize; 16] = filled(0);
        let mut bench: [f64; 2176] = filled(0.0);
        self.work_in(&mut store, &mut order, &mut bench, step)
    }
}

impl Bytes<'_> {
    // The tests of the numbers, then the working. The numbers go to xs.
    fn work_in(&self, xs: &mut [f64], step: &mut [f64]) -> Result<Answer, Refusal>
        requires { length xs.old ≡ count_of self.now.of.head }
        ensures { finished (fit_of result) step.new ≡ numbers_call self.now.of.head self.now.bytes.now step.old }
    {
        doubles_into(self.bytes, xs);
        let numbers = Numbers { of: self.of, xs };
        numbers.check()?;
        numbers.work(step)
    }

    fn work(&self, step: &mut [f64]) -> Result<Answer, Refusal>
        ensures { finished (fit_of result) step.new ≡ numbers_call self.now.of.head self.now.bytes.now step.old }
    {
        let k = self.of.count();
        let mut xs: [f64; 2194] = filled(0.0);
        self.work_in(&mut xs[..k], step)
    }
}

// Works a job sheet: document 01's call 1 or call 2.
//
// sheet: its bytes, only read. step: on exit its first n are the step, each entry at its column, and only where there is an answer.
// Answers the fit: radius (call 2), lambda, scaled norm, trials, determined, and how many columns there are.
// Refused 1, 2, 3, 6, 7 by the sheet's own tests, in this order, over all its fields (3 also where step has under n places), then 8 by the
// working; step is then as it was.
pub fn fit(sheet: &[u8], step: &mut [f64]) -> Result<Answer, Refusal>
    ensures { finished (fit_of result) step.new ≡ sheet_call sheet.now step.old }
{
    if sheet.len() < 3 {
        return Err(Refusal::Sheet);
    }
    let head = head_of(sheet);
    check_fields(head, sheet.len(), step.len())?;
    let of = Sizes { head };
    let whole = Bytes { of, bytes: sheet };
    whole.work(step)
}
