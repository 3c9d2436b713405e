// Document 01, module 7: the trials.
ghost use Rattle.std.specs.Prelude.{◌≡◌};
ghost use Rattle.leaves.specs.Norm.{norm as norm_of, ranges_of, either as either_of};
ghost use Rattle.factor.specs.Room.{emptied};
ghost use Rattle.search.specs.Problem.{placed, scaled_step};
ghost use Rattle.search.specs.Run.{trials_from};
ghost use Rattle.search.specs.Measured.{measured_bounds, measured_trials};
ghost use Rattle.search.specs.Search.{concluded};
ghost use Rattle.search.specs.inner.Read.{with_step, Saw, unanswered, next_of, damped as damped_run};

use crate::LMParameter;
use crate::bounds::{Going, first_lambda, is_falling, is_within, next_of, raised_of, upper_bound};
use crate::lent::TrustRegion;
use leaves::norm::{Normed, Ranges, either};
use leaves::number::is_finite;
use leaves::reply::Refusal;

// An answer, but for its step.
fn told(
    lambda: f64,
    norm: f64,
    trials: usize,
    seen: Ranges,
) -> Result<(LMParameter, Ranges), Refusal>
    ensures { result ≡ Ok (record { lambda = lambda; dp_norm = norm; trials = trials }, seen) }
{
    let answer = LMParameter {
        lambda,
        dp_norm: norm,
        trials,
    };
    Ok((answer, seen))
}

impl TrustRegion<'_, '_> {
    ghost use Rattle.search.specs.inner.Asked.{asked, room, Kept};

    // At most ten trials: a `loop` left by `break` at each stop rule, the form that document 01 names. The step that is answered stands in w.
    pub(crate) fn trials(&mut self, first: Going) -> Result<(LMParameter, Ranges), Refusal>
        ensures kept { Kept self.old self.new }
        ensures w_after { with_step result (placed (asked self.old) self.new.w.now) ≡ concluded 0 unanswered (trials_from (asked self.old) 9 (next_of first)) }
        ensures store_unchanged { emptied (room self.new) ≡ emptied (room self.old) }
        ensures saw { Saw result (either_of first.seen (ranges_of (measured_trials (asked self.old) (trials_from (asked self.old) 9 (next_of first))))) }
    {
        let radius = self.radius;
        let mut s = first;
        let mut t: usize = 0;
        let answer = 'turns: loop {
            let lambda = raised_of(s.lambda, s.upper);
            if !is_finite(lambda) {
                break Err(Refusal::Overflow);
            }
            let d = self.damped(lambda);
            let norm = d.value;
            if !is_finite(norm) {
                break Err(Refusal::Overflow);
            }
            let seen = either(s.seen, d.seen);
            t += 1;
            if t == 10 {
                break told(lambda, norm, t, seen);
            }
            let fp = norm - radius;
            if is_within(radius, fp) {
                break told(lambda, norm, t, seen);
            }
            if is_falling(s, fp) {
                break told(lambda, norm, t, seen);
            }
            let c = self.correction(fp, norm);
            if !is_finite(c.value) {
                break Err(Refusal::Overflow);
            }
            s = next_of(s, lambda, fp, seen, c);
        };
        answer
    }

    // The bounds, then the trials. At entry w is the undamped step, v the scaled step, and `start` the norm of that.
    pub(crate) fn bounded(
        &mut self,
        lambda: f64,
        start: Normed,
    ) -> Result<(LMParameter, Ranges), Refusal>
        requires value_value { (start.value ≡ norm_of self.old.v.now) × (self.old.v.now ≡ scaled_step (asked self.old) (placed (asked self.old) self.old.w.now)) }
        ensures kept { Kept self.old self.new }
        ensures w_after { with_step result (placed (asked self.old) self.new.w.now) ≡ concluded 0 unanswered (damped_run (asked self.old) lambda (placed (asked self.old) self.old.w.now)) }
        ensures store_unchanged { emptied (room self.new) ≡ emptied (room self.old) }
        ensures saw { Saw result (either_of start.seen (either_of (ranges_of (measured_bounds (asked self.old) (placed (asked self.old) self.old.w.now))) (ranges_of (measured_trials (asked self.old) (damped_run (asked self.old) lambda (placed (asked self.old) self.old.w.now)))))) }
    {
        let norm = start.value;
        let radius = self.radius;
        let fp = norm - radius;
        let low = self.lower_bound(fp, norm);
        let lower = low.value;
        if !is_finite(lower) {
            return Err(Refusal::Overflow);
        }
        let g = self.gradient_norm();
        if !is_finite(g.value) {
            return Err(Refusal::Overflow);
        }
        let upper = upper_bound(g.value, radius);
        let seen = either(start.seen, either(low.seen, g.seen));
        let first = Going {
            lambda: first_lambda(lambda, lower, upper, g.value, norm),
            lower,
            upper,
            fp,
            seen,
        };
        self.trials(first)
    }
}
