// Document 01, module 7: the numbers that a search goes by, and its stop rules.
ghost use Rattle.std.specs.Prelude.{◌≡◌};
ghost use Rattle.std.specs.Float.Ieee.{le};
ghost use Rattle.leaves.specs.Number.{abs_of};
ghost use Rattle.leaves.specs.Norm.{either as either_of};
ghost use Rattle.search.specs.Problem.{newton};
ghost use Rattle.search.specs.Bounds.{band, upper_bound, first_lambda, raised};
ghost use Rattle.search.specs.Run.{is_falling, next};
ghost use Rattle.search.specs.inner.Read.{next_of, bare};

use leaves::norm::{Normed, Ranges, either};
use leaves::number::{abs_within, dwarf, is_negative, max, min};

// What one trial hands to the next: its lambda, the bounds, fp of the trial before, and what the norms so far have seen.
#[derive(Clone, Copy)]
pub(crate) struct Going {
    pub(crate) lambda: f64,
    pub(crate) lower: f64,
    pub(crate) upper: f64,
    pub(crate) fp: f64,
    pub(crate) seen: Ranges,
}

pub(crate) fn band_of(radius: f64) -> f64
    ensures { result ≡ band radius }
{
    radius * 0.1
}

pub(crate) fn newton_of(fp: f64, radius: f64, slope: f64) -> f64
    ensures { result ≡ newton fp radius slope }
{
    ((fp / radius) / slope) / slope
}

pub(crate) fn upper_bound(gnorm: f64, radius: f64) -> f64
    ensures { result ≡ upper_bound gnorm radius }
{
    let u = gnorm / radius;
    if u == 0.0 {
        dwarf() / min(radius, 0.1)
    } else {
        u
    }
}

pub(crate) fn first_lambda(initial: f64, lower: f64, upper: f64, gnorm: f64, undamped: f64) -> f64
    ensures { result ≡ first_lambda initial lower upper gnorm undamped }
{
    let l = min(max(initial, lower), upper);
    if l == 0.0 { gnorm / undamped } else { l }
}

pub(crate) fn raised_of(lambda: f64, upper: f64) -> f64
    ensures { result ≡ raised lambda upper }
{
    if lambda == 0.0 {
        max(dwarf(), upper * 0.001)
    } else {
        lambda
    }
}

pub(crate) fn is_within(radius: f64, fp: f64) -> bool
    ensures { result ≡ le (abs_of fp) (band radius) }
{
    abs_within(fp, band_of(radius))
}

pub(crate) fn is_falling(s: Going, fp: f64) -> bool
    ensures { result ≡ is_falling (next_of s) fp }
{
    let lower = s.lower;
    let old = s.fp;
    if lower == 0.0 {
        if fp <= old {
            return is_negative(old);
        }
    }
    false
}

// After the trial of `lambda`, by its fp, what was seen up to it, and its correction.
pub(crate) fn next_of(s: Going, lambda: f64, fp: f64, seen: Ranges, correction: Normed) -> Going
    ensures result_value { next_of result ≡ next (bare s lambda) fp correction.value }
    ensures seen_value { result.seen ≡ either_of seen correction.seen }
{
    let old = s.lower;
    let upper = s.upper;
    let c = correction.value;
    let all = either(seen, correction.seen);
    if is_negative(fp) {
        return Going {
            lambda: max(old, lambda + c),
            lower: old,
            upper: min(upper, lambda),
            fp,
            seen: all,
        };
    }
    let lower = max(old, lambda);
    Going {
        lambda: max(lower, lambda + c),
        lower,
        upper,
        fp,
        seen: all,
    }
}
