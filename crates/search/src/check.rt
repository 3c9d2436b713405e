// Document 01, 'Refusal numbers, tested in this order': tests 2 to 7 of a search. Those that it shares with the solves are `factor`'s.
ghost use Rattle.std.specs.Prelude.{◌≡◌};
ghost use Rattle.leaves.specs.Reply.{failed_by};
ghost use Rattle.leaves.specs.Tests.{first_of};
ghost use Rattle.search.specs.Search.{search_tests};

use factor::check::ordered;
use factor::state::State;
use leaves::number::is_finite;
use leaves::reply::Refusal;
use leaves::sizes::least;
use leaves::vector::{all_finite, none_zero};

// Numbers 6 and 7 come after every other test.
pub(crate) fn check_search(
    st: State,
    store: usize,
    order: &[usize],
    diag: &[f64],
    radius: f64,
    lambda: f64,
    out: usize,
) -> Result<(), Refusal>
    ensures { failed_by result ≡ first_of (search_tests st store order.now diag.now radius lambda out) }
{
    let n = st.n;
    ordered(st.held, st.m, n, store, least(diag.len(), out), order)?;
    if !all_finite(&diag[..n]) {
        return Err(Refusal::NotFinite);
    }
    if !is_finite(radius) {
        return Err(Refusal::NotFinite);
    }
    if !is_finite(lambda) {
        return Err(Refusal::NotFinite);
    }
    if radius <= 0.0 {
        return Err(Refusal::Range);
    }
    if lambda < 0.0 {
        return Err(Refusal::Range);
    }
    if none_zero(&diag[..n]) {
        Ok(())
    } else {
        Err(Refusal::Range)
    }
}
