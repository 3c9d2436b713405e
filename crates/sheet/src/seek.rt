// Document 01, 'Job sheet and its program': determined and the search, for call 1 and for call 2, which scales first.
ghost use Rattle.std.specs.Prelude.{◌≡◌};
ghost use Rattle.leaves.specs.Reply.{reply_of};
ghost use Rattle.search.specs.Search.{search_call};
ghost use Rattle.sheet.specs.Fit.{searched, fit_of, finished, mapped, by_search, sought_from, started_from};

use crate::answer::{Answer, Fitted, Started};
use factor::state::State;
use leaves::reply::Refusal;
use leaves::sizes::filled;
use measures::measures::determined;
use measures::scaling::{Mode, Scaling};
use measures::update_diag::update_diag;
use search::trust_region::determine_lambda_and_parameter_update;

// The search, after determined.
fn seek_from(
    st: State,
    store: &mut [f64],
    order: &[usize],
    diag: &[f64],
    radius: f64,
    lambda: f64,
    determined: usize,
    step: &mut [f64],
) -> Result<Fitted, Refusal>
    ensures { finished (reply_of result) step.new ≡ by_search st.n determined (search_call st order.now diag.now radius lambda store.old step.old).reply (search_call st order.now diag.now radius lambda store.old step.old).out }
{
    let s = determine_lambda_and_parameter_update(st, store, order, diag, radius, lambda, step);
    let (p, _) = s.answer?;
    Ok(Fitted {
        columns: st.n,
        lambda: p.lambda,
        norm: p.dp_norm,
        trials: p.trials,
        determined,
    })
}

fn seek(
    st: State,
    store: &mut [f64],
    order: &[usize],
    diag: &[f64],
    radius: f64,
    lambda: f64,
    step: &mut [f64],
) -> Result<Fitted, Refusal>
    ensures { finished (reply_of result) step.new ≡ sought_from st order.now diag.now radius lambda store.old step.old }
{
    let d = determined(st, store);
    let k = d.answer?;
    seek_from(st, store, order, diag, radius, lambda, k, step)
}

// Call 1.
pub(crate) fn search(
    st: State,
    store: &mut [f64],
    order: &[usize],
    diag: &[f64],
    radius: f64,
    lambda: f64,
    step: &mut [f64],
) -> Result<Answer, Refusal>
    ensures { finished (fit_of result) step.new ≡ finished (mapped searched (sought_from st order.now diag.now radius lambda store.old step.old).reply) (sought_from st order.now diag.now radius lambda store.old step.old).step }
{
    let fitted = seek(st, store, order, diag, radius, lambda, step)?;
    Ok(Answer::Searched(fitted))
}

// Call 2.
pub(crate) fn start(
    st: State,
    store: &mut [f64],
    order: &[usize],
    x: &[f64],
    bound: f64,
    step: &mut [f64],
) -> Result<Answer, Refusal>
    ensures { finished (fit_of result) step.new ≡ started_from st order.now x.now bound store.old step.old }
{
    let mut diag: [f64; 16] = filled(0.0);
    let s = update_diag(st, store, Mode::FirstScaled, &mut diag, x, bound);
    let Scaling::First(t, _) = s.answer? else {
        return Err(Refusal::Overflow);
    };
    let radius = t.radius;
    let fitted = seek(st, store, order, &diag, radius, 0.0, step)?;
    Ok(Answer::Started(Started { radius, fitted }))
}
