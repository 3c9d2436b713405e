// The calls of a script.
use crate::beside;
use crate::item::{marks_of, word};
use crate::reply::{After, told};
use calls::state::State;
use leaves::sizes::filled;
use lines::scan::{Number, Unread, doubles, vector};
use text::double::of_bits;

// `F` has no marks; `K` has them after the sizes.
fn marks_after(s: &[u8], n: Number, marked: bool) -> Result<Number, Unread> {
    if marked {
        return word(s, n.next);
    }
    Ok(Number { value: 0, ..n })
}

// A list that is too long for its room is told before a word that does not read.
pub(crate) fn factoring(
    s: &[u8],
    marked: bool,
    st: State,
    store: &mut [f64],
    order: &mut [usize],
    bench: &mut [f64],
) -> Result<After, Unread> {
    let m = word(s, 2)?;
    let n = word(s, m.next)?;
    let k = marks_after(s, n, marked)?;
    let j = word(s, k.next)?;
    let r = word(s, j.next)?;
    let marks = marks_of(k.value)?;
    if (2304 < j.value) | (256 < r.value) {
        return Err(Unread::Large);
    }
    let mut jacobian: [f64; 2304] = filled(0.0);
    let mut residuals: [f64; 256] = filled(0.0);
    let f = doubles(s, r.next, j.value as usize, &mut jacobian)?;
    let g = doubles(s, f.next, r.value as usize, &mut residuals)?;
    Ok(told(calls::pivoted_qr::pivoted_qr(
        m.value as usize,
        n.value as usize,
        marks,
        &jacobian[..f.len],
        &residuals[..g.len],
        store,
        order,
        bench,
    )))
}

pub(crate) fn gradient(
    s: &[u8],
    st: State,
    store: &mut [f64],
    order: &[usize],
) -> Result<After, Unread> {
    let bnorm = of_bits(word(s, 2)?.value);
    Ok(told(calls::measure::max_a_t_b_scaled(st, store, order, bnorm)))
}

pub(crate) fn above(
    s: &[u8],
    st: State,
    store: &mut [f64],
    order: &[usize],
) -> Result<After, Unread> {
    let x = word(s, 2)?;
    let y = word(s, x.next)?;
    let bnorm = of_bits(x.value);
    let limit = of_bits(y.value);
    Ok(told(calls::above::above_limit(st, store, order, bnorm, limit)))
}

// With the radius and lambda, which stand behind the vector.
fn search(
    s: &[u8],
    at: usize,
    st: State,
    store: &mut [f64],
    order: &[usize],
    v: &[f64],
    out: &mut [f64],
) -> Result<After, Unread> {
    let radius = word(s, at)?;
    let lambda = word(s, radius.next)?;
    Ok(told(calls::trust_region::determine_lambda_and_parameter_update(
        st,
        store,
        order,
        v,
        of_bits(radius.value),
        of_bits(lambda.value),
        out,
    )))
}

// The calls that one vector is lent to.
pub(crate) fn with_vector(
    s: &[u8],
    op: u8,
    st: State,
    store: &mut [f64],
    order: &[usize],
    out: &mut [f64],
) -> Result<After, Unread> {
    let mut room: [f64; 64] = filled(0.0);
    let f = vector(s, 2, &mut room)?;
    let v = &room[..f.len];
    match op {
        b'D' => Ok(told(calls::least_squares::solve_with_diagonal(st, store, order, v, out))),
        b'S' => Ok(beside::solve(st, store, order, v, out)),
        b'N' => Ok(told(calls::measure::a_x_norm(st, store, order, v))),
        _ => search(s, f.next, st, store, order, v, out),
    }
}
