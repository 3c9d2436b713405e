// The items of a script, played on rooms that are exactly as long as they were lent.
use crate::reply::{After, quiet, told};
use crate::{beside, call, rescale};
use calls::least_squares::solve_with_zero_diagonal;
use calls::measure::{determined, is_non_singular};
use calls::state::State;
use factor::state::Held;
use lines::scan::{Number, Unread, byte};
use text::double::of_bits;

pub(crate) fn word(s: &[u8], at: usize) -> Result<Number, Unread> {
    lines::scan::word(s, at).ok_or(Unread::Bad)
}

// Marks are sixteen bits.
pub(crate) fn marks_of(k: u64) -> Result<u16, Unread> {
    u16::try_from(k).ok().ok_or(Unread::Bad)
}

fn held_of(k: u64) -> Result<Held, Unread> {
    match k {
        0 => Ok(Held::Empty),
        1 => Ok(Held::Nothing),
        2 => Ok(Held::Zero),
        3 => Ok(Held::Damped),
        _ => Err(Unread::Bad),
    }
}

// The marks are left out where there are none.
fn claimed_marks(s: &[u8], at: usize) -> Result<u16, Unread> {
    if at < s.len() {
        return marks_of(word(s, at)?.value);
    }
    Ok(0)
}

fn claim(s: &[u8]) -> Result<After, Unread> {
    let m = word(s, 2)?;
    let n = word(s, m.next)?;
    let held = word(s, n.next)?;
    Ok(quiet(State {
        m: m.value as usize,
        n: n.value as usize,
        held: held_of(held.value)?,
        marks: claimed_marks(s, held.next)?,
    }))
}

fn put_order(s: &[u8], st: State, order: &mut [usize]) -> Result<After, Unread> {
    let k = word(s, 2)?;
    let v = word(s, k.next)?;
    let i = k.value as usize;
    if order.len() <= i {
        return Err(Unread::Large);
    }
    order[i] = v.value as usize;
    Ok(quiet(st))
}

fn put_store(s: &[u8], st: State, store: &mut [f64]) -> Result<After, Unread> {
    let k = word(s, 2)?;
    let x = word(s, k.next)?;
    let i = k.value as usize;
    if store.len() <= i {
        return Err(Unread::Large);
    }
    store[i] = of_bits(x.value);
    Ok(quiet(st))
}

pub(crate) fn play(
    s: &[u8],
    st: State,
    store: &mut [f64],
    order: &mut [usize],
    bench: &mut [f64],
    out: &mut [f64],
) -> Result<After, Unread> {
    let op = byte(s, 0);
    match op {
        b'F' => call::factoring(s, false, st, store, order, bench),
        b'K' => call::factoring(s, true, st, store, order, bench),
        b'T' => claim(s),
        b'O' => put_order(s, st, order),
        b'W' => put_store(s, st, store),
        b'Z' => Ok(told(solve_with_zero_diagonal(st, store, order, out))),
        b'M' => Ok(beside::mul(st, store, out)),
        b'G' => call::gradient(s, st, store, order),
        b'A' => call::above(s, st, store, order),
        b'D' | b'S' | b'N' | b'L' => call::with_vector(s, op, st, store, order, out),
        b'U' => rescale::scale(s, st, store),
        b'P' => Ok(told(determined(st, store))),
        b'Q' => Ok(told(is_non_singular(st, store))),
        _ => Err(Unread::Bad),
    }
}
