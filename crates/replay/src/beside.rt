// The held calls through the reader, with a copy of the output, beside the slice functions on the rooms themselves: document 01,
// 'What must change shape', has both, and their bits are to be equal. Where they are not, a line says so that no oracle prints.
ghost use Rattle.text.specs.inner.Part.{Part};

use crate::reply::{After, held};
use calls::state::State;
use leaves::reply::{Refusal, Told};
use leaves::sizes::filled;
use text::double::bits_of;

// How many were copied: all, or none where the room is too short, which then shows as a difference.
fn copied(v: &[f64], room: &mut [f64]) -> usize
    ensures { Part result room.new }
{
    if room.len() < v.len() {
        return 0;
    }
    room[..v.len()].copy_from_slice(v);
    v.len()
}

// Whether b begins with a, bit for bit.
fn begins(a: &[f64], b: &[f64]) -> bool {
    if b.len() < a.len() {
        return false;
    }
    a.iter().zip(b).all(|(x, y)| bits_of(*x) == bits_of(*y))
}

// What the reader answered, and the copy of the output after it. It only reads the store.
#[derive(Clone, Copy)]
struct Beside {
    answer: Result<(), Refusal>,
    out: [f64; 32],
}

// Whether the reader left the same answer and output.
fn same(r: Beside, t: Told<(), State>, out: &[f64]) -> bool {
    begins(out, &r.out) & (t.answer == r.answer)
}

fn solve_beside(st: State, store: &[f64], order: &[usize], rhs: &[f64], out: &[f64]) -> Beside {
    let mut out_copy: [f64; 32] = filled(0.0);
    let u = copied(out, &mut out_copy);
    let answer = reader::reader::solve_plain(store, st, order, rhs, &mut out_copy[..u]);
    Beside {
        answer,
        out: out_copy,
    }
}

pub(crate) fn solve(
    st: State,
    store: &mut [f64],
    order: &[usize],
    rhs: &[f64],
    out: &mut [f64],
) -> After {
    let r = solve_beside(st, store, order, rhs, out);
    let t = calls::cholesky::solve(st, store, order, rhs, out);
    held(t, same(r, t, out))
}

fn mul_beside(st: State, store: &[f64], out: &[f64]) -> Beside {
    let mut out_copy: [f64; 32] = filled(0.0);
    let u = copied(out, &mut out_copy);
    let answer = reader::reader::mul_plain(store, st, &mut out_copy[..u]);
    Beside {
        answer,
        out: out_copy,
    }
}

pub(crate) fn mul(st: State, store: &mut [f64], out: &mut [f64]) -> After {
    let r = mul_beside(st, store, out);
    let t = calls::cholesky::mul_qt_b(st, store, out);
    held(t, same(r, t, out))
}
