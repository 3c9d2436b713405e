// The leaves on vectors.
ghost use Rattle.std.specs.Prelude.{IfSome};
ghost use Rattle.text.specs.inner.Part.{Part};

use crate::answer::Reply;
use leaves::reply::Refusal;
use leaves::sizes::filled;
use lines::scan::{Span, word};
use text::double::of_bits;

// The place after the words that were read; what the leaf answered; how many of the lent cells it wrote. There is no heap, and the cells are as
// many as the longest line has; they are lent, since an answer that holds them is copied, 32 KB each time.
#[derive(Clone, Copy)]
pub(crate) struct Answer {
    pub(crate) next: usize,
    pub(crate) reply: Result<Reply, Refusal>,
    pub(crate) len: usize,
}

// Of a leaf that writes nothing.
pub(crate) fn answered(next: usize, reply: Result<Reply, Refusal>) -> Answer {
    Answer {
        next,
        reply,
        len: 0,
    }
}

// Of a leaf that wrote to y.
fn written(y: Span, reply: Result<(), Refusal>) -> Answer {
    Answer {
        next: y.next,
        reply: reply.map(|()| Reply::Written),
        len: y.len,
    }
}

// Numbers that a line lends. The longest vector that the oracle makes has 1000 numbers; one that is longer than the cells does not parse.
fn vector(s: &[u8], at: usize, cells: &mut [f64]) -> Option<Span>
    ensures { IfSome result (λ x. Part x.len cells.new) }
{
    let Ok(f) = lines::scan::vector(s, at, cells) else {
        return None;
    };
    Some(f)
}

pub(crate) fn dot(s: &[u8], cells: &mut [f64]) -> Option<Answer> {
    let mut a: [f64; 4096] = filled(0.0);
    let x = vector(s, 2, &mut a)?;
    let y = vector(s, x.next, cells)?;
    let reply = leaves::vector::dot(&a[..x.len], &cells[..y.len]);
    Some(answered(y.next, reply.map(Reply::Number)))
}

// axpy and axpy_zero.
pub(crate) fn axpy<F: FnOnce(f64, &[f64], &mut [f64]) -> Result<(), Refusal> + Drop>(
    s: &[u8],
    cells: &mut [f64],
    leaf: F,
) -> Option<Answer>
    requires { F.IsAlwaysCallable leaf }
{
    let mut a: [f64; 4096] = filled(0.0);
    let c = word(s, 2)?;
    let x = vector(s, c.next, &mut a)?;
    let y = vector(s, x.next, cells)?;
    let reply = leaf(of_bits(c.value), &a[..x.len], &mut cells[..y.len]);
    Some(written(y, reply))
}

// imax and enorm.
pub(crate) fn single<F: FnOnce(&[f64]) -> Result<Reply, Refusal> + Drop>(
    s: &[u8],
    cells: &mut [f64],
    leaf: F,
) -> Option<Answer>
    requires { F.IsAlwaysCallable leaf }
{
    let x = vector(s, 2, cells)?;
    Some(answered(x.next, leaf(&cells[..x.len])))
}

pub(crate) fn solve(s: &[u8], cells: &mut [f64]) -> Option<Answer> {
    let mut a: [f64; 4096] = filled(0.0);
    let apart = word(s, 2)?;
    let size = word(s, apart.next)?;
    let r = vector(s, size.next, &mut a)?;
    let x = vector(s, r.next, cells)?;
    let reply = leaves::triangle::solve_upper(
        &a[..r.len],
        apart.value as usize,
        size.value as usize,
        &mut cells[..x.len],
    );
    Some(written(x, reply))
}
