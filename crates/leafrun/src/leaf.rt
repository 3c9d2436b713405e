// The leaf that a line names, run on its words. The leaves on one or two numbers are here.
use crate::answer::Reply;
use crate::vectors;
use crate::vectors::{Answer, answered};
use leaves::number;
use lines::scan::{byte, word};
use text::double::of_bits;

// In the order of the counts.
#[derive(Clone, Copy, Debug, PartialEq, Eq)]
pub(crate) enum Leaf {
    Abs,
    IsNegative,
    IsFinite,
    Max,
    Min,
    Square,
    Sqrt,
    Dot,
    Axpy,
    AxpyZero,
    Imax,
    Enorm,
    SolveUpper,
}

// A letter that names no leaf.
#[derive(Clone, Copy, Debug, PartialEq, Eq)]
pub(crate) struct NoLeaf;

impl TryFrom<u8> for Leaf {
    type Error = NoLeaf;

    fn try_from(op: u8) -> Result<Leaf, NoLeaf> {
        match op {
            b'a' => Ok(Leaf::Abs),
            b'g' => Ok(Leaf::IsNegative),
            b'f' => Ok(Leaf::IsFinite),
            b'x' => Ok(Leaf::Max),
            b'i' => Ok(Leaf::Min),
            b'q' => Ok(Leaf::Square),
            b'r' => Ok(Leaf::Sqrt),
            b'd' => Ok(Leaf::Dot),
            b'y' => Ok(Leaf::Axpy),
            b'z' => Ok(Leaf::AxpyZero),
            b'm' => Ok(Leaf::Imax),
            b'e' => Ok(Leaf::Enorm),
            b'u' => Ok(Leaf::SolveUpper),
            _ => Err(NoLeaf),
        }
    }
}

fn one<F: FnOnce(f64) -> Reply + Drop>(s: &[u8], leaf: F) -> Option<Answer>
    requires { F.IsAlwaysCallable leaf }
{
    let x = word(s, 2)?;
    Some(answered(x.next, Ok(leaf(of_bits(x.value)))))
}

fn two<F: FnOnce(f64, f64) -> Reply + Drop>(s: &[u8], leaf: F) -> Option<Answer>
    requires { F.IsAlwaysCallable leaf }
{
    let a = word(s, 2)?;
    let b = word(s, a.next)?;
    Some(answered(b.next, Ok(leaf(of_bits(a.value), of_bits(b.value)))))
}

// None where its words do not read.
fn run_leaf(leaf: Leaf, s: &[u8], cells: &mut [f64]) -> Option<Answer> {
    match leaf {
        Leaf::Abs => one(s, |x| Reply::Number(number::abs(x))),
        Leaf::IsNegative => one(s, |x| Reply::Bit(number::is_negative(x))),
        Leaf::IsFinite => one(s, |x| Reply::Bit(number::is_finite(x))),
        Leaf::Square => one(s, |x| Reply::Number(number::square(x))),
        Leaf::Sqrt => one(s, |x| Reply::Number(leaves::root::sqrt(x))),
        Leaf::Max => two(s, |a, b| Reply::Number(number::max(a, b))),
        Leaf::Min => two(s, |a, b| Reply::Number(number::min(a, b))),
        Leaf::Dot => vectors::dot(s, cells),
        Leaf::Axpy => vectors::axpy(s, cells, |c, x, y| leaves::vector::axpy(c, x, y)),
        Leaf::AxpyZero => vectors::axpy(s, cells, |c, x, y| leaves::vector::axpy_zero(c, x, y)),
        Leaf::Imax => vectors::single(s, cells, |v| leaves::vector::imax(v).map(Reply::Place)),
        Leaf::Enorm => vectors::single(s, cells, |v| leaves::norm::enorm(v).map(Reply::Norm)),
        Leaf::SolveUpper => vectors::solve(s, cells),
    }
}

// The leaf's place in the counts, which are one array, 13 for none.
pub(crate) fn kind(op: u8) -> usize {
    match Leaf::try_from(op) {
        Ok(leaf) => leaf as usize,
        Err(NoLeaf) => 13,
    }
}

// None where the line names no leaf or its words do not read.
pub(crate) fn run(s: &[u8], cells: &mut [f64]) -> Option<Answer> {
    let Ok(leaf) = Leaf::try_from(byte(s, 0)) else {
        return None;
    };
    if byte(s, 1) != b' ' {
        return None;
    }
    run_leaf(leaf, s, cells)
}
