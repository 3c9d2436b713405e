// Document 01, 'What must change shape': `CholeskyFactor` borrows its matrix: first functions over slices (`calls::cholesky`), then a small
// reader that refers to the square, with two thin calls. Its slice is the store from the square on, in which qt_b and l_diag follow. A
// reader asks the state that it was made with: without it, it would answer straight after a factoring, where document 01 refuses 5 (case
// L). Its calls write the output and nothing else: what they work with is their own, so the store is lent shared.
ghost use Rattle.std.specs.Prelude.{◌≡◌};
ghost use Rattle.leaves.specs.Reply.{reply_of};
ghost use Rattle.factor.specs.Outcome.{read};
ghost use Rattle.calls.specs.HeldCalls.{marked_solve, marked_mul, marked_read};

use calls::cholesky::{mul_read, solve_read};
use calls::state::State;
use leaves::reply::Refusal;

// The lent store from its square on, and the state of the problem that it holds.
#[derive(Clone, Copy)]
pub struct CholeskyFactor<'a> {
    pub square: &'a [f64],
    pub state: State,
}

// ---- the reader

// A reader of what the last solve left in a store (`CholeskyFactor`).
//
// square: the store from its square on, as factor and a solve left it; the reader refers to it. st: its state.
// Refuses nothing: what a reader is made of is tested by its calls.
pub fn new<'a>(square: &'a [f64], st: State) -> CholeskyFactor<'a>
    ensures { result ≡ record { square = square.entry; state = st } }
{
    CholeskyFactor { square, state: st }
}

// L·qt_b with the L that the last solve left (`CholeskyFactor::mul_qt_b`).
//
// f: the reader; of its square qt_b is read, and R after a zero solve, L after a damped one. out: on exit its first n are the product, in
// pivot order, and +0 past the free count.
// Refused 5 for a reader of an empty state, 2 for its sizes or a mark past n, 3 for a slice that is too short, 5 where nothing is held, 9 where
// no column is free, 8 where a number of the product is not finite: out as it was.
pub fn mul_qt_b<'a, 'b>(f: CholeskyFactor<'a>, out: &'b mut [f64]) -> Result<(), Refusal>
    ensures { read (reply_of result) out.new ≡ marked_read (marked_mul f.entry.state f.entry.square.now out.old) }
{
    mul_read(f.state, f.square, out)
}

// Solves L·x = rhs with the L that the last solve left (`CholeskyFactor::solve`).
//
// f: the reader; of its square R after a zero solve, L after a damped one, is read. order: read. rhs: the first n, each at its column, read.
// out: on exit its first n are the answer, in pivot order, and +0 past the free count.
// Refused 5 for a reader of an empty state, 2 for its sizes or a mark past n, 3 for a slice that is too short, 4 for an order list that is
// none, 5 where nothing is held, 6 for an entry of rhs that is not finite, a frozen column's too, 9 where no column is free, 8 where a number
// of the answer is not finite: out as it was.
pub fn solve<'a, 'b, 'c, 'd>(
    f: CholeskyFactor<'a>,
    order: &'b [usize],
    rhs: &'c [f64],
    out: &'d mut [f64],
) -> Result<(), Refusal>
    ensures { read (reply_of result) out.new ≡ marked_read (marked_solve f.entry.state order.now rhs.now f.entry.square.now out.old) }
{
    solve_read(f.state, f.square, order, rhs, out)
}

// ---- with plain parameters: whoever calls these needs nothing of the reader

// The product through a reader that is made for the call: L·qt_b with the L that the last solve left.
//
// square: the store from its square on; qt_b is read, and R after a zero solve, L after a damped one. st: its state. out: on exit its first n
// are the product, in pivot order, and +0 past the free count.
// Refused as `mul_qt_b` is: 5 for an empty state, 2 for its sizes or a mark past n, 3 for a slice that is too short, 5 where nothing is held,
// 9 where no column is free, 8 where a number of the product is not finite: out as it was.
pub fn mul_plain(square: &[f64], st: State, out: &mut [f64]) -> Result<(), Refusal>
    ensures { read (reply_of result) out.new ≡ marked_read (marked_mul st square.now out.old) }
{
    mul_qt_b(new(square, st), out)
}

// The solve through a reader that is made for the call: L·x = rhs with the L that the last solve left.
//
// square: the store from its square on; R after a zero solve, L after a damped one, is read. st: its state. order: read. rhs: the first n,
// each at its column, read. out: on exit its first n are the answer, in pivot order, and +0 past the free count.
// Refused as `solve` is: 5 for an empty state, 2 for its sizes or a mark past n, 3 for a slice that is too short, 4 for an order list that is
// none, 5 where nothing is held, 6 for an entry of rhs that is not finite, a frozen column's too, 9 where no column is free, 8 where a number
// of the answer is not finite: out as it was.
pub fn solve_plain(
    square: &[f64],
    st: State,
    order: &[usize],
    rhs: &[f64],
    out: &mut [f64],
) -> Result<(), Refusal>
    ensures { read (reply_of result) out.new ≡ marked_read (marked_solve st order.now rhs.now square.now out.old) }
{
    solve(new(square, st), order, rhs, out)
}
