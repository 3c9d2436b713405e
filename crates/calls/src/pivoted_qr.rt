// Document 01, modules 2 and 3, with 02, #108: factoring.
ghost use Rattle.std.specs.Prelude.{◌≡◌, false, ◌++◌, ◌-◌, ◌*◌, ◌<◌, ◌≤◌, length, take, drop};
ghost use Rattle.leaves.specs.Reply.{reply_of, failed_by};
ghost use Rattle.leaves.specs.Loop.{count_from};
ghost use Rattle.leaves.specs.Square.{zeros};
ghost use Rattle.leaves.specs.Tests.{outside as outside_of, first_of};
ghost use Rattle.frozen.specs.Frozen.{marks_of, free_count, free_columns};
ghost use Rattle.frozen.specs.Narrowed.{spread_out};
ghost use Rattle.factor.specs.State.{store_need, bench_need};
ghost use Rattle.factor.specs.Outcome.{written};
ghost use Rattle.calls.specs.Factoring.{marked_factored, marked_factor_tests, marked_factoring};
ghost use Rattle.calls.specs.inner.Factorable.{length_tests, Factorable, state_left, store_left};

use crate::room::{room320, store_need};
use crate::state::{State, empty};
use factor::filled::factor_filled;
use factor::state::Held;
use frozen::columns::free_columns;
use frozen::marks::{free_count, mark_past};
use frozen::narrow::spread;
use leaves::norm::Ranges;
use leaves::pieces::{clear_long, copy_long};
use leaves::reply::{Refusal, Told};
use leaves::sizes::outside;
use leaves::vector::all_finite;

// Tests 2 and 3.
fn check_lengths(
    m: usize,
    n: usize,
    marks: u16,
    jacobian: usize,
    residuals: usize,
    store: usize,
    order: usize,
    bench: usize,
) -> Result<(), Refusal>
    ensures { failed_by result ≡ first_of (length_tests m n marks jacobian residuals store order bench) }
{
    if outside(m, n) {
        return Err(Refusal::Sizes);
    }
    if mark_past(n, marks) {
        return Err(Refusal::Sizes);
    }
    let mn = m * n;
    if jacobian < mn {
        return Err(Refusal::Length);
    }
    if residuals < m {
        return Err(Refusal::Length);
    }
    if store < n * n + 4 * n {
        return Err(Refusal::Length);
    }
    if order < n {
        return Err(Refusal::Length);
    }
    if bench < mn + m {
        Err(Refusal::Length)
    } else {
        Ok(())
    }
}

// A frozen column's numbers are tested too; 9 comes last.
fn check_factor(
    m: usize,
    n: usize,
    marks: u16,
    jacobian: &[f64],
    residuals: &[f64],
    store: usize,
    order: usize,
    bench: usize,
) -> Result<(), Refusal>
    ensures { failed_by result ≡ first_of (marked_factor_tests m n marks jacobian.now residuals.now store order bench) }
{
    check_lengths(
        m,
        n,
        marks,
        jacobian.len(),
        residuals.len(),
        store,
        order,
        bench,
    )?;
    let mn = m * n;
    if !all_finite(&jacobian[..mn]) {
        return Err(Refusal::NotFinite);
    }
    if !all_finite(&residuals[..m]) {
        return Err(Refusal::NotFinite);
    }
    if free_count(n, marks) == 0 {
        Err(Refusal::AllFrozen)
    } else {
        Ok(())
    }
}

// The free columns, one after the other. With no mark they are all of them, and are copied at once.
fn gather_columns(m: usize, n: usize, marks: u16, jacobian: &[f64], bench: &mut [f64])
    requires n_value { (outside_of m n ≡ false) × (m * n ≤ length jacobian.now) }
    requires bench_len { length bench.old ≡ m * free_count (marks_of n marks) }
    ensures { bench.new ≡ free_columns m (marks_of n marks) jacobian.now }
{
    if marks == 0 {
        copy_long(&jacobian[..m * n], bench).unwrap();
    } else {
        free_columns(m, n, marks, jacobian, bench).unwrap();
    }
}

// The free columns and then the residuals, at the first places of the bench.
fn fill_bench(
    m: usize,
    n: usize,
    marks: u16,
    free: usize,
    jacobian: &[f64],
    residuals: &[f64],
    bench: &mut [f64],
)
    requires factorable { Factorable m n marks free jacobian.now residuals.now }
    requires free_in_bounds { bench_need m free ≤ length bench.old }
    ensures { bench.new ≡ free_columns m (marks_of n marks) jacobian.now ++ (take m residuals.now ++ drop (bench_need m free) bench.old) }
{
    let p = m * free;
    let q = p + m;
    gather_columns(m, n, marks, jacobian, &mut bench[..p]);
    bench[p..q].copy_from_slice(&residuals[..m]);
}

// The order list's remaining places continue the count.
fn count_on(free: usize, order: &mut [usize])
    requires { free ≤ length order.old }
    ensures { order.new ≡ take free order.old ++ count_from (length order.old - free) free }
{
    for k in free..order.len() {
        order[k] = k;
    }
}

// Past the reduced problem's bench, which its factoring leaves +0, up to where the lent problem's ends.
fn clear_rest(m: usize, n: usize, free: usize, bench: &mut [f64])
    requires { (m ≤ 128) × (n ≤ 16) × (free ≤ n) × (bench_need m n ≤ length bench.old) }
    ensures { bench.new ≡ take (bench_need m free) bench.old ++ (zeros (bench_need m n - bench_need m free) ++ drop (bench_need m n) bench.old) }
{
    let p = m * free + m;
    let q = m * n + m;
    clear_long(&mut bench[p..q]);
}

// Answered: the reduced problem's store, from the first places of the lent one to the first places of each of its parts. The two overlap, so
// that it is copied out first.
fn spread_out(n: usize, free: usize, store: &mut [f64])
    requires { (0 < free) × (free ≤ n) × (n ≤ 16) × (store_need n ≤ length store.old) }
    ensures { store.new ≡ written (spread_out n free (take (store_need free) store.old)) store.old }
{
    let need = store_need(free);
    let mut small = room320();
    small[..need].copy_from_slice(&store[..need]);
    spread(n, free, &small[..need], store).unwrap();
}

// Refused 8: the needed store +0.
fn wipe(n: usize, store: &mut [f64])
    requires { (n ≤ 16) × (store_need n ≤ length store.old) }
    ensures { store.new ≡ written (zeros (store_need n)) store.old }
{
    let need = store_need(n);
    clear_long(&mut store[..need]);
}

// The needed store by the answer, where columns are frozen.
fn leave_store(n: usize, free: usize, answer: Result<Ranges, Refusal>, store: &mut [f64])
    requires { (0 < free) × (free ≤ n) × (n ≤ 16) × (store_need n ≤ length store.old) }
    ensures { store.new ≡ written (store_left n free (reply_of answer) store.old) store.old }
{
    if answer.is_ok() {
        spread_out(n, free, store);
    } else {
        wipe(n, store);
    }
}

// The answer, and the state by it.
fn told(m: usize, n: usize, marks: u16, answer: Result<Ranges, Refusal>) -> Told<Ranges, State>
    ensures { (reply_of result.answer ≡ reply_of answer) × (result.state ≡ state_left m n marks (reply_of answer)) }
{
    let state = if answer.is_ok() {
        State {
            m,
            n,
            held: Held::Nothing,
            marks,
        }
    } else {
        empty()
    };
    Told { answer, state }
}

// Factors a Jacobian with column pivoting and transforms its residuals, without the frozen columns.
//
// m, n: rows and columns. marks: a bit for each column, column 0 the most significant of sixteen; set for a frozen column. jacobian: its first
// m·n, column by column, only read. residuals: the first m, only read. store: not read; on exit R on and above the diagonal of the square and
// +0 below, qt_b, the column norms, l_diag and work +0; with frozen columns each part has those of the free ones first, and then +0. order:
// not read; on exit the column that stands at each place, the free ones counted among themselves, and then the count goes on. bench: not
// read; on exit its first m·n + m are +0.
// Answers the ranges that took part in any norm worked out for it (02, #106). Hands back a state of these sizes and marks with nothing held.
// Refused 2 for the sizes or a mark past n, 3 for a slice that is too short, 6 for a number that is not finite, a frozen column's too, 9 where
// no column is free: every slice is as it was. Refused 8 where R, a column norm or qt_b would hold a number that is not finite: the needed
// store +0, the order 0 to n − 1. A refused factoring hands back the empty state.
pub fn pivoted_qr(
    m: usize,
    n: usize,
    marks: u16,
    jacobian: &[f64],
    residuals: &[f64],
    store: &mut [f64],
    order: &mut [usize],
    bench: &mut [f64],
) -> Told<Ranges, State>
    ensures { marked_factored (reply_of result.answer) result.state store.new order.new bench.new ≡ marked_factoring m n marks jacobian.now residuals.now store.old order.old bench.old }
{
    if let Err(no) = check_factor(
        m,
        n,
        marks,
        jacobian,
        residuals,
        store.len(),
        order.len(),
        bench.len(),
    ) {
        return told(m, n, marks, Err(no));
    }
    let free = free_count(n, marks);
    // With no mark and with some the working is called at this one place, so that the compiler builds it in here.
    fill_bench(m, n, marks, free, jacobian, residuals, bench);
    let answer = factor_filled(m, free, store, order, bench);
    if marks == 0 {
        return told(m, n, marks, answer);
    }
    leave_store(n, free, answer, store);
    count_on(free, &mut order[..n]);
    clear_rest(m, n, free, bench);
    told(m, n, marks, answer)
}
