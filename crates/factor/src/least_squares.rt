// Document 01, modules 4 and 5: the solves. What they work out, before it is tested for finite numbers and written, is also what a search
// asks for (`pivot_order`): there a number that is not finite may go on where a solve refuses it. A solve's numbers stand in a local array
// first: "Outputs are unwritten on every refusal", 8 too.
ghost use Rattle.std.specs.Prelude.{◌≡◌, cond, [], ◌∷◌, ◌++◌, ◌≤◌, min, length, take};
ghost use Rattle.leaves.specs.Reply.{reply_of, failed_by};
ghost use Rattle.leaves.specs.Tests.{first_of, all_finite};
ghost use Rattle.factor.specs.Tests.{finite_test, solve_tests};
ghost use Rattle.factor.specs.Room.{load, lay, emptied};
ghost use Rattle.factor.specs.Solve.{zero_solved, gather, scatter};
ghost use Rattle.eliminate.specs.Eliminate.{damping};
ghost use Rattle.factor.specs.Outcome.{ended};
ghost use Rattle.factor.specs.Solves.{damped_room, damped_numbers, zero_call, damped_call};

use crate::check::ordered;
use crate::room::{copy_part, empty_room, put_damped, square_of};
use crate::solve::{backward_in, gather_into, scatter_into, zero_solve};
use crate::state::{Held, State, with_held};
use crate::store::{LinearLeastSquaresDiagonalProblem, Lower};
use eliminate::square::eliminate_diag;
use leaves::lent::Order;
use leaves::reply::{Refusal, Told};
use leaves::sizes::{filled, least};
use leaves::vector::all_finite;

// The zero solve in pivot order, and the room that it leaves.
fn zero_step(m: usize, p: &mut LinearLeastSquaresDiagonalProblem, w: &mut [f64])
    requires { length w.old ≡ p.old.n }
    ensures same_n { p.new.n ≡ p.old.n }
    ensures same_cells { p.new.cells.ghost_name ≡ p.old.cells.ghost_name }
    ensures w_after { w.new ≡ zero_solved m (load p.old.n p.old.cells.now).upper (load p.old.n p.old.cells.now).qtb }
    ensures cells { p.new.cells.now ≡ lay (emptied (load p.old.n p.old.cells.now)) }
{
    copy_part(p.lent(), 0, w);
    zero_solve(square_of(p.lent()), m, w);
    empty_room(p);
}

// The zero solve, each entry at its column, where each is finite; else nothing is written.
fn zero_finite(
    m: usize,
    p: &mut LinearLeastSquaresDiagonalProblem,
    order: Order,
    out: &mut [f64],
) -> bool
    requires same_n { order.n ≡ p.old.n }
    requires n_in_bounds { order.n ≤ length out.old }
    ensures same_cells { p.new.cells.ghost_name ≡ p.old.cells.ghost_name }
    ensures value { result ≡ all_finite (zero_solved m (load p.old.n p.old.cells.now).upper (load p.old.n p.old.cells.now).qtb) }
    ensures cells { p.new.cells.now ≡ lay (emptied (load p.old.n p.old.cells.now)) }
    ensures out_after { out.new ≡ cond result (scatter (take order.entry.n order.entry.places.now) (zero_solved m (load p.old.n p.old.cells.now).upper (load p.old.n p.old.cells.now).qtb) out.old) out.old }
{
    let mut w: [f64; 16] = filled(0.0);
    let w = &mut w[..order.n];
    zero_step(m, p, w);
    if !all_finite(w) {
        return false;
    }
    scatter_into(order, w, out);
    true
}

// The least squares step of a factored problem (`solve_with_zero_diagonal`).
//
// st: a state of the problem. store: R and qt_b are read; on exit strict lower part, l_diag and work are +0. order: read. out: on exit its
// first n are the step, each entry at its column.
// Hands back the state with a zero solve held.
// Refused 5 for an empty state, 2 for its sizes, 3 for a slice that is too short, 4 for an order list that is none: all as it was. Refused 8
// where an entry of the step is not finite: the store as after an answer, out as it was, nothing held.
pub fn solve_with_zero_diagonal(
    st: State,
    store: &mut [f64],
    order: &[usize],
    out: &mut [f64],
) -> Told<(), State>
    ensures { ended (reply_of result.answer) result.state store.new out.new ≡ zero_call st order.now store.old out.old }
{
    let m = st.m;
    let n = st.n;
    if let Err(no) = ordered(st.held, m, n, store.len(), out.len(), order) {
        return Told {
            answer: Err(no),
            state: st,
        };
    }
    let mut p = LinearLeastSquaresDiagonalProblem { n, cells: store };
    if zero_finite(m, &mut p, Order { n, places: order }, out) {
        return Told {
            answer: Ok(()),
            state: with_held(st, Held::Zero),
        };
    }
    Told {
        answer: Err(Refusal::Overflow),
        state: with_held(st, Held::Nothing),
    }
}

// The damped solve in pivot order, with the diagonal in pivot order too, and the room that it leaves.
fn damped_step(
    p: &mut LinearLeastSquaresDiagonalProblem,
    ds: &[f64],
    ldiag: &mut [f64],
    w: &mut [f64],
)
    requires ds_len { length ds.now ≡ p.old.n }
    requires ldiag_len { length ldiag.old ≡ p.old.n }
    requires w_len { length w.old ≡ p.old.n }
    ensures same_n { p.new.n ≡ p.old.n }
    ensures same_cells { p.new.cells.ghost_name ≡ p.old.cells.ghost_name }
    ensures room { load p.old.n p.new.cells.now ≡ damped_room (damping ds.now (load p.old.n p.old.cells.now).upper (load p.old.n p.old.cells.now).qtb) (load p.old.n p.old.cells.now) }
    ensures w_after { w.new ≡ damped_numbers (damping ds.now (load p.old.n p.old.cells.now).upper (load p.old.n p.old.cells.now).qtb) }
{
    let n = p.n;
    let nn = n * n;
    copy_part(p.lent(), 0, w);
    eliminate_diag(n, &mut p.cells[..nn], ds, w, ldiag).unwrap();
    let square = square_of(p.lent());
    backward_in(Lower { square, ldiag }, w);
    put_damped(p, ldiag);
}

// The damped solve, each entry at its column, where each is finite; else the room is emptied and nothing is written.
fn damped_finite(
    p: &mut LinearLeastSquaresDiagonalProblem,
    order: Order,
    diag: &[f64],
    out: &mut [f64],
) -> bool
    requires same_n { order.n ≡ p.old.n }
    requires n_in_bounds { (order.n ≤ length diag.now) × (order.n ≤ length out.old) }
    ensures same_cells { p.new.cells.ghost_name ≡ p.old.cells.ghost_name }
    ensures value { result ≡ all_finite (damped_numbers (damping (gather (take order.entry.n order.entry.places.now) diag.now) (load p.old.n p.old.cells.now).upper (load p.old.n p.old.cells.now).qtb)) }
    ensures cells { p.new.cells.now ≡ lay (cond result (damped_room (damping (gather (take order.entry.n order.entry.places.now) diag.now) (load p.old.n p.old.cells.now).upper (load p.old.n p.old.cells.now).qtb) (load p.old.n p.old.cells.now)) (emptied (load p.old.n p.old.cells.now))) }
    ensures out_after { out.new ≡ cond result (scatter (take order.entry.n order.entry.places.now) (damped_numbers (damping (gather (take order.entry.n order.entry.places.now) diag.now) (load p.old.n p.old.cells.now).upper (load p.old.n p.old.cells.now).qtb)) out.old) out.old }
{
    let n = order.n;
    let mut ds: [f64; 16] = filled(0.0);
    let mut ldiag: [f64; 16] = filled(0.0);
    let mut w: [f64; 16] = filled(0.0);
    let w = &mut w[..n];
    let ds = &mut ds[..n];
    gather_into(order, diag, ds);
    damped_step(p, ds, &mut ldiag[..n], w);
    if !all_finite(w) {
        empty_room(p);
        return false;
    }
    scatter_into(order, w, out);
    true
}

// 6 for the diagonal comes after the tests of every solve.
fn check_damped(
    st: State,
    store: usize,
    order: &[usize],
    diag: &[f64],
    out: usize,
) -> Result<(), Refusal>
    ensures { failed_by result ≡ first_of (solve_tests st store order.now (min (length diag.now) out) ++ (finite_test st diag.now ∷ [])) }
{
    let n = st.n;
    ordered(st.held, st.m, n, store, least(diag.len(), out), order)?;
    if all_finite(&diag[..n]) {
        Ok(())
    } else {
        Err(Refusal::NotFinite)
    }
}

// The least squares step of a factored problem damped by a diagonal (`solve_with_diagonal`).
//
// st: a state of the problem. store: R and qt_b are read; on exit L below the diagonal and in l_diag, and work is +0. order: read. diag: the
// first n, each at its column, read. out: on exit its first n are the step, each entry at its column.
// Hands back the state with a damped solve held.
// Refused 5, 2, 3, 4 as a zero solve, and 6 for an entry of the diagonal that is not finite: all as it was. Refused 8 where an entry of the
// step is not finite: strict lower part, l_diag and work +0, out as it was, nothing held.
pub fn solve_with_diagonal(
    st: State,
    store: &mut [f64],
    order: &[usize],
    diag: &[f64],
    out: &mut [f64],
) -> Told<(), State>
    ensures { ended (reply_of result.answer) result.state store.new out.new ≡ damped_call st diag.now order.now store.old out.old }
{
    if let Err(no) = check_damped(st, store.len(), order, diag, out.len()) {
        return Told {
            answer: Err(no),
            state: st,
        };
    }
    let n = st.n;
    let mut p = LinearLeastSquaresDiagonalProblem { n, cells: store };
    if damped_finite(&mut p, Order { n, places: order }, diag, out) {
        return Told {
            answer: Ok(()),
            state: with_held(st, Held::Damped),
        };
    }
    Told {
        answer: Err(Refusal::Overflow),
        state: with_held(st, Held::Nothing),
    }
}
