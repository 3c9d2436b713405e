// Document 01, module 7: the solves of a search, between its tests and its end. They are in pivot order, without an order list, and read the
// store; tests 4 to 8 are the search's. They are workings on numbers that are lent: sizes and slices, and no state, so that they can leave
// none false (docs/DECISIONS.md, D14 and D70). `zero_numbers` and `damped_numbers` make the calls of `least_squares`'s steps and cite the
// same definitions, but are functions of their own: then each is built into its caller (docs/SPEED.md).
ghost use Rattle.std.specs.Prelude.{◌≡◌, length};
ghost use Rattle.leaves.specs.Reply.{reply_of};
ghost use Rattle.eliminate.specs.Eliminate.{damping};
ghost use Rattle.factor.specs.Room.{load};
ghost use Rattle.factor.specs.Solve.{zero_solved};
ghost use Rattle.factor.specs.Solves.{damped_numbers};
ghost use Rattle.factor.specs.Outcome.{read, left_in};
ghost use Rattle.factor.specs.PivotOrder.{lowered, zero_in, damped_in, held_zero_in, held_damped_in, product_in, full_rank, empty_in};

use crate::check::sizes;
use crate::holding::{mul_zero, solve_damped, solve_zero};
use crate::room::{copy_part, empty_room, put_part, square_of};
use crate::solve::{backward_in, non_singular, zero_solve};
use crate::store::{LinearLeastSquaresDiagonalProblem, Lower, Store};
use eliminate::square::eliminate_diag;
use leaves::reply::Refusal;
use leaves::sizes::{filled, least};

// The zero solve in pivot order.
fn zero_numbers(m: usize, store: Store, w: &mut [f64])
    requires { length w.old ≡ store.n }
    ensures { w.new ≡ zero_solved m (load store.entry.n store.entry.cells.now).upper (load store.entry.n store.entry.cells.now).qtb }
{
    copy_part(store, 0, w);
    zero_solve(square_of(store), m, w);
}

// The least squares step, in pivot order.
//
// m, n: the sizes. store: R and qt_b are read. w: on exit its first n are the step.
// Refused 2 for the sizes, 3 for a store or a w that is too short; w is then as it was.
pub fn zero(m: usize, n: usize, store: &[f64], w: &mut [f64]) -> Result<(), Refusal>
    ensures { read (reply_of result) w.new ≡ zero_in m n store.now w.old }
{
    sizes(m, n, store.len(), w.len())?;
    zero_numbers(m, Store { n, cells: store }, &mut w[..n]);
    Ok(())
}

// The damped solve in pivot order, with the diagonal in pivot order too. L is left below the diagonal and in l_diag.
fn damped_numbers(
    p: &mut LinearLeastSquaresDiagonalProblem,
    ds: &[f64],
    ldiag: &mut [f64],
    w: &mut [f64],
)
    requires ds_len { length ds.now ≡ p.old.n }
    requires ldiag_len { length ldiag.old ≡ p.old.n }
    requires w_len { length w.old ≡ p.old.n }
    ensures same_cells { p.new.cells.ghost_name ≡ p.old.cells.ghost_name }
    ensures room { load p.old.n p.new.cells.now ≡ lowered (damping ds.now (load p.old.n p.old.cells.now).upper (load p.old.n p.old.cells.now).qtb) (load p.old.n p.old.cells.now) }
    ensures w_after { w.new ≡ damped_numbers (damping ds.now (load p.old.n p.old.cells.now).upper (load p.old.n p.old.cells.now).qtb) }
{
    let n = p.n;
    let nn = n * n;
    copy_part(p.lent(), 0, w);
    eliminate_diag(n, &mut p.cells[..nn], ds, w, ldiag).unwrap();
    let square = square_of(p.lent());
    backward_in(Lower { square, ldiag }, w);
    put_part(p, 2, ldiag);
}

// The least squares step damped by a diagonal, both in pivot order.
//
// n: the number of columns. store: R and qt_b are read; on exit L stands below the diagonal and in l_diag. ds: its first n are read. w: on
// exit its first n are the step.
// Refused 2 for n outside 1 to 16, 3 for a slice that is too short; every slice is then as it was.
pub fn damped(n: usize, store: &mut [f64], ds: &[f64], w: &mut [f64]) -> Result<(), Refusal>
    ensures { left_in (reply_of result) store.new w.new ≡ damped_in n ds.now store.old w.old }
{
    sizes(1, n, store.len(), least(ds.len(), w.len()))?;
    let mut ldiag: [f64; 16] = filled(0.0);
    let mut p = LinearLeastSquaresDiagonalProblem { n, cells: store };
    damped_numbers(&mut p, &ds[..n], &mut ldiag[..n], &mut w[..n]);
    Ok(())
}

// The held solve of a zero solve, in pivot order.
//
// n: the number of columns. store: R is read. w: on entry the right side, on exit the answer, in its first n.
// Refused 2 for n outside 1 to 16, 3 for a store or a w that is too short; w is then as it was.
pub fn held_zero(n: usize, store: &[f64], w: &mut [f64]) -> Result<(), Refusal>
    ensures { read (reply_of result) w.new ≡ held_zero_in n store.now w.old }
{
    sizes(1, n, store.len(), w.len())?;
    solve_zero(Store { n, cells: store }, &mut w[..n]);
    Ok(())
}

// The held solve of a damped solve, in pivot order. As `held_zero`; L and l_diag are read.
pub fn held_damped(n: usize, store: &[f64], w: &mut [f64]) -> Result<(), Refusal>
    ensures { read (reply_of result) w.new ≡ held_damped_in n store.now w.old }
{
    sizes(1, n, store.len(), w.len())?;
    solve_damped(Store { n, cells: store }, &mut w[..n]);
    Ok(())
}

// Rᵀ·qt_b, in pivot order.
//
// n: the number of columns. store: R and qt_b are read. w: on exit its first n are the product.
// Refused 2 for n outside 1 to 16, 3 for a store or a w that is too short; w is then as it was.
pub fn product(n: usize, store: &[f64], w: &mut [f64]) -> Result<(), Refusal>
    ensures { read (reply_of result) w.new ≡ product_in n store.now w.old }
{
    sizes(1, n, store.len(), w.len())?;
    mul_zero(Store { n, cells: store }, &mut w[..n]);
    Ok(())
}

// Whether A has rank n: no diagonal entry of R is zero, and m is at least n.
//
// m, n: the sizes. store: R's diagonal is read. No other slice holds a number for each column, so the shortest is none too short.
// Refused 2 for the sizes, 3 for a store that is too short.
pub fn full_rank(m: usize, n: usize, store: &[f64]) -> Result<bool, Refusal>
    ensures { reply_of result ≡ full_rank m n store.now }
{
    sizes(m, n, store.len(), n)?;
    let square = square_of(Store { n, cells: store });
    Ok(non_singular(square, m))
}

// What a search leaves of a store.
//
// n: the number of columns. store: on exit strict lower part, l_diag and work are +0, and nothing else is changed.
// Refused 2 for n outside 1 to 16, 3 for a store that is too short; the store is then as it was.
pub fn empty(n: usize, store: &mut [f64]) -> Result<(), Refusal>
    ensures { read (reply_of result) store.new ≡ empty_in n store.old }
{
    sizes(1, n, store.len(), n)?;
    empty_room(&mut LinearLeastSquaresDiagonalProblem { n, cells: store });
    Ok(())
}
