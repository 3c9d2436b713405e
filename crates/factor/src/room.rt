// Document 01, 'Lent room and what stays in it': the only code that knows where in a store things stand. Workings have their vectors in
// arrays of their own and only ever clear work: nothing of a call can live on in it.
ghost use Rattle.std.specs.Prelude.{◌≡◌, suc, ◌+◌, ◌-◌, ◌*◌, ◌<◌, ◌≤◌, length, set};
ghost use Rattle.factor.specs.Room.{part, load, lay, leaving, rested, emptied};
ghost use Rattle.leaves.specs.Square.{uppers_of, belows_of, zeros, cleared};
ghost use Rattle.leaves.specs.inner.Squares.{Square as IsSquare};
ghost use Rattle.factor.specs.inner.Rooms.{with_part};

use crate::store::{LinearLeastSquaresDiagonalProblem, Lower, Store};
use leaves::lent::Square;

// Where part k of the four behind the square starts, where columns stand `apart` places apart.
pub(crate) fn part_at(apart: usize, n: usize, k: usize) -> usize
    requires { (apart ≤ 16) × (n ≤ 16) × (k < 4) }
    ensures { (result ≡ apart * apart + k * n) × (result + n ≤ apart * apart + 4 * n) }
{
    apart * apart + k * n
}

// ---- a store that is only read

// R, with what stands below it.
pub(crate) fn square_of(store: Store) -> Square
    ensures n { result.n ≡ store.entry.n }
    ensures upper { uppers_of result.n result.cells.now ≡ (load store.entry.n store.entry.cells.now).upper }
    ensures below { belows_of result.n result.cells.now ≡ (load store.entry.n store.entry.cells.now).below }
{
    let n = store.n;
    let nn = n * n;
    Square {
        n,
        cells: &store.cells[..nn],
    }
}

pub(crate) fn part_of(store: Store, k: usize) -> &[f64]
    requires { k < 4 }
    ensures value { result.now ≡ part store.entry.n k store.entry.cells.now }
    ensures len { length result.now ≡ store.entry.n }
{
    let n = store.n;
    let a = part_at(n, n, k);
    let e = a + n;
    &store.cells[a..e]
}

// L by columns, as a damped solve left it.
pub(crate) fn lower_of(store: Store) -> Lower<'_, '_>
    ensures n { result.square.n ≡ store.entry.n }
    ensures below { belows_of result.square.n result.square.cells.now ≡ (load store.entry.n store.entry.cells.now).below }
    ensures ldiag { result.ldiag.now ≡ (load store.entry.n store.entry.cells.now).ldiag }
{
    let square = square_of(store);
    let ldiag = part_of(store, 2);
    Lower { square, ldiag }
}

pub(crate) fn copy_part(store: Store, k: usize, w: &mut [f64])
    requires { (k < 4) × (length w.old ≡ store.n) }
    ensures { w.new ≡ part store.entry.n k store.entry.cells.now }
{
    w.copy_from_slice(part_of(store, k));
}

// ---- a store that is written

pub(crate) fn put_part(p: &mut LinearLeastSquaresDiagonalProblem, k: usize, w: &[f64])
    requires { (k < 4) × (length w.now ≡ p.old.n) }
    ensures same_n { p.new.n ≡ p.old.n }
    ensures same_cells { p.new.cells.ghost_name ≡ p.old.cells.ghost_name }
    ensures room { load p.new.n p.new.cells.now ≡ with_part k w.now (load p.old.n p.old.cells.now) }
{
    let n = p.n;
    let a = part_at(n, n, k);
    let e = a + n;
    p.cells[a..e].copy_from_slice(w);
}

pub(crate) fn clear_part(p: &mut LinearLeastSquaresDiagonalProblem, k: usize)
    requires { k < 4 }
    ensures same_n { p.new.n ≡ p.old.n }
    ensures same_cells { p.new.cells.ghost_name ≡ p.old.cells.ghost_name }
    ensures room { load p.new.n p.new.cells.now ≡ with_part k (zeros p.old.n) (load p.old.n p.old.cells.now) }
{
    let n = p.n;
    let a = part_at(n, n, k);
    let e = a + n;
    leaves::vector::fill(0.0, &mut p.cells[a..e]);
}

// l_diag and work stand side by side.
fn clear_last(p: &mut LinearLeastSquaresDiagonalProblem)
    ensures same_n { p.new.n ≡ p.old.n }
    ensures same_cells { p.new.cells.ghost_name ≡ p.old.cells.ghost_name }
    ensures room { load p.new.n p.new.cells.now ≡ with_part 3 (zeros p.old.n) (with_part 2 (zeros p.old.n) (load p.old.n p.old.cells.now)) }
{
    let n = p.n;
    let a = part_at(n, n, 2);
    let e = a + 2 * n;
    leaves::vector::fill(0.0, &mut p.cells[a..e]);
}

// What stands below R's diagonal in column k.
fn clear_column(square: &mut [f64], n: usize, k: usize)
    requires square { IsSquare n square.old }
    requires k_lt_n { k < n }
    ensures square_unchanged { uppers_of n square.new ≡ uppers_of n square.old }
    ensures square_after { belows_of n square.new ≡ set (belows_of n square.old) k (zeros (n - suc k)) }
{
    let a = k * n + k + 1;
    let e = k * n + n;
    leaves::vector::fill(0.0, &mut square[a..e]);
}

pub(crate) fn clear_below(square: &mut [f64], n: usize)
    requires { IsSquare n square.old }
    ensures square_unchanged { uppers_of n square.new ≡ uppers_of n square.old }
    ensures square_after { belows_of n square.new ≡ cleared (belows_of n square.old) }
{
    for k in 0..n {
        clear_column(square, n, k);
    }
}

// After a call that passed its checks and is no solve: work is +0.
pub(crate) fn rest_room(p: &mut LinearLeastSquaresDiagonalProblem)
    ensures same_n { p.new.n ≡ p.old.n }
    ensures same_cells { p.new.cells.ghost_name ≡ p.old.cells.ghost_name }
    ensures cells { p.new.cells.now ≡ lay (rested (load p.old.n p.old.cells.now)) }
{
    clear_part(p, 3);
}

// After a zero solve, and after a solve or a search that was refused 8: strict lower part, l_diag and work are +0.
pub(crate) fn empty_room(p: &mut LinearLeastSquaresDiagonalProblem)
    ensures same_n { p.new.n ≡ p.old.n }
    ensures same_cells { p.new.cells.ghost_name ≡ p.old.cells.ghost_name }
    ensures cells { p.new.cells.now ≡ lay (emptied (load p.old.n p.old.cells.now)) }
{
    let n = p.n;
    let whole = n * n;
    clear_below(&mut p.cells[..whole], n);
    clear_last(p);
}

// After a damped solve, whose elimination left L below the diagonal: L's diagonal is written, and work is +0.
pub(crate) fn put_damped(p: &mut LinearLeastSquaresDiagonalProblem, ldiag: &[f64])
    requires { length ldiag.now ≡ p.old.n }
    ensures same_n { p.new.n ≡ p.old.n }
    ensures same_cells { p.new.cells.ghost_name ≡ p.old.cells.ghost_name }
    ensures cells { p.new.cells.now ≡ lay (leaving (load p.old.n p.old.cells.now).below ldiag.now (load p.old.n p.old.cells.now)) }
{
    put_part(p, 2, ldiag);
    clear_part(p, 3);
}
