// 02, #108, after a damped solve: the reduced problem's L goes to the lent store, its columns n apart, and all else below R's diagonal, in
// l_diag and in work becomes +0.
ghost use Rattle.std.specs.Prelude.{◌≡◌, [], suc, ◌-◌, ◌<◌, ◌≤◌, length, get_or, set};
ghost use Rattle.leaves.specs.Square.{uppers_of, belows_of};
ghost use Rattle.leaves.specs.inner.Squares.{Square as IsSquare};
ghost use Rattle.factor.specs.State.{store_need};
ghost use Rattle.factor.specs.Room.{load, lay, leaving};
ghost use Rattle.factor.specs.Solve.{padded};
ghost use Rattle.calls.specs.Outcome.{widened};
ghost use Rattle.calls.specs.inner.Reducible.{Reducible};

use crate::room::held_into;
use factor::pivot_order::empty;
use leaves::lent::Square;

// Column k of the reduced problem's L, and +0 under it.
fn widen_column(n: usize, k: usize, part: Square<'_>, square: &mut [f64])
    requires square { IsSquare n square.old }
    requires k_lt_part { (k < part.n) × (part.n ≤ n) }
    ensures square_unchanged { uppers_of n square.new ≡ uppers_of n square.old }
    ensures square_after { belows_of n square.new ≡ set (belows_of n square.old) k (padded (n - suc k) (get_or (belows_of part.entry.n part.entry.cells.now) k [])) }
{
    let free = part.n;
    let p = k * free + k + 1;
    let q = k * free + free;
    let a = k * n + k + 1;
    let e = k * n + n;
    held_into(e - a, q - p, &part.cells[p..q], &mut square[a..e]);
}

// L under the diagonal, where all is +0.
fn widen_columns(n: usize, part: Square<'_>, square: &mut [f64])
    requires square { IsSquare n square.old }
    requires part_le_n { (part.n ≤ n) × (belows_of n square.old ≡ widened n []) }
    ensures square_unchanged { uppers_of n square.new ≡ uppers_of n square.old }
    ensures square_after { belows_of n square.new ≡ widened n (belows_of part.entry.n part.entry.cells.now) }
{
    for k in 0..part.n {
        widen_column(n, k, part, square);
    }
}

pub(crate) fn widen_in(n: usize, marks: u16, free: usize, small: &[f64], store: &mut [f64])
    requires reducible { Reducible n marks free store.old }
    requires small_len { length small.now ≡ store_need free }
    ensures { store.new ≡ lay (leaving (widened n (load free small.now).below) (padded n (load free small.now).ldiag) (load n store.old)) }
{
    empty(n, store).unwrap();
    let whole = n * n;
    let square = free * free;
    let part = Square {
        n: free,
        cells: &small[..square],
    };
    widen_columns(n, part, &mut store[..whole]);
    let p = square + 2 * free;
    let q = p + free;
    let a = whole + 2 * n;
    let e = a + n;
    held_into(n, free, &small[p..q], &mut store[a..e]);
}
