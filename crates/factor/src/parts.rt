// Document 01, 'Lent room': parts of a store for the crates above, which do not know where in it things stand.
ghost use Rattle.std.specs.Prelude.{◌≡◌};
ghost use Rattle.leaves.specs.Reply.{reply_of};
ghost use Rattle.factor.specs.Outcome.{read};
ghost use Rattle.factor.specs.Parts.{qtb_in, norms_in, diagonal_in, rest_in};

use crate::check::sizes;
use crate::room::{copy_part, rest_room, square_of};
use crate::solve::copy_diagonal;
use crate::store::{LinearLeastSquaresDiagonalProblem, Store};
use leaves::reply::Refusal;

// qt_b of a store.
//
// n: the number of columns. store: only read. w: on exit its first n are qt_b.
// Refused 2 for n outside 1 to 16, 3 for a store or a w that is too short; w is then as it was.
pub fn qt_b(n: usize, store: &[f64], w: &mut [f64]) -> Result<(), Refusal>
    ensures { read (reply_of result) w.new ≡ qtb_in n store.now w.old }
{
    sizes(1, n, store.len(), w.len())?;
    copy_part(Store { n, cells: store }, 0, &mut w[..n]);
    Ok(())
}

// The column norms of a store. As `qt_b`; on exit the first n of w are the norms, each at its column.
pub fn norms(n: usize, store: &[f64], w: &mut [f64]) -> Result<(), Refusal>
    ensures { read (reply_of result) w.new ≡ norms_in n store.now w.old }
{
    sizes(1, n, store.len(), w.len())?;
    copy_part(Store { n, cells: store }, 1, &mut w[..n]);
    Ok(())
}

// R's diagonal. As `qt_b`; on exit the first n of w are the diagonal, in pivot order.
pub fn diagonal(n: usize, store: &[f64], w: &mut [f64]) -> Result<(), Refusal>
    ensures { read (reply_of result) w.new ≡ diagonal_in n store.now w.old }
{
    sizes(1, n, store.len(), w.len())?;
    let square = square_of(Store { n, cells: store });
    copy_diagonal(square, &mut w[..n]);
    Ok(())
}

// What a call that passed its checks and is no solve leaves of a store.
//
// n: the number of columns. store: on exit work is +0, and nothing else is changed.
// Refused 2 for n outside 1 to 16, 3 for a store that is too short; the store is then as it was.
pub fn rest(n: usize, store: &mut [f64]) -> Result<(), Refusal>
    ensures { read (reply_of result) store.new ≡ rest_in n store.old }
{
    sizes(1, n, store.len(), n)?;
    rest_room(&mut LinearLeastSquaresDiagonalProblem { n, cells: store });
    Ok(())
}
