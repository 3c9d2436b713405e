// Document 01, module 5: `eliminate_diag` of the Rust, on a square that is lent.
ghost use Rattle.std.specs.Prelude.{◌≡◌};
ghost use Rattle.leaves.specs.Reply.{reply_of, failed_by};
ghost use Rattle.leaves.specs.Tests.{first_of};
ghost use Rattle.eliminate.specs.Eliminated.{eliminated_as, eliminate_tests, eliminate_call};

use crate::elimination::Elimination;
use leaves::reply::Refusal;
use leaves::sizes::outside;

fn check(n: usize, square: usize, ds: usize, rhs: usize, ldiag: usize) -> Result<(), Refusal>
    ensures { failed_by result ≡ first_of (eliminate_tests n square ds rhs ldiag) }
{
    if outside(1, n) {
        return Err(Refusal::Sizes);
    }
    if square != n * n {
        return Err(Refusal::Length);
    }
    if ds != n {
        return Err(Refusal::Length);
    }
    if rhs != n {
        return Err(Refusal::Length);
    }
    if ldiag != n {
        Err(Refusal::Length)
    } else {
        Ok(())
    }
}

// Eliminates a diagonal against R and a right side.
//
// n: the number of columns. square: on entry R, n columns of n numbers, on and above its diagonal, what stands below is not read; on exit
// R as it was, and L below it, by columns. ds: the diagonal, its n entries in pivot order; a zero one is skipped. rhs: n numbers, on entry
// the right side, on exit what the rotations make of it. ldiag: n numbers, not read; on exit L's diagonal.
// Refused 2 for n outside 1 to 16, 3 where a slice is not of its exact length; every slice is then as it was.
// The working is called at two places, or it would be built in here, and the tests not into the callers, who know that they pass
// (docs/DECISIONS.md, D74).
pub fn eliminate_diag(
    n: usize,
    square: &mut [f64],
    ds: &[f64],
    rhs: &mut [f64],
    ldiag: &mut [f64],
) -> Result<(), Refusal>
    ensures { eliminated_as (reply_of result) square.new rhs.new ldiag.new ≡ eliminate_call n ds.now square.old rhs.old ldiag.old }
{
    check(n, square.len(), ds.len(), rhs.len(), ldiag.len())?;
    let mut elimination = Elimination {
        n,
        upper_r: square,
        rhs,
    };
    if n == 1 {
        elimination.eliminate(ds, ldiag);
        return Ok(());
    }
    elimination.eliminate(ds, ldiag);
    Ok(())
}
