// 02, #108: the factoring of a Jacobian that stands in the bench with its residuals. The calls that know frozen columns gather the free ones
// there, and tell what is left of it by marks that this crate has not: so it is a working on numbers that are lent, sizes and slices, and no
// state (docs/DECISIONS.md, D14 and D70). Test 6 is its caller's.
ghost use Rattle.std.specs.Prelude.{◌≡◌};
ghost use Rattle.leaves.specs.Reply.{reply_of, failed_by};
ghost use Rattle.leaves.specs.Tests.{first_of};
ghost use Rattle.factor.specs.Filled.{filled_tests, filled_as, factor_filled};

use crate::check::sizes;
use crate::store::PivotedQR;
use leaves::norm::Ranges;
use leaves::reply::Refusal;

fn check_filled(m: usize, n: usize, store: usize, order: usize, bench: usize) -> Result<(), Refusal>
    ensures { failed_by result ≡ first_of (filled_tests m n store order bench) }
{
    sizes(m, n, store, order)?;
    if bench < m * n + m {
        Err(Refusal::Length)
    } else {
        Ok(())
    }
}

// Factors what stands in the bench, with column pivoting, and transforms the residuals there.
//
// m, n: rows and columns. store: not read; on exit R on and above the diagonal of the square and +0 below, qt_b, the column norms, l_diag and
// work +0. order: not read; on exit the column that stands at each place. bench: its first m·n, column by column, and then m residuals; on
// exit these are +0.
// Answers the ranges that took part in any norm worked out for it (02, #106).
// Refused 2 for the sizes, 3 for a slice that is too short: every slice is as it was. Refused 8 where R, a column norm or qt_b would hold a
// number that is not finite: the needed store +0, the order 0 to n − 1, the bench as after an answer. Numbers that are not finite are not
// refused by themselves.
pub fn factor_filled(
    m: usize,
    n: usize,
    store: &mut [f64],
    order: &mut [usize],
    bench: &mut [f64],
) -> Result<Ranges, Refusal>
    ensures { filled_as (reply_of result) store.new order.new bench.new ≡ factor_filled m n store.old order.old bench.old }
{
    check_filled(m, n, store.len(), order.len(), bench.len())?;
    let mut qr = PivotedQR {
        m,
        n,
        store,
        order,
        bench,
    };
    qr.filled_working()
}
