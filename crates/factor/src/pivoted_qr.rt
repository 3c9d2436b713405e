// Document 01, modules 2 and 3: `PivotedQR::new` with `into_least_squares_diagonal_problem`.
ghost use Rattle.std.specs.Prelude.{◌≡◌};
ghost use Rattle.leaves.specs.Reply.{reply_of};
ghost use Rattle.factor.specs.Factoring.{factored, factor_call};

use crate::check::check_factor;
use crate::state::{Held, State, empty};
use crate::store::PivotedQR;
use leaves::norm::Ranges;
use leaves::reply::Told;

// Factors a Jacobian with column pivoting and transforms its residuals.
//
// m, n: rows and columns. jacobian: its first m·n, column by column, only read. residuals: the first m, only read. store: not read; on exit
// R on and above the diagonal of the square and +0 below, qt_b, the column norms, l_diag and work +0. order: not read; on exit the column
// that stands at each place. bench: not read; on exit its first m·n + m are +0.
// Answers the ranges that took part in any norm worked out for it (02, #106). Hands back a state of these sizes with nothing held.
// Refused 2 for the sizes, 3 for a slice that is too short, 6 for a number that is not finite: every slice is as it was. Refused 8 where R,
// a column norm or qt_b would hold a number that is not finite: the needed store +0, the order 0 to n − 1. A refused factoring hands back
// the empty state.
pub fn pivoted_qr(
    m: usize,
    n: usize,
    jacobian: &[f64],
    residuals: &[f64],
    store: &mut [f64],
    order: &mut [usize],
    bench: &mut [f64],
) -> Told<Ranges, State>
    ensures { factored (reply_of result.answer) result.state store.new order.new bench.new ≡ factor_call m n jacobian.now residuals.now store.old order.old bench.old }
{
    if let Err(no) = check_factor(
        m,
        n,
        jacobian,
        residuals,
        store.len(),
        order.len(),
        bench.len(),
    ) {
        return Told {
            answer: Err(no),
            state: empty(),
        };
    }
    let mut qr = PivotedQR {
        m,
        n,
        store,
        order,
        bench,
    };
    let answer = qr.factor_working(jacobian, residuals);
    let state = if answer.is_ok() {
        State {
            m,
            n,
            held: Held::Nothing,
        }
    } else {
        empty()
    };
    Told { answer, state }
}
