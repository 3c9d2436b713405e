// The tests of qr.rs on a factoring. In a store of n columns stand the square, n² numbers, then qt_b, then the column norms. The
// reflection vectors are not shown: of the Rust's `qr.qr` the part above the diagonal is compared.
use crate::near::default_epsilon;
use crate::{near, problem};
use measures::measures::determined;

// test_pivoted_qr
const SMALL_ORDER: [usize; 3] = [1, 2, 0];

const SMALL_NORMS: [f64; 3] = [2.23606797749979, 10.816653826391969, 4.153311931459037];

const SMALL_DIAGONAL: [f64; 3] = [-10.816653826391967, 4.1368161505254095, 1.0778765953488594];

const SMALL_ABOVE_1: [f64; 1] = [0.3698001308168193];

const SMALL_ABOVE_2: [f64; 2] = [-0.18490006540840964, 1.9503830421256012];

pub(crate) fn test_pivoted_qr() -> bool {
    let p = problem::small();
    let e = default_epsilon();
    let a = near::places(&p.order, &SMALL_ORDER);
    let b = near::all(&p.store, 12, &SMALL_NORMS, e);
    let c = near::diagonal(&p.store, &SMALL_DIAGONAL, e);
    let d = near::all(&p.store, 3, &SMALL_ABOVE_1, 1e-14);
    let f = near::all(&p.store, 6, &SMALL_ABOVE_2, 1e-14);
    a & b & c & d & f
}

// test_pivoted_qr_more_branches
const BRANCHES_DIAGONAL: [f64; 3] = [-67.683085036070864, -55.250741178610944, 0.00000000000001];

pub(crate) fn test_pivoted_qr_more_branches() -> bool {
    let p = problem::second();
    near::diagonal(&p.store, &BRANCHES_DIAGONAL, 1e-14)
}

// test_pivoted_qr_big_rank1: entry (i, j) is (i + 1)·(j + 1). The expected values are those of MINPACK's QRFAC.
const RANK1: [f64; 50] = [
    1.0, 2.0, 3.0, 4.0, 5.0, 6.0, 7.0, 8.0, 9.0, 10.0, 2.0, 4.0, 6.0, 8.0, 10.0, 12.0, 14.0, 16.0,
    18.0, 20.0, 3.0, 6.0, 9.0, 12.0, 15.0, 18.0, 21.0, 24.0, 27.0, 30.0, 4.0, 8.0, 12.0, 16.0,
    20.0, 24.0, 28.0, 32.0, 36.0, 40.0, 5.0, 10.0, 15.0, 20.0, 25.0, 30.0, 35.0, 40.0, 45.0, 50.0,
];

const NO_RESIDUALS: [f64; 10] = [0.0, 0.0, 0.0, 0.0, 0.0, 0.0, 0.0, 0.0, 0.0, 0.0];

const RANK1_DIAGONAL: [f64; 5] = [-98.107084351742913, -3.9720546451956370E-015, 0.0, 0.0, 0.0];

const RANK1_ABOVE_1: [f64; 1] = [-58.864250611045748];

const RANK1_ABOVE_2: [f64; 2] = [-39.242833740697165, 0.0];

const RANK1_ABOVE_3: [f64; 3] = [-78.485667481394330, 0.0, 0.0];

const RANK1_ABOVE_4: [f64; 4] = [-19.621416870348583, 0.0, 0.0, 0.0];

pub(crate) fn test_pivoted_qr_big_rank1() -> bool {
    let p = problem::lls(10, 5, &RANK1, &NO_RESIDUALS);
    let e = default_epsilon();
    let a = near::diagonal(&p.store, &RANK1_DIAGONAL, e);
    let b = near::all(&p.store, 5, &RANK1_ABOVE_1, e);
    let c = near::all(&p.store, 10, &RANK1_ABOVE_2, e);
    let d = near::all(&p.store, 15, &RANK1_ABOVE_3, e);
    let f = near::all(&p.store, 20, &RANK1_ABOVE_4, e);
    a & b & c & d & f
}

// 02, #104: for that matrix the report must say one. It is no test of qr.rs, which has no such count.
pub(crate) fn determined_big_rank1() -> bool {
    let p = problem::lls(10, 5, &RANK1, &NO_RESIDUALS);
    let mut store = p.store;
    let t = determined(p.state, &mut store);
    matches!(t.answer, Ok(1))
}

// test_into_lls: from Python's lmmin and SciPy's MINPACK.
const SMALL_QT_B: [f64; 3] = [-3.790451340872398, 1.4266308163005572, 2.334839404175348];

pub(crate) fn test_into_lls() -> bool {
    let p = problem::small();
    near::all(&p.store, 9, &SMALL_QT_B, 1e-14)
}
