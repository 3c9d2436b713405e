// Runs the 14 tests of the Rust's src/qr.rs on what the calls of `factor` show, and one of determined on a matrix of theirs, and prints a
// line for each.
//
// The matrices, the expected values and the tolerances are those of qr.rs, which takes them from MINPACK, SciPy and Python's lmmin.
// What qr.rs looks at and no call shows is left out, and each test says so: the reflection vectors below R's diagonal, and the
// right-hand side inside a damped solve. Matrices stand here column by column.
//
// Proved: every function is safe and ends. Assumed, by std: the contracts of the C function `write` and of the number of an error. They do
// not say which bytes reach standard output. That the tests pass is shown by the run. A write that fails is passed over.
#![tactic(auto)]

mod damped;
mod factored;
mod held;
mod measured;
mod near;
mod problem;
mod report;
mod side;
mod wide;

use std::io::Stdout;

// One half of the tests: how many failed.
fn factoring(screen: Stdout) -> u64 {
    let a = report::line(screen, b"test_pivoted_qr", factored::test_pivoted_qr());
    let b = report::line(screen, b"test_wide_matrix", wide::test_wide_matrix());
    let c = report::line(
        screen,
        b"test_pivoted_qr_more_branches",
        factored::test_pivoted_qr_more_branches(),
    );
    let d = report::line(
        screen,
        b"test_pivoted_qr_big_rank1",
        factored::test_pivoted_qr_big_rank1(),
    );
    let e = report::line(screen, b"test_into_lls", factored::test_into_lls());
    let f = report::line(
        screen,
        b"test_elimate_diag_and_l",
        damped::test_elimate_diag_and_l(),
    );
    let g = report::line(screen, b"test_lls_x_1", damped::test_lls_x_1());
    report::sum(a, b, report::sum(c, d, report::sum(e, f, g)))
}

// The other half.
fn solving(screen: Stdout) -> u64 {
    let a = report::line(screen, b"test_lls_x_2", damped::test_lls_x_2());
    let b = report::line(
        screen,
        b"test_lls_wide_matrix",
        wide::test_lls_wide_matrix(),
    );
    let c = report::line(
        screen,
        b"test_lls_zero_diagonal",
        held::test_lls_zero_diagonal(),
    );
    let d = report::line(screen, b"test_cholesky_lower", held::test_cholesky_lower());
    let e = report::line(screen, b"test_cholesky_upper", held::test_cholesky_upper());
    let f = report::line(
        screen,
        b"test_column_max_norm",
        measured::test_column_max_norm(),
    );
    let g = report::line(screen, b"test_a_x_norm", measured::test_a_x_norm());
    let h = report::line(
        screen,
        b"determined_big_rank1",
        factored::determined_big_rank1(),
    );
    report::sum(
        a,
        b,
        report::sum(c, d, report::sum(e, f, report::sum(g, h, 0))),
    )
}

fn main(rt: HostRuntime) {
    let a = factoring(rt.stdout());
    let b = solving(rt.stdout());
    report::total(rt.stdout(), report::sum(a, b, 0));
}
