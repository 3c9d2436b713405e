// What the workings are lent, once the tests are passed: each value of these types is of that form, so that no working asks for it again.
ghost use Rattle.std.specs.Prelude.{◌≡◌, false, ◌+◌, ◌*◌, ◌<◌, ◌≤◌, length};
ghost use Rattle.leaves.specs.Tests.{outside};
ghost use Rattle.factor.specs.inner.Rooms.{Sized};
ghost use Rattle.reduce.specs.inner.Bench.{Benched};

use leaves::lent::Square;

// L by columns, as a damped solve leaves it: below the diagonal of a square, and its diagonal apart.
#[derive(Clone, Copy)]
pub struct Lower<'a, 'b> {
    pub square: Square<'a>,
    pub ldiag: &'b [f64],
    pub ghost ldiag_len: { length ldiag.now ≡ square.n },
}

// A store of n columns, only read.
#[derive(Clone, Copy)]
pub struct Store<'a> {
    pub n: usize,
    pub cells: &'a [f64],
    pub ghost sized: { Sized n cells.now },
}

// A store of n columns, lent to be written: the problem that the solves work on (`LinearLeastSquaresDiagonalProblem`).
#[derive(Drop)]
pub struct LinearLeastSquaresDiagonalProblem<'a> {
    pub n: usize,
    pub cells: &'a mut [f64],
    pub ghost some: { 0 < n },
    pub ghost sized: { Sized n cells.now },
}

impl LinearLeastSquaresDiagonalProblem<'_> {
    // The same store, to be read.
    pub(crate) fn lent(&self) -> Store<'_>
        ensures n { result.n ≡ self.now.n }
        ensures cells { result.cells.now ≡ self.now.cells.now }
    {
        Store {
            n: self.n,
            cells: self.cells,
        }
    }
}

// What the last solve left in a store: L below the diagonal, after a damped one, or else R, whose columns are the rows of L (`CholeskyFactor`).
#[derive(Clone, Copy)]
pub struct CholeskyFactor<'a> {
    pub store: Store<'a>,
    pub lower: bool,
}

// A reduced bench, only read: the n columns of m rows and the residuals as one more, one after the other.
#[derive(Clone, Copy)]
pub struct Bench<'a> {
    pub m: usize,
    pub n: usize,
    pub cells: &'a [f64],
    pub ghost benched: { Benched m n cells.now },
}

// A factoring under way. store and order: what it writes; bench: the Jacobian's m·n and then the residuals, reduced in place.
#[derive(Drop)]
pub struct PivotedQR<'a> {
    pub m: usize,
    pub n: usize,
    pub store: &'a mut [f64],
    pub order: &'a mut [usize],
    pub bench: &'a mut [f64],
    pub ghost sizes: { outside m n ≡ false },
    pub ghost store_long: { n * n + 4 * n ≤ length store.now },
    pub ghost order_long: { n ≤ length order.now },
    pub ghost bench_long: { m * n + m ≤ length bench.now },
}
