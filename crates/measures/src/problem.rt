// What the measures are lent, once its form is known: each value of this type is of that form, so that no working asks for it again.
ghost use Rattle.std.specs.Prelude.{◌<◌};
ghost use Rattle.leaves.specs.inner.Orders.{Names};
ghost use Rattle.factor.specs.inner.Rooms.{Sized};

// A problem of n columns, only read: its store, which begins with R, and the column of J that stands at each place.
#[derive(Clone, Copy)]
pub(crate) struct LinearLeastSquaresDiagonalProblem<'a> {
    pub n: usize,
    pub store: &'a [f64],
    pub permutation: &'a [usize],
    pub ghost some: { 0 < n },
    pub ghost sized: { Sized n store.now },
    pub ghost names: { Names n permutation.now },
}
