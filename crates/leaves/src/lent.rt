// What the workings are lent, once its form is known: each value of these types is of that form, so that no working asks for it again.
ghost use Rattle.leaves.specs.inner.Squares.{Square as IsSquare};
ghost use Rattle.leaves.specs.inner.Orders.{Names};

// An n by n square, its columns one after the other, of at most 16.
#[derive(Clone, Copy)]
pub struct Square<'a> {
    pub n: usize,
    pub cells: &'a [f64],
    pub ghost square: { IsSquare n cells.now },
}

// An order list whose first n places name columns below n.
#[derive(Clone, Copy)]
pub struct Order<'a> {
    pub n: usize,
    pub places: &'a [usize],
    pub ghost names: { Names n places.now },
}
