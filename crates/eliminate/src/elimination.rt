// What the elimination is lent, once its form is known: each value of this type is of that form, so that no working asks for it again.
ghost use Rattle.std.specs.Prelude.{◌≡◌, length};
ghost use Rattle.leaves.specs.inner.Squares.{Square};

// R and its right sides under elimination, in place: column k of the square holds row k from its diagonal on.
#[derive(Drop)]
pub(crate) struct Elimination<'a> {
    pub n: usize,
    pub upper_r: &'a mut [f64],
    pub rhs: &'a mut [f64],
    pub ghost square: { Square n upper_r.now },
    pub ghost rhs_len: { length rhs.now ≡ n },
}
