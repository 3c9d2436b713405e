// R's columns, without what stands below them, one after the other; and the way back.
ghost use Rattle.std.specs.Prelude.{◌≡◌, ◌++◌, ◌+◌, ◌-◌, ◌*◌, ◌/◌, ◌≤◌, length};
ghost use Rattle.leaves.specs.Square.{uppers_of, joined, zeros};
ghost use Rattle.leaves.specs.inner.Squares.{Square};
ghost use Rattle.reduce.specs.Reduced.{flat};
ghost use Rattle.factor.specs.Factoring.{no_lower};
ghost use Rattle.packing.specs.Packing.{triangle_from};

use leaves::vector::fill;

// Of the column at a its first k + 1, to b.
pub(crate) fn pack_columns(n: usize, square: &[f64], corner: &mut [f64])
    requires n_bound { n ≤ 16 }
    requires square { Square n square.now }
    requires corner_len { length corner.old ≡ n * (n + 1) / 2 }
    ensures { corner.new ≡ flat (uppers_of n square.now) }
{
    let mut a = 0;
    let mut b = 0;
    for k in 0..n {
        let e = b + k + 1;
        corner[b..e].copy_from_slice(&square[a..a + k + 1]);
        a += n;
        b = e;
    }
}

// A column of R, and +0 to its end.
fn unpack_column(src: &[f64], column: &mut [f64])
    requires { length src.now ≤ length column.old }
    ensures { column.new ≡ src.now ++ zeros (length column.old - length src.now) }
{
    let w = src.len();
    column[..w].copy_from_slice(src);
    fill(0.0, &mut column[w..]);
}

pub(crate) fn unpack_columns(n: usize, corner: &[f64], square: &mut [f64])
    requires n_bound { n ≤ 16 }
    requires corner_len { length corner.now ≡ n * (n + 1) / 2 }
    requires square_len { length square.old ≡ n * n }
    ensures { square.new ≡ joined (triangle_from 0 n corner.now) (no_lower n) }
{
    let mut a = 0;
    let mut b = 0;
    for k in 0..n {
        let e = b + k + 1;
        unpack_column(&corner[b..e], &mut square[a..a + n]);
        a += n;
        b = e;
    }
}
