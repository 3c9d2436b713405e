// The reduced problem as a store of its own, and the way back.
ghost use Rattle.std.specs.Prelude.{◌≡◌, ◌++◌, ◌-◌, ◌*◌, ◌≤◌, length};
ghost use Rattle.leaves.specs.Reply.{reply_of};
ghost use Rattle.leaves.specs.Square.{zeros};
ghost use Rattle.frozen.specs.Narrowed.{runs, narrow_call, spread as spread_runs, spread_call};

use leaves::reply::Refusal;
use leaves::sizes::outside;
use leaves::vector::fill;

// The first w of each of count runs, which stand apart from one another.
fn copy_runs(w: usize, apart: usize, count: usize, src: &[f64], dst: &mut [f64])
    requires w_le_apart { w ≤ apart }
    requires apart_in_bounds { count * apart ≤ length src.now }
    requires dst_len { length dst.old ≡ count * w }
    ensures { dst.new ≡ runs w apart count src.now }
{
    for k in 0..count {
        let a = k * apart;
        let b = k * w;
        dst[b..b + w].copy_from_slice(&src[a..a + w]);
    }
}

// The reduced problem, its columns next to one another.
//
// n, free: the sizes of the store and of the reduced problem. store: only read. small: on exit the reduced problem's square, qt_b, column norms,
// l_diag and work; its surplus as it was.
// Refused 2 where n is not 1 to 16 or free not 1 to n, 3 where a slice is too short; small is then as it was.
pub fn narrow(n: usize, free: usize, store: &[f64], small: &mut [f64]) -> Result<(), Refusal>
    ensures { (reply_of result, small.new) ≡ narrow_call n free store.now small.old }
{
    if outside(1, n) {
        return Err(Refusal::Sizes);
    }
    if outside(1, free) {
        return Err(Refusal::Sizes);
    }
    if n < free {
        return Err(Refusal::Sizes);
    }
    if store.len() < n * n + 4 * n {
        return Err(Refusal::Length);
    }
    let p = free * free;
    let e = p + 4 * free;
    if small.len() < e {
        return Err(Refusal::Length);
    }
    copy_runs(free, n, free, store, &mut small[..p]);
    copy_runs(free, n, 4, &store[n * n..], &mut small[p..e]);
    Ok(())
}

// One run, and +0 to the end of dst.
fn lay_run(src: &[f64], dst: &mut [f64])
    requires { length src.now ≤ length dst.old }
    ensures { dst.new ≡ src.now ++ zeros (length dst.old - length src.now) }
{
    let w = src.len();
    dst[..w].copy_from_slice(src);
    fill(0.0, &mut dst[w..]);
}

// count runs of w numbers, each followed by +0 up to where the next begins.
fn lay_runs(w: usize, apart: usize, count: usize, src: &[f64], dst: &mut [f64])
    requires w_le_apart { w ≤ apart }
    requires w_in_bounds { count * w ≤ length src.now }
    requires dst_len { length dst.old ≡ count * apart }
    ensures { dst.new ≡ spread_runs w apart count src.now }
{
    for k in 0..count {
        let a = k * w;
        let b = k * apart;
        lay_run(&src[a..a + w], &mut dst[b..b + apart]);
    }
}

// The way back: the reduced problem's columns n apart, +0 past the free count.
//
// n, free: the sizes of the store and of the reduced problem. small: the reduced problem's square, qt_b, column norms, l_diag and work, only
// read. store: not read; on exit each of these parts has the reduced problem's at its first places, and +0 after them; its surplus as it was.
// Refused 2 where n is not 1 to 16 or free not 1 to n, 3 where a slice is too short; store is then as it was.
pub fn spread(n: usize, free: usize, small: &[f64], store: &mut [f64]) -> Result<(), Refusal>
    ensures { (reply_of result, store.new) ≡ spread_call n free small.now store.old }
{
    if outside(1, n) {
        return Err(Refusal::Sizes);
    }
    if outside(1, free) {
        return Err(Refusal::Sizes);
    }
    if n < free {
        return Err(Refusal::Sizes);
    }
    let p = free * free;
    if small.len() < p + 4 * free {
        return Err(Refusal::Length);
    }
    let a = free * n;
    let b = n * n;
    let e = b + 4 * n;
    if store.len() < e {
        return Err(Refusal::Length);
    }
    lay_runs(free, n, free, small, &mut store[..a]);
    fill(0.0, &mut store[a..b]);
    lay_runs(free, n, 4, &small[p..], &mut store[b..e]);
    Ok(())
}
