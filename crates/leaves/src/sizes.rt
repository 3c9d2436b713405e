// Document 01, 'Sizes' and test 2; and the rooms that every later module needs. Test 2 stands here and not in `factor`,
// because `reduce` and `eliminate`, below it, make it too.
ghost use Rattle.std.specs.Prelude.{◌≡◌, min, replicate};
ghost use Rattle.leaves.specs.Tests.{outside as outside_of};

// Test 2: m rows or n columns outside their range.
//
// m, n: the sizes asked about, any numbers.
// Answers true where m is not 1 to 128 or n not 1 to 16. Refuses nothing.
pub fn outside(m: usize, n: usize) -> bool
    ensures { result ≡ outside_of m n }
{
    if m == 0 {
        return true;
    }
    if 128 < m {
        return true;
    }
    if n == 0 {
        return true;
    }
    16 < n
}

// The lesser of two lengths. Refuses nothing.
pub fn least(a: usize, b: usize) -> usize
    ensures { result ≡ min a b }
{
    if a < b { a } else { b }
}

// Room for N things, all v. Its own function, so that a proof sees one list and not N cells. Refuses nothing.
pub fn filled<T: Copy, const N: usize>(v: T) -> [T; N]
    ensures { result ≡ replicate N v }
{
    [v; N]
}
