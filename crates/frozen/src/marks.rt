// The marks are read from the most significant of their sixteen bits on; doubling brings the next column's to that place.
ghost use Rattle.std.specs.Prelude.{◌<◌, ◌≡◌};
ghost use Rattle.frozen.specs.Frozen.{marks_of, mark_past, free_count, next_of};

use leaves::sizes::least;

// The marks of the columns after the first.
pub(crate) fn next_of(x: u32) -> u32
    requires { x < 65536 }
    ensures { result ≡ next_of x }
{
    if x < 32768 { x * 2 } else { (x - 32768) * 2 }
}

// How many of n columns are free. Refuses nothing. Sixteen turns leave nothing of the marks, and a column past the sixteenth is free: no more
// turns are taken, whatever n is.
pub fn free_count(n: usize, marks: u16) -> usize
    ensures { result ≡ free_count (marks_of n marks) }
{
    if marks == 0 {
        return n;
    }
    let mut x = marks as u32;
    let turns = least(n, 16);
    let mut free = n - turns;
    for _ in 0..turns {
        if x < 32768 {
            free += 1;
        }
        x = next_of(x);
    }
    free
}

// Test 2: whether there is a mark past n. Refuses nothing. Sixteen turns leave nothing of the marks, so that it takes fewer.
pub fn mark_past(n: usize, marks: u16) -> bool
    ensures { result ≡ mark_past n marks }
{
    if marks == 0 {
        return false;
    }
    if n >= 16 {
        return false;
    }
    let mut x = marks as u32;
    for _ in 0..n {
        x = next_of(x);
    }
    x != 0
}
