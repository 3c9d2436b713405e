// How much of a slice a number asks for: n, where it has as many; else all that it has.
ghost use Rattle.std.specs.Prelude.{◌≡◌, length};
ghost use Rattle.text.specs.inner.Part.{Part};
ghost use Rattle.lines.specs.Part.{at_most};

// n, or how many things s has where that is less. Refuses nothing.
pub fn within<T>(s: &[T], n: usize) -> usize
    ensures value { result ≡ at_most (length s.now) n }
    ensures part { Part result s.now }
{
    if n < s.len() { n } else { s.len() }
}
