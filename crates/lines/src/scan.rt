// The words of a line, one space apart.
ghost use Rattle.std.specs.Prelude.{◌≡◌, slice_index, IfOk};
ghost use Rattle.text.specs.inner.Part.{Part};
ghost use Rattle.lines.specs.Scan.{past, word_at, doubles_at, vector_at};

use text::double::of_bits;

// A number, and the place of the word after it.
#[derive(Clone, Copy)]
pub struct Number {
    pub value: u64,
    pub next: usize,
}

// How many doubles were read into a room, and the place of the word after them.
#[derive(Clone, Copy)]
pub struct Span {
    pub len: usize,
    pub next: usize,
}

// Why none were: a word that does not read, or too many for the room.
#[derive(Clone, Copy, Debug, PartialEq, Eq)]
pub enum Unread {
    Bad,
    Large,
}

// The byte of s at place i; 0 past the end. Refuses nothing.
pub fn byte(s: &[u8], i: usize) -> u8
    ensures { result ≡ slice_index s.now i }
{
    if i < s.len() { s[i] } else { 0 }
}

// The place after one space.
fn past_space(s: &[u8], i: usize) -> usize
    ensures { result ≡ past s.now i }
{
    if i < s.len() {
        if s[i] == b' ' {
            return i + 1;
        }
        return i;
    }
    i
}

// None where the word does not read.
pub fn word(s: &[u8], at: usize) -> Option<Number>
    ensures { result ≡ word_at s.now at }
{
    let f = text::read::number(s, at)?;
    Some(Number {
        value: f.value,
        next: past_space(s, f.next),
    })
}

// As many doubles as len says.
pub fn doubles(s: &[u8], at: usize, len: usize, room: &mut [f64]) -> Result<Span, Unread>
    ensures room_after { (result, room.new) ≡ doubles_at s.now at len room.old }
    ensures part { IfOk result (λ f. Part f.len room.new) }
{
    if room.len() < len {
        return Err(Unread::Large);
    }
    let mut next = at;
    for i in 0..len {
        let Some(w) = word(s, next) else {
            return Err(Unread::Bad);
        };
        room[i] = of_bits(w.value);
        next = w.next;
    }
    Ok(Span { len, next })
}

// A length, and as many doubles.
pub fn vector(s: &[u8], at: usize, room: &mut [f64]) -> Result<Span, Unread>
    ensures room_after { (result, room.new) ≡ vector_at s.now at room.old }
    ensures part { IfOk result (λ f. Part f.len room.new) }
{
    let Some(n) = word(s, at) else {
        return Err(Unread::Bad);
    };
    doubles(s, n.next, n.value as usize, room)
}
