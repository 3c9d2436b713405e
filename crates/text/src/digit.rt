// One hex digit.
ghost use Rattle.std.specs.Prelude.{◌≡◌, ◌%◌};
ghost use Rattle.text.specs.Digit.{digit_of, glyph};

// The value of a hex digit, capital or small.
//
// b: any byte.
// None where it is no digit.
#[tactic(auto, unfolding(crate::specs::Digit::digit_of))]
pub fn value(b: u8) -> Option<u64>
    ensures { result ≡ digit_of b }
{
    let w = b as u64;
    if w < 48 {
        return None;
    }
    if w < 58 {
        return Some(w - 48);
    }
    if w < 65 {
        return None;
    }
    if w < 71 {
        return Some(w - 55);
    }
    if w < 97 {
        return None;
    }
    if w < 103 {
        return Some(w - 87);
    }
    None
}

// The capital hex digit of v's last four bits, as a byte. Refuses nothing.
#[tactic(auto, unfolding(crate::specs::Digit::glyph))]
pub fn capital(v: u64) -> u8
    ensures { result ≡ glyph (v % 16) }
{
    let d = v % 16;
    if d < 10 { 48 + d as u8 } else { 55 + d as u8 }
}
