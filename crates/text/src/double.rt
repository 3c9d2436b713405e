// A double and its bits, with one NaN: 7FF8000000000000. Document 01: "All NaNs count as one value; which bits a NaN has is not promised";
// with one pattern two workings can be compared line by line.
ghost use Rattle.std.specs.Prelude.{◌≡◌};
ghost use Rattle.std.specs.Float.{binary64};
ghost use Rattle.std.specs.Float.Ieee.{of_bits, to_bits};

// The double of a bit pattern; every NaN's pattern gives the one NaN. Refuses nothing.
pub fn of_bits(w: u64) -> f64
    ensures { result ≡ of_bits binary64 w }
{
    if w % 0x8000_0000_0000_0000 > 0x7ff0_0000_0000_0000 {
        return 0.0 / 0.0;
    }
    f64::from_bits(w)
}

// The bit pattern of a double; a NaN's is 7FF8000000000000. Refuses nothing.
pub fn bits_of(x: f64) -> u64
    ensures { result ≡ to_bits binary64 x }
{
    if x != x {
        return 0x7ff8_0000_0000_0000;
    }
    f64::to_bits(x)
}
