// Document 01, 'Job sheet and its program': the head of a sheet, 24 bits, most significant bit first.
ghost use Rattle.std.specs.Prelude.{◌≡◌, ◌≤◌, length};
ghost use Rattle.sheet.specs.Sheet.{head_of};

// call: the number as it stands in the sheet, since an unknown one is refused by it and `lasts` and `task_of` speak of it.
#[derive(Clone, Copy)]
pub struct Head {
    pub version: u8,
    pub call: u8,
    pub m: usize,
    pub n: usize,
}

// Version 4 bits, call 4, m 10, n 6.
pub(crate) fn head_of(s: &[u8]) -> Head
    requires { 3 ≤ length s.now }
    ensures { result ≡ head_of s.now }
{
    let b0 = s[0];
    let b1 = s[1] as usize;
    let b2 = s[2] as usize;
    Head {
        version: b0 / 16,
        call: b0 % 16,
        m: b1 * 4 + b2 / 64,
        n: b2 % 64,
    }
}
