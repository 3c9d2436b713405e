// One line: its sheet out of hex, and what is printed for it.

use leaves::sizes::filled;
use lines::part::within;
use sheet::lines::fit_lines;
use text::digit::value;
use text::put::Page;

fn joined(high: u64, low: u64) -> u8 {
    (high % 16 * 16 + low % 16) as u8
}

// Of two hex digits.
fn byte_of(a: u8, b: u8) -> Option<u8> {
    Some(joined(value(a)?, value(b)?))
}

// How many bytes there are; None where they are not all hex digits or do not fit.
fn unhex(line: &[u8], out: &mut [u8]) -> Option<usize> {
    let n = line.len() / 2;
    if line.len() % 2 == 1 {
        return None;
    }
    if out.len() < n {
        return None;
    }
    for i in 0..n {
        out[i] = byte_of(line[2 * i], line[2 * i + 1])?;
    }
    Some(n)
}

fn fitted(sheet: &[u8], page: &mut Page<'_>) {
    let mut lines: [u8; 1024] = filled(0);
    if let Ok(n) = fit_lines(sheet, &mut lines) {
        let k = within(&lines, n);
        page.bytes(&lines[..k]);
    }
}

pub(crate) fn line(line: &[u8], page: &mut Page<'_>) {
    // More than the longest sheet.
    let mut sheet: [u8; 32768] = filled(0);
    match unhex(line, &mut sheet) {
        Some(n) => {
            let k = within(&sheet, n);
            fitted(&sheet[..k], page);
            page.bytes(b".\n");
        }
        None => page.bytes(b"does not parse\n.\n"),
    }
}
