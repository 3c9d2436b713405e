// What is printed. A write that fails is passed over.
use std::io::Stdout;

fn verdict(screen: Stdout, good: bool) -> u64 {
    if good {
        let _ = screen.write_all(b" ok\n");
        return 0;
    }
    let _ = screen.write_all(b" FAILED\n");
    1
}

// Answers how many failed: 0 or 1.
pub(crate) fn line(screen: Stdout, name: &[u8], good: bool) -> u64 {
    let _ = screen.write_all(name);
    verdict(screen, good)
}

pub(crate) fn sum(a: u64, b: u64, c: u64) -> u64 {
    std::num::wrapping_add_u64(a, std::num::wrapping_add_u64(b, c))
}

fn ones(k: u64) -> u8 {
    (k % 10 + 48) as u8
}

// There are fewer than twenty tests, so the ten's digit is 1 or is not there.
pub(crate) fn total(screen: Stdout, failed: u64) {
    let _ = screen.write_all(b"15 tests, ");
    if failed >= 10 {
        let _ = screen.write_all(b"1");
    }
    let digit = [ones(failed)];
    let _ = screen.write_all(&digit);
    let _ = screen.write_all(b" failed\n");
}
