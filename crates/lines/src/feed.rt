// A line out of the bytes that were read.
ghost use Rattle.std.specs.Prelude.{◌≡◌, drop, slice_set};
ghost use Rattle.lines.specs.Feed.{fed_from};

use std::num::wrapping_add_usize;

// The place of what is left of the chunk; how many bytes of the line have come, whether or not its room holds them; whether it ended: a
// flag, since the place and the count stand either way.
#[derive(Clone, Copy)]
pub struct Fed {
    pub next: usize,
    pub fill: usize,
    pub ended: bool,
}

fn keep(room: &mut [u8], i: usize, b: u8)
    ensures { room.new ≡ slice_set room.old i b }
{
    if i < room.len() {
        room[i] = b;
    }
}

// The chunk's bytes from `at` on, up to the end of a line, which is not kept, or of the chunk.
pub fn line(chunk: &[u8], at: usize, room: &mut [u8], fill: usize) -> Fed
    ensures { (result, room.new) ≡ fed_from at fill (drop at chunk.now) room.old }
{
    let mut k = fill;
    for i in at..chunk.len() {
        let b = chunk[i];
        if b == b'\n' {
            return Fed {
                next: i + 1,
                fill: k,
                ended: true,
            };
        }
        keep(room, k, b);
        k = wrapping_add_usize(k, 1);
    }
    Fed {
        next: at.max(chunk.len()),
        fill: k,
        ended: false,
    }
}
