// A sheet's head once its sizes are tested, alone, with the sheet's bytes and with its numbers: nothing behind the tests asks again.
ghost use Rattle.std.specs.Prelude.{◌≡◌, false, ◌+◌, ◌≤◌, length};
ghost use Rattle.leaves.specs.Tests.{outside};
ghost use Rattle.sheet.specs.Sheet.{count_of, length_of, lasts, task_of, job_of};

use crate::head::Head;

// A head whose rows and columns are in range.
#[derive(Clone, Copy)]
pub(crate) struct Sizes {
    pub(crate) head: Head,
    pub(crate) ghost sizes: { outside head.m head.n ≡ false },
}

// The whole sheet, of the length that its head asks for.
#[derive(Clone, Copy)]
pub(crate) struct Bytes<'a> {
    pub(crate) of: Sizes,
    pub(crate) bytes: &'a [u8],
    pub(crate) ghost bytes_len: { length bytes.now ≡ length_of of.head },
}

// The numbers behind the head, as many as it asks for.
#[derive(Clone, Copy)]
pub(crate) struct Numbers<'a> {
    pub(crate) of: Sizes,
    pub(crate) xs: &'a [f64],
    pub(crate) ghost xs_len: { length xs.now ≡ count_of of.head },
}

// What stands behind the residuals: a number for each column, then the call's own.
#[derive(Clone, Copy)]
pub(crate) struct Rest<'a> {
    pub(crate) call: u8,
    pub(crate) n: usize,
    pub(crate) xs: &'a [f64],
    pub(crate) ghost xs_len: { n + lasts call ≤ length xs.now },
}

impl Numbers<'_> {
    pub(crate) fn rest(&self) -> Rest<'_>
        ensures { task_of result.call result.n result.xs.now ≡ (job_of self.now.of.head self.now.xs.now).task }
    {
        let xs = self.xs;
        let h = self.of.head;
        let a = h.m * h.n + h.m;
        Rest {
            call: h.call,
            n: h.n,
            xs: &xs[a..],
        }
    }
}
