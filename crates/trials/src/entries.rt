// What entries of slices hold that stand for nothing, or were there before.
ghost use Rattle.std.specs.Prelude.{◌≡◌, length, IfOk};

use std::alloc::{AllocError, Global};

// What stands for no round, and in a row for no meeting. It is said once more here: what the tests expect does not lean on what
// the library calls none.
pub(crate) const NONE: u16 = 65535;

// So many entries, of which no two neighbours are alike, and none is a round or a meeting of a test.
pub(crate) fn noise(heap: Global, many: usize) -> Result<Vec<u16>, AllocError>
    ensures { IfOk result (λ v. length v.items ≡ many) }
{
    (60000..61000u16).cycle().take(many).collect(heap)
}
