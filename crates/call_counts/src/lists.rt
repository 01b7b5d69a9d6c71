// The file and the two lists that calls are counted by.
ghost use Rattle.std.specs.Prelude.{false};
ghost use Rattle.calls.specs.Lists.{Ready};

use calls::Shape;

// An accepted file and two good lists.
// Not bed_read's `Lines`, which is for either order of the two lists: counting needs one order only, and every definition of specs/ that takes `Lines`
// has to name its two types of items and what their trait says of each.
#[derive(Drop)]
pub(crate) struct Lists<'a> {
    pub file: &'a [u8],
    pub shape: Shape,
    pub iid_index: &'a [i64],
    pub sid_index: &'a [i64],
    ghost ready: { Ready file.now shape false sid_index.now iid_index.now },
}
