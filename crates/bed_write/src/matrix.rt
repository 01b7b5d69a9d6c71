// A matrix of values in either order.
ghost use Rattle.std.specs.Prelude.{◌≡◌, cond, ◌*◌, ◌<◌, length, get_or};
ghost use Rattle.answer.specs.Matrix.{matrix_place};

use codes::BedVal;
use entries::{IidIndex, SidIndex};

// How many markers are packed together where a matrix or a file goes animal by animal: 16 neighbouring values or codes of four animals are read, and a byte of each of 16 blocks is written.
pub const TILE: usize = 16;

// In marker order markers of so few animals are packed together too: one of them takes less time than going on to the next does.
const FEW_ANIMALS: usize = 16;

// How values are gone through in one order.
#[derive(Clone, Copy)]
pub(crate) struct Layout {
    // How far apart the values of two neighbouring animals stand, and those of two neighbouring markers.
    pub animal_stride: usize,
    pub marker_stride: usize,
    // How many markers are packed together: in marker order one, unless it has few animals.
    pub tile: usize,
}

#[derive(Drop)]
pub(crate) struct Matrix<'a, T: BedVal> {
    pub val: &'a [T],
    pub iid_count: usize,
    pub sid_count: usize,
    pub animal_order: bool,
    ghost is_full: { iid_count * sid_count ≡ length val.now },
}

impl<'a, T: BedVal> Matrix<'a, T> {
    pub(crate) fn layout(&self) -> Layout
        ensures { (result.animal_stride ≡ cond self.now.animal_order self.now.sid_count 1)
            × (result.marker_stride ≡ cond self.now.animal_order 1 self.now.iid_count) × (0 < result.tile) }
    {
        if self.animal_order {
            Layout {
                animal_stride: self.sid_count,
                marker_stride: 1,
                tile: TILE,
            }
        } else {
            Layout {
                animal_stride: 1,
                marker_stride: self.iid_count,
                tile: if self.iid_count > FEW_ANIMALS {
                    1
                } else {
                    TILE
                },
            }
        }
    }

    // The place of an animal and a marker, by strides, which a loop finds once.
    pub(crate) fn place(&self, iid: IidIndex, sid: SidIndex) -> usize
        requires { (iid.0 < self.now.iid_count) × (sid.0 < self.now.sid_count) }
        ensures { result ≡ matrix_place self.now.animal_order self.now.iid_count self.now.sid_count iid.0 sid.0 }
    {
        let layout = self.layout();
        iid.0 * layout.animal_stride + sid.0 * layout.marker_stride
    }
}
