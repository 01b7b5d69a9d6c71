// A column of a piece: its sums taken out and put back.
ghost use Rattle.std.specs.Prelude.{◌≡◌, ℕ, ◌+◌, ◌*◌, ◌<◌, length, get_or};
ghost use Rattle.std.specs.Float.{nan};
ghost use Rattle.answer.specs.Lists.{tabulate};
ghost use Rattle.product.specs.Private.{Put};

// Takes out values a width apart.
#[tactic(auto, using(crate::proofs::InPlaceLaws::fills))]
pub(crate) fn take_out(piece: &[f64], from: usize, width: usize, dst: &mut [f64])
    requires { (i : ℕ) → i < length dst.old → from + i * width < length piece.now }
    ensures { dst.new ≡ tabulate (length dst.old) (λ i. get_or piece.now (from + i * width) nan) }
{
    for i in 0..dst.len() {
        dst[i] = piece[from + i * width];
    }
}

// Puts them back.
pub(crate) fn put_back(src: &[f64], from: usize, width: usize, piece: &mut [f64])
    requires { (0 < width) × ((i : ℕ) → i < length src.now → from + i * width < length piece.old) }
    ensures { Put src.now from width piece.old piece.new }
{
    for i in 0..src.len() {
        piece[from + i * width] = src[i];
    }
}
