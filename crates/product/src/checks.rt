// The checks of a piece.
ghost use Rattle.std.specs.Prelude.{◌≡◌, ◌&&◌, leb};
ghost use Rattle.product.specs.Piece.{piece_answer, good_piece, enough_bytes};
ghost use Rattle.product.specs.Says.{piece_says};

// What a product call refuses: 18, 20, 15, 1.
#[derive(Clone, Copy, Debug, PartialEq, Eq)]
pub enum PieceError {
    CountTooLarge,
    CannotConvertBetaToFromF64,
    IndexMismatch,
    ReadError,
}

// Whether a piece does not meet 20.
#[tactic(auto, using(std::proofs::lemmas::Bool::Decides::nat_tests), unfolding(crate::specs::Piece::good_piece))]
fn good_piece(total: usize, start: usize, height: usize, width: usize, least_width: usize) -> bool
    ensures { result ≡ (good_piece total start height width && leb least_width width) }
{
    start < total && height == total - start && width <= height && least_width <= width
}

// Whether the bytes do not meet 1.
#[tactic(auto, using(std::proofs::lemmas::Bool::Decides::nat_tests, crate::proofs::CheckLaws::bytes_by_eight, crate::proofs::CheckLaws::offset_past), unfolding(crate::specs::Piece::enough_bytes))]
fn enough_bytes(bytes_len: usize, offset: u64, row_count: usize, col_count: usize) -> bool
    ensures { result ≡ enough_bytes bytes_len offset row_count col_count }
{
    row_count == 0
        || col_count == 0
        || offset <= bytes_len as u64
            && blocks::product_at_most(row_count, col_count, (bytes_len - offset as usize) / 8)
}

// The checks of a piece of so many lines, in order: 18, 20, 15, 1. Its numbers stay arguments, as the C interface has them: a
// struct would be filled at two places and read at this one.
#[tactic(auto, using(crate::proofs::CheckLaws::four_checks), unfolding(answer::specs::Answer::check))]
pub(crate) fn check_piece(
    bytes_len: usize,
    offset: u64,
    row_count: usize,
    col_count: usize,
    total: usize,
    start: usize,
    height: usize,
    width: usize,
    least_width: usize,
    piece_len: usize,
) -> Result<(), PieceError>
    ensures { piece_says result
        ≡ piece_answer (good_piece total start height width && leb least_width width) bytes_len offset
        row_count col_count start height width piece_len }
{
    if !(answer::counts_fit(row_count, col_count)
        && answer::counts_fit(start, height)
        && width <= answer::COUNT_LIMIT)
    {
        return Err(PieceError::CountTooLarge);
    }
    if !good_piece(total, start, height, width, least_width) {
        return Err(PieceError::CannotConvertBetaToFromF64);
    }
    if !blocks::product_is(height, width, piece_len) {
        return Err(PieceError::IndexMismatch);
    }
    if enough_bytes(bytes_len, offset, row_count, col_count) {
        return Ok(());
    }
    Err(PieceError::ReadError)
}
