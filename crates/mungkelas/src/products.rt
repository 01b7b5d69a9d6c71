// The product pieces: two calls, since C names two, and each calls the one of its name in product.
ghost use Rattle.mungkelas.specs.Header.{BedAtaPiece, BedAatPiece};

use bed_answer::BedAnswer;

pub fn bed_file_ata_piece(
    bytes: &[u8],
    offset: u64,
    row_count: usize,
    col_count: usize,
    col_start: usize,
    height: usize,
    width: usize,
    piece: &mut [f64],
) -> BedAnswer
    ensures { BedAtaPiece bytes.now offset row_count col_count col_start height width result piece.old piece.new }
{
    BedAnswer::from(product::file_ata_piece_f64(
        bytes, offset, row_count, col_count, col_start, height, width, piece,
    ))
}

pub fn bed_file_aat_piece(
    bytes: &[u8],
    offset: u64,
    row_count: usize,
    col_count: usize,
    row_start: usize,
    height: usize,
    width: usize,
    piece: &mut [f64],
) -> BedAnswer
    ensures { BedAatPiece bytes.now offset row_count col_count row_start height width result piece.old piece.new }
{
    BedAnswer::from(product::file_aat_piece_f64(
        bytes, offset, row_count, col_count, row_start, height, width, piece,
    ))
}
