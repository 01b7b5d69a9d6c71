// The pieces of A'A and AA', from a matrix of f64 in lent bytes.
#![tactic(auto)]

ghost use Rattle.std.specs.Prelude.{◌≡◌};
ghost use Rattle.product.specs.Piece.{ata_answer, ata_leaves, aat_answer, aat_leaves};
ghost use Rattle.product.specs.Says.{piece_says};

mod checks;
mod column;
mod floats;
mod lent;
mod lines;
mod sums;
mod walk;

pub use checks::PieceError;
use walk::Product;

// A'A: few rows at a time, each with all its terms.
const ATA: Product = Product {
    least_width: 1,
    rows_together: 8,
    block_rows: 8,
    tile_width: 0,
};

// A'A of one row, whose columns stand side by side, as the rows of AA' do.
const ATA_OF_ONE_ROW: Product = Product {
    least_width: ATA.least_width,
    rows_together: AAT.rows_together,
    block_rows: AAT.block_rows,
    tile_width: AAT.tile_width,
};

// AA': all rows with some terms, then with the next ones.
const AAT: Product = Product {
    least_width: 0,
    rows_together: 32768,
    block_rows: 64,
    tile_width: 8,
};

// The two calls differ in the total, where their lines stand, and the mirror. One function of both would take these besides
// all arguments here, and would be as long as the two.

// A piece of A'A, for the matrix A of row_count rows and col_count columns in the bytes after an offset.
pub fn file_ata_piece_f64(
    bytes: &[u8],
    offset: u64,
    row_count: usize,
    col_count: usize,
    col_start: usize,
    height: usize,
    width: usize,
    piece: &mut [f64],
) -> Result<(), PieceError>
    ensures result_value { piece_says result ≡ ata_answer bytes.now offset row_count col_count col_start height width piece.old }
    ensures piece_after { piece.new ≡ ata_leaves bytes.now offset row_count col_count col_start height width piece.old }
{
    checks::check_piece(
        bytes.len(),
        offset,
        row_count,
        col_count,
        col_count,
        col_start,
        height,
        width,
        ATA.least_width,
        piece.len(),
    )?;
    let product = if row_count == 1 { ATA_OF_ONE_ROW } else { ATA };
    walk::lower_piece(
        product,
        bytes,
        offset,
        col_start * row_count,
        row_count,
        1,
        row_count,
        height,
        width,
        piece,
    );
    walk::mirror(width, piece);
    Ok(())
}

// A piece of AA', for the same matrix.
pub fn file_aat_piece_f64(
    bytes: &[u8],
    offset: u64,
    row_count: usize,
    col_count: usize,
    row_start: usize,
    height: usize,
    width: usize,
    piece: &mut [f64],
) -> Result<(), PieceError>
    ensures result_value { piece_says result ≡ aat_answer bytes.now offset row_count col_count row_start height width piece.old }
    ensures piece_after { piece.new ≡ aat_leaves bytes.now offset row_count col_count row_start height width piece.old }
{
    checks::check_piece(
        bytes.len(),
        offset,
        row_count,
        col_count,
        row_count,
        row_start,
        height,
        width,
        AAT.least_width,
        piece.len(),
    )?;
    walk::lower_piece(
        AAT, bytes, offset, row_start, 1, row_count, col_count, height, width, piece,
    );
    Ok(())
}
