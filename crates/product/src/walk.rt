// The walk over a piece.
//
// The pieces are formed from lines of values: columns for A'A, rows for AA'. The rows of the piece are taken in blocks,
// and a block's terms in passes. The values of a block in a pass are made floats once, in a tile; then each column's
// sums in the block are taken out, get their products, and are put back. A'A goes through all passes of a block and then
// to the next block, AA' through all blocks of a pass and then to the next pass: so each reads the matrix as it stands,
// about once.
ghost use Rattle.std.specs.Prelude.{◌≡◌, ◌+◌, ◌*◌, ◌<◌, ◌≤◌, length};
ghost use Rattle.std.specs.Float.{binary64};
ghost use Rattle.product.specs.Lent.{line_value};
ghost use Rattle.product.specs.Private.{value_of_line, LinesIn, LoadedOrStraight, rows_more, lower_piece, mirrored_piece};

use crate::lent::{Block, Lines, Rows, Tile};
use crate::{column, sums};

// What a product's pieces are formed by.
#[derive(Clone, Copy)]
pub(crate) struct Product {
    // The least width of a piece that does not meet 20.
    pub(crate) least_width: usize,
    // How many rows get all their terms before the next ones.
    pub(crate) rows_together: usize,
    // How many rows a block has.
    pub(crate) block_rows: usize,
    // The width below which the products are formed straight from the bytes where that can be.
    pub(crate) tile_width: usize,
    ghost sized: { (0 < rows_together) × (0 < block_rows) × (block_rows ≤ 64) },
}

impl Product {
    // How many terms a pass has: four where so few columns would use a tile that the products are rather formed straight
    // from the bytes.
    fn pass_terms(self, width: usize) -> usize
        ensures { (0 < result) × (result * self.block_rows ≤ 1792) }
    {
        if width < self.tile_width {
            4
        } else {
            1792 / self.block_rows
        }
    }
}

impl<'a> Rows<'a> {
    // How many terms go into a tile: none where the products can be formed straight from the bytes. These are then near,
    // since they were just looked at.
    fn tile_terms(&self) -> usize
        ensures { (result ≤ self.now.lines.now.terms)
            × LoadedOrStraight self.now.lines.now.bytes.now self.now.lines.now.base self.now.lines.now.line self.now.lines.now.step self.now.lines.now.terms
            result self.now.top self.now.bottom }
    {
        if !(self.lines.are_neighbours() && self.lines.terms == 4) {
            return self.lines.terms;
        }
        if self.runs().are_finite() {
            0
        } else {
            self.lines.terms
        }
    }
}

// The width and the piece stay two arguments below: a struct of them would hold a `&mut`, and each clause would name the
// list behind two references.

// Adds the products of a block's terms to the sums of its rows. The room is for the sums of one column.
#[tactic(auto, using(crate::proofs::BlockLaws::block_none, crate::proofs::BlockLaws::columns_all))]
fn add_block(block: &Block, width: usize, room: &mut [f64], piece: &mut [f64])
    requires { (0 < width) × (block.now.rows.top + length room.old ≡ block.now.rows.bottom)
        × (block.now.rows.bottom * width ≤ length piece.old) }
    ensures { piece.new
        ≡ rows_more binary64 width (line_value block.now.rows.lines.now)
        block.now.rows.lines.now.terms block.now.rows.top block.now.rows.bottom piece.old }
{
    let top = block.rows.top;
    for c in 0..width.min(block.rows.bottom) {
        let from = top * width + c;
        column::take_out(piece, from, width, room);
        sums::add_products(block, c, room);
        let above = c.saturating_sub(top);
        column::put_back(&room[above..], from + above * width, width, piece);
    }
}

// Adds the products of all terms to the sums of some rows, in blocks of g rows.
#[tactic(auto, using(crate::proofs::BlockLaws::block_none))]
fn add_blocks(rows: &Rows, g: usize, width: usize, x: &mut [f64], piece: &mut [f64])
    requires { (0 < g) × (g ≤ 64) × (rows.now.lines.now.terms * g + 8 ≤ length x.old) × (0 < width)
        × (rows.now.bottom * width ≤ length piece.old) }
    ensures { piece.new
        ≡ rows_more binary64 width (line_value rows.now.lines.now)
        rows.now.lines.now.terms rows.now.top rows.now.bottom piece.old }
{
    let lines = rows.lines;
    let mut room = [0.0f64; 64];
    // A `while`: by `step_by` each block took 500 instructions more, of 8,000 in A'A of width 1 with 64 rows.
    let mut top = rows.top;
    while top < rows.bottom {
        let m = g.min(rows.bottom - top);
        let rows = Rows {
            lines,
            top,
            bottom: top + m,
        };
        let loaded = rows.tile_terms();
        rows.load_tile(loaded, g, x);
        let block = Block {
            rows,
            tile: Tile { x, g },
            loaded,
        };
        add_block(&block, width, &mut room[0..m], piece);
        top += m;
    }
}

// Adds the products of all terms to the sums of some rows, in passes.
#[tactic(auto, using(crate::proofs::BlockLaws::block_zero))]
fn add_terms(product: Product, rows: &Rows, width: usize, x: &mut [f64], piece: &mut [f64])
    requires { (1800 ≤ length x.old) × (0 < width) × (rows.now.bottom * width ≤ length piece.old) }
    ensures { piece.new
        ≡ rows_more binary64 width (line_value rows.now.lines.now)
        rows.now.lines.now.terms rows.now.top rows.now.bottom piece.old }
{
    let lines = rows.lines;
    let terms = product.pass_terms(width);
    for k in (0..lines.terms).step_by(terms) {
        let part = Rows {
            lines: &lines.part(k, terms.min(lines.terms - k)),
            top: rows.top,
            bottom: rows.bottom,
        };
        add_blocks(&part, product.block_rows, width, x, piece);
    }
}

// Forms the sums on and below the diagonal, and +0 above it. Its lines are made here and not by the callers, since without
// terms their base may pass 64 bits.
#[tactic(auto, using(crate::proofs::BlockLaws::block_none))]
pub(crate) fn lower_piece(
    product: Product,
    bytes: &[u8],
    offset: u64,
    first: usize,
    line: usize,
    step: usize,
    count: usize,
    height: usize,
    width: usize,
    piece: &mut [f64],
)
    requires { (0 < height) × (width ≤ height) × (length piece.old ≡ height * width)
        × LinesIn (length bytes.now) (offset + 8 * first) line step height count }
    ensures { piece.new ≡ lower_piece binary64 height width (value_of_line bytes.now (offset + 8 * first) line step) count }
{
    piece.fill(0.0);
    if width == 0 || count == 0 {
        return;
    }
    let lines = Lines {
        bytes,
        base: offset as usize + 8 * first,
        line,
        step,
        lines: height,
        terms: count,
    };
    let mut x = [0.0f64; 1800];
    for top in (0..height).step_by(product.rows_together) {
        let rows = Rows {
            lines: &lines,
            top,
            bottom: top + product.rows_together.min(height - top),
        };
        add_terms(product, &rows, width, &mut x, piece);
    }
}

// Copies each entry below the diagonal to its mirror place.
#[tactic(auto, using(crate::proofs::MirrorLaws::mirrored_skip))]
pub(crate) fn mirror(width: usize, piece: &mut [f64])
    requires { (0 < width) × (width * width ≤ length piece.old) }
    ensures { piece.new ≡ mirrored_piece width piece.old }
{
    for r in 0..width {
        for c in r + 1..width {
            piece[r * width + c] = piece[c * width + r];
        }
    }
}
