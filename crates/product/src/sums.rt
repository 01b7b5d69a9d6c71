// Products added to sums, upward: from a tile, or straight from the bytes.
ghost use Rattle.std.specs.Prelude.{◌≡◌, ◌+◌, ◌*◌, ◌<◌, ◌≤◌, length};
ghost use Rattle.std.specs.Float.{binary64};
ghost use Rattle.product.specs.Lent.{value_at, run_at, tile_at, line_value};
ghost use Rattle.product.specs.Private.{RunsNoNan, term_more, row_more, lines_more};

use crate::lent::{Block, Runs, Spaced, Tile};
use crate::{column, floats};

impl<'a> Tile<'a> {
    // Adds the products of y and value i of its lines, one to each sum.
    #[tactic(auto, using(crate::proofs::InPlaceLaws::fills, crate::proofs::RowLaws::term_step))]
    fn add_one(self, i: usize, y: f64, sums: &mut [f64])
        requires { i * self.g + length sums.old ≤ length self.x.now }
        ensures { sums.new ≡ term_more binary64 (λ j. tile_at self.entry j i) y sums.old }
    {
        let from = i * self.g;
        for j in 0..sums.len() {
            sums[j] = sums[j] + self.x[from + j] * y;
        }
    }

    // Adds the products of values i to i + 3 of its lines and of another line to each sum, upward.
    #[tactic(auto, using(crate::proofs::InPlaceLaws::fills, crate::proofs::RowLaws::four_step))]
    fn add_four(self, line: &Spaced, i: usize, sums: &mut [f64])
        requires { (i + 4 ≤ line.now.count) × (length sums.old ≤ self.g) × ((i + 4) * self.g ≤ length self.x.now) }
        ensures { sums.new
            ≡ row_more binary64 (λ j t. tile_at self.entry j (i + t)) (λ t. value_at line.now (i + t)) 4 sums.old }
    {
        let y0 = line.value(i);
        let y1 = line.value(i + 1);
        let y2 = line.value(i + 2);
        let y3 = line.value(i + 3);
        let Tile { x, g } = self;
        let x0 = i * g;
        let x1 = x0 + g;
        let x2 = x1 + g;
        let x3 = x2 + g;
        for j in 0..sums.len() {
            sums[j] = sums[j] + x[x0 + j] * y0 + x[x1 + j] * y1 + x[x2 + j] * y2 + x[x3 + j] * y3;
        }
    }

    // Adds the products of its lines with one line to each sum, upward.
    #[tactic(auto, using(crate::proofs::RowLaws::row_none, crate::proofs::RowLaws::row_step, crate::proofs::RowLaws::row_add))]
    fn add_many(self, line: &Spaced, sums: &mut [f64])
        requires { (length sums.old ≤ self.g) × (line.now.count * self.g ≤ length self.x.now) }
        ensures { sums.new ≡ row_more binary64 (tile_at self.entry) (value_at line.now) line.now.count sums.old }
    {
        let fours = line.count / 4;
        for q in 0..fours {
            self.add_four(line, 4 * q, sums);
        }
        for i in 4 * fours..line.count {
            self.add_one(i, line.value(i), sums);
        }
    }

    // The same for up to eight sums, which are at hand for all terms. Spare sums get spare values. Where it was put into its
    // caller the loop took a fifth more time.
    #[inline(never)]
    #[tactic(auto, using(crate::proofs::RowLaws::row_none, crate::proofs::RowLaws::row_step, crate::proofs::RowLaws::row_back))]
    fn add_eight(self, line: &Spaced, sums: &mut [f64])
        requires { (length sums.old ≤ 8) × (line.now.count * self.g + 8 ≤ length self.x.now) }
        ensures { sums.new ≡ row_more binary64 (tile_at self.entry) (value_at line.now) line.now.count sums.old }
    {
        let m = sums.len();
        let mut s = [0.0f64; 8];
        column::take_out(sums, 0, 1, &mut s[0..m]);
        for i in 0..line.count {
            self.add_one(i, line.value(i), &mut s);
        }
        column::put_back(&s[0..m], 0, 1, sums);
    }
}

impl<'a> Runs<'a> {
    // Value j of run t, of runs in which none is a NaN. That is a clause here and at `add_four`: a struct with it as a ghost field would
    // be made in `add_products` only, anew for each column, and owe the same there.
    #[tactic(auto, using(crate::proofs::ByteLaws::float_of, crate::proofs::ByteLaws::number_of))]
    fn value(self, t: usize, j: usize) -> f64
        requires { (t < 4) × (j < self.count) × RunsNoNan self.bytes.now self.at self.step self.count }
        ensures { result ≡ run_at self.entry j t }
    {
        f64::from_bits(floats::eight_at(self.bytes, self.at + 8 * (t * self.step) + 8 * j))
    }

    // Adds four products to each sum, upward: of its values, none of them a NaN, with those of a line. One function of this and the
    // tile's would take the load as a closure, with a clause that it may be called and one for what it gives.
    #[tactic(auto, using(crate::proofs::InPlaceLaws::fills, crate::proofs::RowLaws::four_step))]
    fn add_four(self, line: &Spaced, sums: &mut [f64])
        requires { (length sums.old ≡ self.count) × RunsNoNan self.bytes.now self.at self.step self.count × (line.now.count ≡ 4) }
        ensures { sums.new ≡ row_more binary64 (run_at self.entry) (value_at line.now) 4 sums.old }
    {
        let y0 = line.value(0);
        let y1 = line.value(1);
        let y2 = line.value(2);
        let y3 = line.value(3);
        for j in 0..sums.len() {
            sums[j] = sums[j]
                + self.value(0, j) * y0
                + self.value(1, j) * y1
                + self.value(2, j) * y2
                + self.value(3, j) * y3;
        }
    }
}

// Adds the products of a block's lines with line c to their sums: from the tile if it has them, else straight from the
// bytes.
#[tactic(auto, using(crate::proofs::StraightLaws::straight_runs))]
pub(crate) fn add_products(block: &Block, c: usize, sums: &mut [f64])
    requires { (c < block.now.rows.bottom) × (block.now.rows.top + length sums.old ≡ block.now.rows.bottom) }
    ensures { sums.new
        ≡ lines_more binary64 (line_value block.now.rows.lines.now)
        block.now.rows.lines.now.terms block.now.rows.top c sums.old }
{
    let lines = block.rows.lines;
    let line = lines.along(c);
    if block.loaded != lines.terms {
        block.rows.runs().add_four(&line, sums);
    } else if sums.len() <= 8 {
        block.tile.add_eight(&line, sums);
    } else {
        block.tile.add_many(&line, sums);
    }
}
