// Lines of values: where they stand, their values, and a tile of them.
ghost use Rattle.std.specs.Prelude.{◌≡◌, true, ◌+◌, ◌-◌, ◌*◌, ◌<◌, ◌≤◌, length, eqb};
ghost use Rattle.answer.specs.Lists.{tabulate};
ghost use Rattle.product.specs.Private.{TileHas, RunsNoNan};
ghost use Rattle.product.specs.Lent.{value_at, line_value};

use crate::floats;
use crate::lent::{Lines, Rows, Runs, Spaced};

impl<'a> Spaced<'a> {
    // Value i.
    pub(crate) fn value(&self, i: usize) -> f64
        requires { i < self.now.count }
        ensures { result ≡ value_at self.now i }
    {
        floats::float_at(self.bytes, self.at + 8 * (i * self.step))
    }

    // Fills dst with them, one by one.
    #[tactic(auto, using(crate::proofs::InPlaceLaws::fills))]
    fn load_each(&self, dst: &mut [f64])
        requires { length dst.old ≡ self.now.count }
        ensures { dst.new ≡ tabulate (length dst.old) (value_at self.now) }
    {
        for i in 0..dst.len() {
            dst[i] = self.value(i);
        }
    }

    // `load_each` of eight values, each by a load of its own. By `load_each` A'A of width 2, 3 and 8 took 1.02 to 1.05 of the time
    // (5,003 animals, 801 markers).
    #[tactic(auto, using(crate::proofs::InPlaceLaws::eight_filled))]
    fn load_eight(&self, dst: &mut [f64])
        requires { (length dst.old ≡ 8) × (self.now.count ≡ 8) }
        ensures { dst.new ≡ tabulate (length dst.old) (value_at self.now) }
    {
        dst[0] = self.value(0);
        dst[1] = self.value(1);
        dst[2] = self.value(2);
        dst[3] = self.value(3);
        dst[4] = self.value(4);
        dst[5] = self.value(5);
        dst[6] = self.value(6);
        dst[7] = self.value(7);
    }

    // Fills dst with them, by the way that suits them best.
    fn load(&self, dst: &mut [f64])
        requires { (0 < length dst.old) × (length dst.old ≡ self.now.count) }
        ensures { dst.new ≡ tabulate (length dst.old) (value_at self.now) }
    {
        if self.step == 1 && floats::all_finite(self.bytes, self.at, dst.len()) {
            floats::load_finite(self.bytes, self.at, dst);
        } else if dst.len() == 8 {
            self.load_eight(dst);
        } else {
            self.load_each(dst);
        }
    }
}

impl<'a> Runs<'a> {
    // Whether all values are finite.
    pub(crate) fn are_finite(self) -> bool
        ensures { result ≡ true → RunsNoNan self.entry.bytes.now self.entry.at self.entry.step self.entry.count }
    {
        for t in 0..4 {
            if !floats::all_finite(self.bytes, self.at + 8 * (t * self.step), self.count) {
                return false;
            }
        }
        true
    }
}

impl<'a> Lines<'a> {
    // Whether neighbouring lines have neighbouring values.
    pub(crate) fn are_neighbours(&self) -> bool
        ensures { result ≡ eqb self.now.line 1 }
    {
        self.line == 1
    }

    // Where value k of line r stands.
    pub(crate) fn place(&self, r: usize, k: usize) -> usize
        requires { (r < self.now.lines) × (k < self.now.terms) }
        ensures { result ≡ self.now.base + 8 * (r * self.now.line + k * self.now.step) }
    {
        self.base + 8 * (r * self.line + k * self.step)
    }

    // The values of line r.
    pub(crate) fn along(&self, r: usize) -> Spaced<'a>
        requires { r < self.now.lines }
        ensures { (result.count ≡ self.now.terms) × (result.bytes.now ≡ self.now.bytes.now) × (result.step ≡ self.now.step)
            × (result.at ≡ self.now.base + 8 * (r * self.now.line + 0 * self.now.step)) }
    {
        Spaced {
            bytes: self.bytes,
            at: self.place(r, 0),
            step: self.step,
            count: self.terms,
        }
    }

    // The same lines with values k to k + n - 1 of each.
    pub(crate) fn part(&self, k: usize, n: usize) -> Lines<'a>
        requires { (0 < self.now.lines) × (0 < n) × (k + n ≤ self.now.terms) }
        ensures { (result.bytes.now ≡ self.now.bytes.now) × (result.line ≡ self.now.line) × (result.step ≡ self.now.step)
            × (result.lines ≡ self.now.lines) × (result.terms ≡ n) × (result.base ≡ self.now.base + 8 * (0 * self.now.line + k * self.now.step)) }
    {
        Lines {
            bytes: self.bytes,
            base: self.place(0, k),
            line: self.line,
            step: self.step,
            lines: self.lines,
            terms: n,
        }
    }
}

impl<'a> Rows<'a> {
    // Value k of each of their lines.
    fn across(&self, k: usize) -> Spaced<'a>
        requires { k < self.now.lines.now.terms }
        ensures { (self.now.top + result.count ≡ self.now.bottom) × (result.bytes.now ≡ self.now.lines.now.bytes.now) × (result.step ≡ self.now.lines.now.line)
            × (result.at ≡ self.now.lines.now.base + 8 * (self.now.top * self.now.lines.now.line + k * self.now.lines.now.step)) }
    {
        Spaced {
            bytes: self.lines.bytes,
            at: self.lines.place(self.top, k),
            step: self.lines.line,
            count: self.bottom - self.top,
        }
    }

    // The four values of their lines, which are neighbours: value t of each is in run t.
    pub(crate) fn runs(&self) -> Runs<'a>
        requires { (self.now.lines.now.line ≡ 1) × (self.now.lines.now.terms ≡ 4) }
        ensures { (self.now.top + result.count ≡ self.now.bottom) × (result.bytes.now ≡ self.now.lines.now.bytes.now) × (result.step ≡ self.now.lines.now.step)
            × (result.at ≡ self.now.lines.now.base + 8 * (self.now.top * self.now.lines.now.line + 0 * self.now.lines.now.step)) }
    {
        Runs {
            bytes: self.lines.bytes,
            at: self.lines.place(self.top, 0),
            step: self.lines.step,
            count: self.bottom - self.top,
        }
    }

    // Loads a tile: value i of row j to x[i × g + j], for the first n values of each.
    pub(crate) fn load_tile(&self, n: usize, g: usize, x: &mut [f64])
        requires { (self.now.bottom - self.now.top ≤ g) × (n * g ≤ length x.old) × (n ≤ self.now.lines.now.terms) }
        ensures { TileHas x.new g (line_value self.now.lines.now) self.now.top n (self.now.bottom - self.now.top) }
    {
        let m = self.bottom - self.top;
        for i in 0..n {
            let from = i * g;
            self.across(i).load(&mut x[from..from + m]);
        }
    }
}
