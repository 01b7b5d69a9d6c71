// Values of a matrix, which stand in lent bytes: some that are a step apart, lines of them, and rows of a piece with a tile.
ghost use Rattle.std.specs.Prelude.{◌<◌, ◌≤◌, length};
ghost use Rattle.product.specs.Private.{SpacedIn, RunsIn, LinesIn, BlockReady};

// Values in lent bytes, each step values after the one before.
#[derive(Clone, Copy)]
pub(crate) struct Spaced<'a> {
    pub(crate) bytes: &'a [u8],
    pub(crate) at: usize,
    pub(crate) step: usize,
    pub(crate) count: usize,
    ghost inside: { SpacedIn (length bytes.now) at step count },
}

// Four runs of neighbouring values in lent bytes, their starts step values apart.
#[derive(Clone, Copy)]
pub(crate) struct Runs<'a> {
    pub(crate) bytes: &'a [u8],
    pub(crate) at: usize,
    pub(crate) step: usize,
    pub(crate) count: usize,
    ghost inside: { RunsIn (length bytes.now) at step count },
}

// Lines of values in lent bytes: value k of line r stands at base + 8 × (r × line + k × step).
#[derive(Clone, Copy)]
pub(crate) struct Lines<'a> {
    pub(crate) bytes: &'a [u8],
    pub(crate) base: usize,
    pub(crate) line: usize,
    pub(crate) step: usize,
    pub(crate) lines: usize,
    pub(crate) terms: usize,
    ghost inside: { LinesIn (length bytes.now) base line step lines terms },
    ghost some_terms: { 0 < terms },
}

// Rows top to bottom - 1 of a piece, and the lines that it is formed from.
#[derive(Clone, Copy)]
pub(crate) struct Rows<'a> {
    pub(crate) lines: &'a Lines<'a>,
    pub(crate) top: usize,
    pub(crate) bottom: usize,
    ghost within: { (top < bottom) × (bottom ≤ lines.now.lines) },
}

// A tile of lines: value i of line j is x[i × g + j].
#[derive(Clone, Copy)]
pub(crate) struct Tile<'a> {
    pub(crate) g: usize,
    pub(crate) x: &'a [f64],
}

// A block of rows, and a tile that has the first `loaded` values of each of their lines.
#[derive(Clone, Copy)]
pub(crate) struct Block<'a> {
    pub(crate) rows: Rows<'a>,
    pub(crate) tile: Tile<'a>,
    pub(crate) loaded: usize,
    ghost ready: { BlockReady rows.lines.now.bytes.now rows.lines.now.base rows.lines.now.line rows.lines.now.step rows.lines.now.terms rows.top rows.bottom
        loaded tile.g tile.x.now },
}
