// Reading values. In the inner loops the file, the parts and the values are passed by themselves, so that none is loaded anew after a store:
// in one struct behind a pointer, the loop of `read_line` takes 2.28 times as long for i8, and 1.04 times for f64 (in C, gcc -O3).
ghost use Rattle.std.specs.Prelude.{◌≡◌, true, not, map, ℕ, ◌+◌, ◌-◌, ◌*◌, ◌/◌, ◌%◌, ◌<◌, ◌≤◌, length};
ghost use Rattle.codes.specs.Value.{value_of};
ghost use Rattle.bed_read.specs.Reading.{Reads};
ghost use Rattle.calls.specs.Lists.{is_along_block, EntryParts, Inside};
ghost use Rattle.answer.specs.Lists.{tabulate};
ghost use Rattle.bed_read.specs.Private.{FourInside, value_in, item_value, part_value, entry_value, block_value, lines_read};
ghost use Rattle.bed_read.specs.Private.{set_two, set_pairs, Drawn, ReadTo};
ghost use Rattle.bed_read.specs.Says.{read_says};

use crate::lines::Lines;
use crate::table::{Values, fill_table};
use crate::{ReadError, checks};
use calls::{Part, Parts};
use codes::{BedVal, Coding};
use entries::{IidIndex, Item, SidIndex};
use std::marker::PhantomData;

// One line: the first items of a block, four of a byte at a time.
fn read_in_order<T: BedVal>(file: &[u8], start: usize, values: Values<T>, val: &mut [T])
    requires { length val.old ≤ 4 * (length file.now - start) }
    ensures { val.new ≡ tabulate (length val.old) (item_value values.entry.table.now T.width.zero file.now start) }
{
    let n = val.len();
    let whole = n / 4;
    for b in 0..whole {
        let byte = start + b;
        let k = 4 * b;
        let v0 = values.call_value(file, byte, 0);
        let v1 = values.call_value(file, byte, 1);
        let v2 = values.call_value(file, byte, 2);
        let v3 = values.call_value(file, byte, 3);
        val[k] = v0;
        val[k + 1] = v1;
        val[k + 2] = v2;
        val[k + 3] = v3;
    }
    for i in 4 * whole..n {
        val[i] = values.call_value(file, start + i / 4, i % 4);
    }
}

// One line, or a part of it: resolved entries.
fn read_line<T: BedVal>(file: &[u8], part: Part, parts: &Parts, values: Values<T>, val: &mut [T])
    requires { Inside file.now part.byte part.place parts.now (length val.old) }
    ensures { val.new ≡ tabulate (length val.old) (part_value values.entry.table.now T.width.zero file.now part parts.now) }
{
    for k in 0..val.len() {
        val[k] = values.call_value(
            file,
            part.byte + parts.bytes[k],
            part.place + usize::from(parts.places[k]),
        );
    }
}

// Entries k and k + 1 of one block, at neighbouring places.
#[tactic(auto, using(crate::proofs::DrawLaws::two_set, crate::proofs::PartLaws::same_place))]
fn read_pair<T: BedVal>(
    file: &[u8],
    start: usize,
    parts: &Parts,
    k: usize,
    values: Values<T>,
    at: usize,
    val: &mut [T],
)
    requires { Inside file.now start 0 parts.now (k + 2) × (at + 1 < length val.old) }
    ensures { val.new ≡ set_two val.old at
        (entry_value values.entry.table.now T.width.zero file.now start parts.now k)
        (entry_value values.entry.table.now T.width.zero file.now start parts.now (k + 1)) }
{
    let next = k + 1;
    let value = values.call_value(file, start + parts.bytes[k], usize::from(parts.places[k]));
    let next_value = values.call_value(
        file,
        start + parts.bytes[next],
        usize::from(parts.places[next]),
    );
    val[at] = value;
    val[at + 1] = next_value;
}

// The same of four blocks, whose lines are `inner` places apart.
#[tactic(auto, using(crate::proofs::DrawLaws::pairs_set))]
fn read_pairs<T: BedVal>(
    file: &[u8],
    starts: &[usize; 4],
    parts: &Parts,
    k: usize,
    values: Values<T>,
    at: usize,
    inner: usize,
    val: &mut [T],
)
    requires { FourInside file.now starts.now parts.now (k + 2) × (at + 3 * inner + k + 2 ≤ length val.old) }
    ensures { val.new ≡ set_pairs val.old at inner k
        (block_value values.entry.table.now T.width.zero file.now starts.now parts.now) }
{
    let t0 = at + k;
    let t1 = t0 + inner;
    let t2 = t1 + inner;
    let t3 = t2 + inner;
    read_pair(file, starts[0], parts, k, values, t0, val);
    read_pair(file, starts[1], parts, k, values, t1, val);
    read_pair(file, starts[2], parts, k, values, t2, val);
    read_pair(file, starts[3], parts, k, values, t3, val);
}

// The same as `read_line` of four blocks: two entries a turn, and the last two, of which one may be done. The matrix is lent whole, since the four lines
// do not stand side by side in it: from place `at` on, `inner` places apart.
// Inlined, so that the compiler sees that the parts, the table and the matrix are apart: not told so, the loop takes 1.15 times as long for i8 (in C, gcc -O3).
#[inline(always)]
fn read_four<T: BedVal>(
    file: &[u8],
    starts: &[usize; 4],
    parts: &Parts,
    values: Values<T>,
    at: usize,
    inner: usize,
    n: usize,
    val: &mut [T],
)
    requires { FourInside file.now starts.now parts.now n × (2 ≤ n) × (at + 3 * inner + n ≤ length val.old) }
    ensures { Drawn T.width.zero 4 n (λ j k. at + j * inner + k)
        (block_value values.entry.table.now T.width.zero file.now starts.now parts.now)
        val.old n val.new }
{
    for pair in 0..n / 2 {
        read_pairs(file, starts, parts, 2 * pair, values, at, inner, val);
    }
    read_pairs(file, starts, parts, n - 2, values, at, inner, val);
}

// A matrix whose lines are blocks and whose places are all items in file order.
fn read_blocks<T: BedVal, O: Item, I: Item>(lines: &Lines<O, I>, values: Values<T>, val: &mut [T])
    requires { (is_along_block lines.now.shape (not O.is_animal) lines.now.inner.now ≡ true)
        × ReadTo O.is_animal values.table.now T.width.zero
        lines.now.file.now lines.now.shape lines.now.outer.now lines.now.inner.now val.old 0 }
    ensures { ReadTo O.is_animal values.entry.table.now T.width.zero
        lines.now.file.now lines.now.shape lines.now.outer.now lines.now.inner.now val.new (length lines.now.inner.now) }
{
    let n = lines.inner.len();
    for o in 0..lines.outer.len() {
        let start = lines.outer_part(o).byte;
        let at = o * n;
        read_in_order(lines.file, start, values, &mut val[at..at + n]);
    }
}

// One tile: the places `from` to `until`, resolved, of every line.
fn read_tile<T: BedVal, O: Item, I: Item>(
    lines: &Lines<O, I>,
    from: usize,
    until: usize,
    parts: &Parts,
    values: Values<T>,
    val: &mut [T],
)
    requires { EntryParts lines.now.shape (not O.is_animal) lines.now.inner.now from until parts.now
        × (from < until) × (until ≤ length lines.now.inner.now) × (until - from ≤ 2048)
        × ReadTo O.is_animal values.table.now T.width.zero
        lines.now.file.now lines.now.shape lines.now.outer.now lines.now.inner.now val.old from }
    ensures { ReadTo O.is_animal values.entry.table.now T.width.zero
        lines.now.file.now lines.now.shape lines.now.outer.now lines.now.inner.now val.new until }
{
    let inner = lines.inner.len();
    let outer = lines.outer.len();
    let n = until - from;
    let fours = lines.lines_by_four(n) / 4;
    for four in 0..fours {
        let o = 4 * four;
        let starts = lines.four_starts(o);
        read_four(
            lines.file,
            &starts,
            parts,
            values,
            o * inner + from,
            inner,
            n,
            val,
        );
    }
    for o in 4 * fours..outer {
        let part = lines.outer_part(o);
        let at = o * inner + from;
        read_line(lines.file, part, parts, values, &mut val[at..at + n]);
    }
}

// The whole matrix: block by block in file order, else tile by tile.
#[tactic(auto, using(crate::proofs::MatrixLaws::read_all))]
fn read_matrix<T: BedVal, O: Item, I: Item>(lines: &Lines<O, I>, values: Values<T>, val: &mut [T])
    requires { length lines.now.outer.now * length lines.now.inner.now ≡ length val.old }
    ensures { val.new ≡ map (value_in values.entry.table.now T.width.zero)
        (lines_read O.is_animal lines.now.file.now lines.now.shape lines.now.outer.now lines.now.inner.now) }
{
    if calls::is_along_block::<I>(lines.shape, lines.inner) {
        read_blocks(lines, values, val);
        return;
    }
    let inner = lines.inner.len();
    let mut parts = Parts {
        bytes: [0; 2048],
        places: [0; 2048],
    };
    let most = calls::at_once::<I>(lines.shape);
    for from in (0..inner).step_by(most) {
        let until = from + most.min(inner - from);
        parts.resolve::<I>(lines.shape, &lines.inner[from..until]);
        read_tile(lines, from, until, &parts, values, val);
    }
}

// Reads the calls of a list of animals at a list of markers into a matrix in the order asked.
#[tactic(auto, using(crate::proofs::BufferLaws::table_made))]
pub fn read_no_alloc<T: BedVal>(
    file: &[u8],
    iid_count: usize,
    sid_count: usize,
    is_a1_counted: bool,
    iid_index: &[i64],
    sid_index: &[i64],
    missing_value: T,
    animal_order: bool,
    val: &mut [T],
) -> Result<(), ReadError>
    ensures { Reads T.width file.now iid_count sid_count is_a1_counted iid_index.now sid_index.now
        missing_value animal_order (read_says result) val.old val.new }
{
    checks::check_read(
        file,
        iid_count,
        sid_count,
        iid_index,
        sid_index,
        iid_index.len(),
        val.len(),
    )?;
    let shape = calls::shape_of(file, iid_count, sid_count);
    let coding = Coding {
        is_a1_counted,
        missing: missing_value,
    };
    let mut table = [T::zero(); 1024];
    fill_table(coding, &mut table);
    let values = Values { table: &table };
    if animal_order {
        let lines: Lines<IidIndex, SidIndex> = Lines {
            file,
            shape,
            outer: iid_index,
            inner: sid_index,
            items: PhantomData,
        };
        read_matrix(&lines, values, val);
    } else {
        let lines: Lines<SidIndex, IidIndex> = Lines {
            file,
            shape,
            outer: sid_index,
            inner: iid_index,
            items: PhantomData,
        };
        read_matrix(&lines, values, val);
    }
    Ok(())
}
