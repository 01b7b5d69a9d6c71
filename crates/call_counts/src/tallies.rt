// Tallies: the counts of a marker over a part of the animal list, in one number.
ghost use Rattle.std.specs.Prelude.{◌≡◌, ℕ, ◌+◌, ◌-◌, ◌*◌, ◌^◌, ◌<◌, ◌≤◌, length, get_or};
ghost use Rattle.calls.specs.Lists.{Inside};
ghost use Rattle.call_counts.specs.Private.{tally_items, tally_parts, in_tally, Added};

use crate::bits;
use crate::table::TallyTable;
use calls::{Part, Parts};

// The tally of the first n items of the block that starts at a byte: by rows of 16 bytes, then byte by byte, then the items of the last one; pads are not counted.
#[tactic(auto, using(crate::proofs::TallyLaws::tally_more, crate::proofs::TallyLaws::tally_room, crate::proofs::BlockLaws::block_more_law, crate::proofs::BlockLaws::block_room))]
pub(crate) fn tally_block(file: &[u8], start: usize, n: usize, table: &TallyTable) -> u64
    requires { (n ≤ 4 * (length file.now - start)) × (n < 65536) }
    ensures { result ≡ tally_items file.now start n }
{
    let whole = n / 4;
    let rows = whole / 16;
    let mut sum = bits::tally_rows(file, start, rows);
    for b in 16 * rows..whole {
        sum = sum + table.tally_of_byte(file[start + b]);
    }
    for i in 4 * whole..n {
        sum = sum + table.weight_at(file[start + i / 4], i % 4);
    }
    sum
}

// The tally of n resolved entries at a marker.
#[tactic(auto, using(crate::proofs::TallyLaws::tally_none, crate::proofs::TallyLaws::tally_more, crate::proofs::TallyLaws::tally_room))]
pub(crate) fn tally_parts(
    file: &[u8],
    part: Part,
    parts: &Parts,
    n: usize,
    table: &TallyTable,
) -> u64
    requires { Inside file.now part.byte part.place parts.now n }
    ensures { result ≡ tally_parts file.now part parts.now n }
{
    let mut sum: u64 = 0;
    for k in 0..n {
        let byte = file[part.byte + parts.bytes[k]];
        sum = sum + table.weight_at(byte, part.place + usize::from(parts.places[k]));
    }
    sum
}

// Adds the four counts of a tally to those from place `at` on.
#[tactic(auto, using(crate::proofs::TallyLaws::room_0, crate::proofs::TallyLaws::room_1, crate::proofs::TallyLaws::room_2, crate::proofs::TallyLaws::room_3))]
pub(crate) fn add_tally(counts: &mut [u64], at: usize, packed: u64)
    requires { (at + 4 ≤ length counts.old) × ((j : ℕ) → j < 4 → get_or counts.old (at + j) 0 + in_tally packed j < 2 ^ 64) }
    ensures { Added counts.old at packed counts.new }
{
    let at1 = at + 1;
    let at2 = at + 2;
    let at3 = at + 3;
    let c0 = counts[at] + packed % 65536;
    let c1 = counts[at1] + packed / 65536 % 65536;
    let c2 = counts[at2] + packed / 4294967296 % 65536;
    let c3 = counts[at3] + packed / 281474976710656;
    counts[at] = c0;
    counts[at1] = c1;
    counts[at2] = c2;
    counts[at3] = c3;
}
