// How many calls of each marker are 0, 1, 2 and missing.
#![tactic(auto)]

ghost use Rattle.std.specs.Prelude.{◌≡◌, true, ◌+◌, ◌*◌, ◌<◌, ◌≤◌, length};
ghost use Rattle.call_counts.specs.Counts.{CountsCalls};
ghost use Rattle.calls.specs.Lists.{is_along_block};
ghost use Rattle.call_counts.specs.Runs.{TalliesRun, EntriesCounted};
ghost use Rattle.bed_read.specs.Says.{read_says};

mod bits;
mod lists;
mod table;
mod tallies;

use bed_read::ReadError;
use calls::{Part, Parts};
use entries::{IidIndex, SidIndex};
use lists::Lists;
use table::TallyTable;

// Counts the n entries of the animal list from `from` on, at every marker named, by their tally at each.
fn count_run<F: Fn(Part) -> u64>(lists: &Lists, from: usize, n: usize, tally: F, counts: &mut [u64])
    requires { TalliesRun lists.now from n (F.pre tally) (F.post tally)
        × (from + n ≤ length lists.now.iid_index.now) × (n < 65536)
        × EntriesCounted lists.now from counts.old }
    ensures { EntriesCounted lists.now (from + n) counts.new }
{
    for m in 0..lists.sid_index.len() {
        let packed = tally(calls::entry_part::<SidIndex>(lists.shape, lists.sid_index[m]));
        tallies::add_tally(counts, 4 * m, packed);
    }
}

// Counts an animal list in order by whole bytes: as many entries together as a tally holds.
fn count_along(lists: &Lists, counts: &mut [u64])
    requires { (is_along_block lists.now.shape true lists.now.iid_index.now ≡ true)
        × EntriesCounted lists.now 0 counts.old }
    ensures { EntriesCounted lists.now (length lists.now.iid_index.now) counts.new }
{
    let table = TallyTable::new();
    let len = lists.iid_index.len();
    for from in (0..len).step_by(65532) {
        let n = (len - from).min(65532);
        count_run(
            lists,
            from,
            n,
            |part| tallies::tally_block(lists.file, part.byte + from / 4, n, &table),
            counts,
        );
    }
}

// Counts any animal list: as many entries together as are resolved, fewer where each is a block.
fn count_resolved(lists: &Lists, counts: &mut [u64])
    requires { EntriesCounted lists.now 0 counts.old }
    ensures { EntriesCounted lists.now (length lists.now.iid_index.now) counts.new }
{
    let table = TallyTable::new();
    let mut parts = Parts {
        bytes: [0; 2048],
        places: [0; 2048],
    };
    let len = lists.iid_index.len();
    let limit = calls::at_once::<IidIndex>(lists.shape);
    for from in (0..len).step_by(limit) {
        let n = (len - from).min(limit);
        parts.resolve::<IidIndex>(lists.shape, &lists.iid_index[from..from + n]);
        count_run(
            lists,
            from,
            n,
            |part| tallies::tally_parts(lists.file, part, &parts, n, &table),
            counts,
        );
    }
}

// Counts the whole animal list at every marker named.
fn count_all(lists: &Lists, counts: &mut [u64])
    requires { length counts.old ≡ 4 * length lists.now.sid_index.now }
    ensures { EntriesCounted lists.now (length lists.now.iid_index.now) counts.new }
{
    counts.fill(0);
    if calls::is_along_block::<IidIndex>(lists.shape, lists.iid_index) {
        count_along(lists, counts);
    } else {
        count_resolved(lists, counts);
    }
}

// For each marker named: how many calls are 0, 1, 2 and missing, of the animals named; the first allele is counted.
pub fn count_calls(
    file: &[u8],
    iid_count: usize,
    sid_count: usize,
    iid_index: &[i64],
    sid_index: &[i64],
    counts: &mut [u64],
) -> Result<(), ReadError>
    ensures { CountsCalls file.now iid_count sid_count iid_index.now sid_index.now
        (read_says result) counts.old counts.new }
{
    bed_read::check_read(
        file,
        iid_count,
        sid_count,
        iid_index,
        sid_index,
        4,
        counts.len(),
    )?;
    let shape = calls::shape_of(file, iid_count, sid_count);
    let lists = Lists {
        file,
        shape,
        iid_index,
        sid_index,
    };
    count_all(&lists, counts);
    Ok(())
}
