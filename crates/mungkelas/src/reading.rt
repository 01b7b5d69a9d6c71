// Reading a file, counting its calls, its canonical file, and reading and standardising in one call.
ghost use Rattle.std.specs.Prelude.{◌≡◌};
ghost use Rattle.bed_file.specs.File.{open_answer};
ghost use Rattle.bed_answer.specs.Interface.{bed_answer};
ghost use Rattle.mungkelas.specs.Header.{BedRead, BedCountCalls, BedCanonical, BedReadStandardised};

use bed_answer::BedAnswer;
use codes::BedVal;

pub fn bed_open_and_check(file: &[u8]) -> BedAnswer
    ensures { result ≡ bed_answer (open_answer file.now) }
{
    BedAnswer::from(bed_file::open_and_check(file))
}

pub fn bed_read<T: BedVal>(
    file: &[u8],
    iid_count: usize,
    sid_count: usize,
    is_a1_counted: bool,
    iid_index: &[i64],
    sid_index: &[i64],
    missing_value: T,
    animal_order: bool,
    val: &mut [T],
) -> BedAnswer
    ensures { BedRead T.width file.now iid_count sid_count is_a1_counted iid_index.now sid_index.now
        missing_value animal_order result val.old val.new }
{
    BedAnswer::from(bed_read::read_no_alloc(
        file,
        iid_count,
        sid_count,
        is_a1_counted,
        iid_index,
        sid_index,
        missing_value,
        animal_order,
        val,
    ))
}

pub fn bed_count_calls(
    file: &[u8],
    iid_count: usize,
    sid_count: usize,
    iid_index: &[i64],
    sid_index: &[i64],
    counts: &mut [u64],
) -> BedAnswer
    ensures { BedCountCalls file.now iid_count sid_count iid_index.now sid_index.now
        result counts.old counts.new }
{
    BedAnswer::from(call_counts::count_calls(
        file, iid_count, sid_count, iid_index, sid_index, counts,
    ))
}

pub fn bed_canonical(file: &[u8], iid_count: usize, sid_count: usize, out: &mut [u8]) -> BedAnswer
    ensures { BedCanonical file.now iid_count sid_count result out.old out.new }
{
    BedAnswer::from(canonical::canonical(file, iid_count, sid_count, out))
}

#[tactic(auto, using(bed_answer::proofs::AnswerLaws::as_fits, bed_answer::proofs::FitLaws::joined_fits))]
pub fn bed_read_standardised_f64(
    file: &[u8],
    iid_count: usize,
    sid_count: usize,
    is_a1_counted: bool,
    iid_index: &[i64],
    sid_index: &[i64],
    animal_order: bool,
    val: &mut [f64],
    stats: &mut [f64],
) -> BedAnswer
    ensures { BedReadStandardised file.now iid_count sid_count is_a1_counted iid_index.now sid_index.now
        animal_order result val.old val.new stats.old stats.new }
{
    BedAnswer::from(read_standardised::read_standardised_f64(
        file,
        iid_count,
        sid_count,
        is_a1_counted,
        iid_index,
        sid_index,
        animal_order,
        val,
        stats,
    ))
}
