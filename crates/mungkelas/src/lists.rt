// Counts, spans and lists.
ghost use Rattle.std.specs.Prelude.{◌≡◌};
ghost use Rattle.blocks.specs.Block.{div_answer};
ghost use Rattle.entries.specs.Entry.{span_answer};
ghost use Rattle.index.specs.declared.Index.TheVariants as Index;
ghost use Rattle.index.specs.Checks.{range_answer};
ghost use Rattle.bed_answer.specs.Interface.{bed_answer};
ghost use Rattle.mungkelas.specs.Interface.{range_of, slice_of};
ghost use Rattle.mungkelas.specs.Header.{BedIndex};

use bed_answer::BedAnswer;
use index::{Index, RangeAny, SliceInfo1};

#[tactic(auto, using(bed_answer::proofs::AnswerLaws::as_fits, bed_answer::proofs::FitLaws::div_fits))]
pub fn bed_try_div_4(in_iid_count: usize, in_sid_count: usize) -> BedAnswer
    ensures { result ≡ bed_answer (div_answer in_iid_count in_sid_count) }
{
    BedAnswer::from(blocks::try_div_4(in_iid_count, in_sid_count))
}

#[tactic(auto, using(bed_answer::proofs::AnswerLaws::as_fits, bed_answer::proofs::FitLaws::span_fits))]
pub fn bed_byte_span(count: usize, index: &[i64]) -> BedAnswer
    ensures { result ≡ bed_answer (span_answer count index.now) }
{
    BedAnswer::from(entries::byte_span(count, index))
}

// A bound's number is not looked at where it is absent. The flags beside the numbers are the C interface's parameters.
fn range_of(has_start: bool, start: usize, has_end: bool, end: usize) -> RangeAny
    ensures { result ≡ range_of has_start start has_end end }
{
    RangeAny {
        start: has_start.then_some(start),
        end: has_end.then_some(end),
    }
}

fn slice_of(start: i64, has_end: bool, end: i64, step: i64) -> SliceInfo1
    ensures { result ≡ slice_of start has_end end step }
{
    SliceInfo1 {
        start,
        end: has_end.then_some(end),
        step,
    }
}

#[tactic(auto, using(bed_answer::proofs::AnswerLaws::as_fits, bed_answer::proofs::FitLaws::range_fits))]
pub fn bed_to_range(
    count: usize,
    has_start: bool,
    start: usize,
    has_end: bool,
    end: usize,
) -> BedAnswer
    ensures { result ≡ bed_answer (range_answer (range_of has_start start has_end end) count) }
{
    BedAnswer::from(range_of(has_start, start, has_end, end).to_range(count))
}

// The list that an index chooses.
#[tactic(auto, using(bed_answer::proofs::AnswerLaws::as_fits, bed_answer::proofs::FitLaws::list_fits))]
fn list_of(index: Index, count: usize, list: &mut [i64]) -> BedAnswer
    ensures { BedIndex index.entry count result list.old list.new }
{
    BedAnswer::from(index.to_vec(count, list))
}

pub fn bed_index_all(count: usize, list: &mut [i64]) -> BedAnswer
    ensures { BedIndex Index.All count result list.old list.new }
{
    list_of(Index::All, count, list)
}

pub fn bed_index_one(count: usize, one: i64, list: &mut [i64]) -> BedAnswer
    ensures { BedIndex (Index.One one) count result list.old list.new }
{
    list_of(Index::One(one), count, list)
}

pub fn bed_index_vec(count: usize, vec: &[i64], list: &mut [i64]) -> BedAnswer
    ensures { BedIndex (Index.Vec vec.entry) count result list.old list.new }
{
    list_of(Index::Vec(vec), count, list)
}

pub fn bed_index_bool(count: usize, marks: &[u8], list: &mut [i64]) -> BedAnswer
    ensures { BedIndex (Index.VecBool marks.entry) count result list.old list.new }
{
    list_of(Index::VecBool(marks), count, list)
}

pub fn bed_index_range(
    count: usize,
    has_start: bool,
    start: usize,
    has_end: bool,
    end: usize,
    list: &mut [i64],
) -> BedAnswer
    ensures { BedIndex (Index.RangeAny (range_of has_start start has_end end)) count result list.old list.new }
{
    let range = range_of(has_start, start, has_end, end);
    list_of(Index::RangeAny(range), count, list)
}

pub fn bed_index_slice(
    count: usize,
    start: i64,
    has_end: bool,
    end: i64,
    step: i64,
    list: &mut [i64],
) -> BedAnswer
    ensures { BedIndex (Index.NDSliceInfo (slice_of start has_end end step)) count result list.old list.new }
{
    let slice = slice_of(start, has_end, end, step);
    list_of(Index::NDSliceInfo(slice), count, list)
}
