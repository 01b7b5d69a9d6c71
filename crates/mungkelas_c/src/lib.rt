// The C interface: what include/mungkelas.h declares. Each call is the one of its name in mungkelas, under the name that C has.
// An export has no type parameter, and C passes a bound that may be absent as a flag and a number: hence a call for each type, and the flags.
#![tactic(auto)]

ghost use Rattle.std.specs.Prelude.{◌≡◌};
ghost use Rattle.bed_file.specs.File.{open_answer};
ghost use Rattle.bed_answer.specs.Interface.{bed_answer};
ghost use Rattle.mungkelas.specs.Header.{BedAatPiece, BedAtaPiece, BedCanonical, BedCountCalls, BedEncode1, BedIndex, BedRead, BedReadStandardised, BedStandardise, BedWrite};
ghost use Rattle.codes.specs.Value.{float, i8};
ghost use Rattle.blocks.specs.Block.{div_answer};
ghost use Rattle.entries.specs.Entry.{span_answer};
ghost use Rattle.index.specs.declared.Index.TheVariants as Index;
ghost use Rattle.index.specs.Checks.{range_answer};
ghost use Rattle.mungkelas.specs.Interface.{range_of, slice_of};
ghost use Rattle.std.specs.Float.{binary64};
ghost use Rattle.root.specs.Root.{root};

use bed_answer::BedAnswer;

#[unsafe(no_mangle)]
pub extern "C" fn bed_open_and_check(file: &[u8]) -> BedAnswer
    ensures { result ≡ bed_answer (open_answer file.now) }
{
    mungkelas::bed_open_and_check(file)
}

#[unsafe(no_mangle)]
pub extern "C" fn bed_count_calls(
    file: &[u8],
    iid_count: usize,
    sid_count: usize,
    iid_index: &[i64],
    sid_index: &[i64],
    counts: &mut [u64],
) -> BedAnswer
    ensures { BedCountCalls file.now iid_count sid_count iid_index.now sid_index.now
        result counts.old counts.new }
{
    mungkelas::bed_count_calls(file, iid_count, sid_count, iid_index, sid_index, counts)
}

#[unsafe(no_mangle)]
pub extern "C" fn bed_canonical(
    file: &[u8],
    iid_count: usize,
    sid_count: usize,
    out: &mut [u8],
) -> BedAnswer
    ensures { BedCanonical file.now iid_count sid_count result out.old out.new }
{
    mungkelas::bed_canonical(file, iid_count, sid_count, out)
}

#[unsafe(no_mangle)]
pub extern "C" fn bed_read_standardised_f64(
    file: &[u8],
    iid_count: usize,
    sid_count: usize,
    is_a1_counted: bool,
    iid_index: &[i64],
    sid_index: &[i64],
    animal_order: bool,
    val: &mut [f64],
    stats: &mut [f64],
) -> BedAnswer
    ensures { BedReadStandardised file.now iid_count sid_count is_a1_counted iid_index.now sid_index.now
        animal_order result val.old val.new stats.old stats.new }
{
    mungkelas::bed_read_standardised_f64(
        file,
        iid_count,
        sid_count,
        is_a1_counted,
        iid_index,
        sid_index,
        animal_order,
        val,
        stats,
    )
}

#[unsafe(no_mangle)]
pub extern "C" fn bed_read_i8(
    file: &[u8],
    iid_count: usize,
    sid_count: usize,
    is_a1_counted: bool,
    iid_index: &[i64],
    sid_index: &[i64],
    missing_value: i8,
    animal_order: bool,
    val: &mut [i8],
) -> BedAnswer
    ensures { BedRead i8 file.now iid_count sid_count is_a1_counted iid_index.now sid_index.now
        missing_value animal_order result val.old val.new }
{
    mungkelas::bed_read::<i8>(
        file,
        iid_count,
        sid_count,
        is_a1_counted,
        iid_index,
        sid_index,
        missing_value,
        animal_order,
        val,
    )
}

#[unsafe(no_mangle)]
pub extern "C" fn bed_read_f64(
    file: &[u8],
    iid_count: usize,
    sid_count: usize,
    is_a1_counted: bool,
    iid_index: &[i64],
    sid_index: &[i64],
    missing_value: f64,
    animal_order: bool,
    val: &mut [f64],
) -> BedAnswer
    ensures { BedRead float file.now iid_count sid_count is_a1_counted iid_index.now sid_index.now
        missing_value animal_order result val.old val.new }
{
    mungkelas::bed_read::<f64>(
        file,
        iid_count,
        sid_count,
        is_a1_counted,
        iid_index,
        sid_index,
        missing_value,
        animal_order,
        val,
    )
}

#[unsafe(no_mangle)]
pub extern "C" fn bed_try_div_4(in_iid_count: usize, in_sid_count: usize) -> BedAnswer
    ensures { result ≡ bed_answer (div_answer in_iid_count in_sid_count) }
{
    mungkelas::bed_try_div_4(in_iid_count, in_sid_count)
}

#[unsafe(no_mangle)]
pub extern "C" fn bed_byte_span(count: usize, index: &[i64]) -> BedAnswer
    ensures { result ≡ bed_answer (span_answer count index.now) }
{
    mungkelas::bed_byte_span(count, index)
}

#[unsafe(no_mangle)]
pub extern "C" fn bed_to_range(
    count: usize,
    has_start: bool,
    start: usize,
    has_end: bool,
    end: usize,
) -> BedAnswer
    ensures { result ≡ bed_answer (range_answer (range_of has_start start has_end end) count) }
{
    mungkelas::bed_to_range(count, has_start, start, has_end, end)
}

#[unsafe(no_mangle)]
pub extern "C" fn bed_index_all(count: usize, list: &mut [i64]) -> BedAnswer
    ensures { BedIndex Index.All count result list.old list.new }
{
    mungkelas::bed_index_all(count, list)
}

#[unsafe(no_mangle)]
pub extern "C" fn bed_index_one(count: usize, one: i64, list: &mut [i64]) -> BedAnswer
    ensures { BedIndex (Index.One one) count result list.old list.new }
{
    mungkelas::bed_index_one(count, one, list)
}

#[unsafe(no_mangle)]
pub extern "C" fn bed_index_vec(count: usize, vec: &[i64], list: &mut [i64]) -> BedAnswer
    ensures { BedIndex (Index.Vec vec.entry) count result list.old list.new }
{
    mungkelas::bed_index_vec(count, vec, list)
}

#[unsafe(no_mangle)]
pub extern "C" fn bed_index_bool(count: usize, marks: &[u8], list: &mut [i64]) -> BedAnswer
    ensures { BedIndex (Index.VecBool marks.entry) count result list.old list.new }
{
    mungkelas::bed_index_bool(count, marks, list)
}

#[unsafe(no_mangle)]
pub extern "C" fn bed_index_range(
    count: usize,
    has_start: bool,
    start: usize,
    has_end: bool,
    end: usize,
    list: &mut [i64],
) -> BedAnswer
    ensures { BedIndex (Index.RangeAny (range_of has_start start has_end end)) count result list.old list.new }
{
    mungkelas::bed_index_range(count, has_start, start, has_end, end, list)
}

#[unsafe(no_mangle)]
pub extern "C" fn bed_index_slice(
    count: usize,
    start: i64,
    has_end: bool,
    end: i64,
    step: i64,
    list: &mut [i64],
) -> BedAnswer
    ensures { BedIndex (Index.NDSliceInfo (slice_of start has_end end step)) count result list.old list.new }
{
    mungkelas::bed_index_slice(count, start, has_end, end, step, list)
}

#[unsafe(no_mangle)]
pub extern "C" fn bed_impute_and_zero_mean_snps_f64(
    val: &mut [f64],
    iid_count: usize,
    sid_count: usize,
    animal_order: bool,
    apply_in_place: bool,
    use_stats: bool,
    stats: &mut [f64],
) -> BedAnswer
    ensures { BedStandardise iid_count sid_count animal_order apply_in_place use_stats
        result val.old val.new stats.old stats.new }
{
    mungkelas::bed_impute_and_zero_mean_snps_f64(
        val,
        iid_count,
        sid_count,
        animal_order,
        apply_in_place,
        use_stats,
        stats,
    )
}

#[unsafe(no_mangle)]
pub extern "C" fn bed_root_f64(variance: f64) -> f64
    ensures { result ≡ root binary64 variance }
{
    mungkelas::bed_root_f64(variance)
}

#[unsafe(no_mangle)]
pub extern "C" fn bed_file_ata_piece(
    bytes: &[u8],
    offset: u64,
    row_count: usize,
    col_count: usize,
    col_start: usize,
    height: usize,
    width: usize,
    piece: &mut [f64],
) -> BedAnswer
    ensures { BedAtaPiece bytes.now offset row_count col_count col_start height width result piece.old piece.new }
{
    mungkelas::bed_file_ata_piece(
        bytes, offset, row_count, col_count, col_start, height, width, piece,
    )
}

#[unsafe(no_mangle)]
pub extern "C" fn bed_file_aat_piece(
    bytes: &[u8],
    offset: u64,
    row_count: usize,
    col_count: usize,
    row_start: usize,
    height: usize,
    width: usize,
    piece: &mut [f64],
) -> BedAnswer
    ensures { BedAatPiece bytes.now offset row_count col_count row_start height width result piece.old piece.new }
{
    mungkelas::bed_file_aat_piece(
        bytes, offset, row_count, col_count, row_start, height, width, piece,
    )
}

#[unsafe(no_mangle)]
pub extern "C" fn bed_encode1_i8(
    in_vector: &[i8],
    out_vector: &mut [u8],
    is_a1_counted: bool,
    missing: i8,
) -> BedAnswer
    ensures { BedEncode1 i8 in_vector.now is_a1_counted missing result out_vector.old out_vector.new }
{
    mungkelas::bed_encode1::<i8>(in_vector, out_vector, is_a1_counted, missing)
}

#[unsafe(no_mangle)]
pub extern "C" fn bed_encode1_f64(
    in_vector: &[f64],
    out_vector: &mut [u8],
    is_a1_counted: bool,
    missing: f64,
) -> BedAnswer
    ensures { BedEncode1 float in_vector.now is_a1_counted missing result out_vector.old out_vector.new }
{
    mungkelas::bed_encode1::<f64>(in_vector, out_vector, is_a1_counted, missing)
}

#[unsafe(no_mangle)]
pub extern "C" fn bed_write_i8(
    val: &[i8],
    iid_count: usize,
    sid_count: usize,
    animal_order: bool,
    is_a1_counted: bool,
    missing: i8,
    out: &mut [u8],
) -> BedAnswer
    ensures { BedWrite i8 val.now iid_count sid_count animal_order is_a1_counted missing
        result out.old out.new }
{
    mungkelas::bed_write::<i8>(
        val,
        iid_count,
        sid_count,
        animal_order,
        is_a1_counted,
        missing,
        out,
    )
}

#[unsafe(no_mangle)]
pub extern "C" fn bed_write_f64(
    val: &[f64],
    iid_count: usize,
    sid_count: usize,
    animal_order: bool,
    is_a1_counted: bool,
    missing: f64,
    out: &mut [u8],
) -> BedAnswer
    ensures { BedWrite float val.now iid_count sid_count animal_order is_a1_counted missing
        result out.old out.new }
{
    mungkelas::bed_write::<f64>(
        val,
        iid_count,
        sid_count,
        animal_order,
        is_a1_counted,
        missing,
        out,
    )
}
