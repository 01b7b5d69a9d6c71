// The worked examples of document 01 that are not marked P, PLINK's published example, bad entries for a file of mode 0, single codes,
// and one marker's block.
// Each line says where it comes from and what that asks for, then what was seen; the file `stdout` beside src/ has them all.
#![tactic(auto)]

mod show;

use bed_answer::BedAnswer;
use entries::{IidIndex, SidIndex};
use show::{Bytes, Code, Decoded, Dosages, Floats, Packed, Said};
use std::io;

fn plink_written(rt: &impl Print, val: &[i8]) -> io::Result<()> {
    let mut out = [0u8; 9];
    let w = BedAnswer::from(bed_write::write_val(val, 6, 3, false, true, -127i8, &mut out));
    println!(rt;
        "the same, written again, its bytes 6C 1B 01 DC 0F E7 0F 6B 01: saw answer {}:{}",
        w.number,
        Bytes(&out)
    )
}

fn plink_example(rt: &impl Print) -> io::Result<()> {
    let file = b"\x6C\x1B\x01\xDC\x0F\xE7\x0F\x6B\x01";
    let iids = [0i64, 1, 2, 3, 4, 5];
    let sids = [0i64, 1, 2];
    let mut val = [9i8; 18];
    let a = BedAnswer::from(bed_read::read_no_alloc(
        file, 6, 3, true, &iids, &sids, -127i8, false, &mut val,
    ));
    print!(rt;
        "PLINK 1.9 format reference, its example of 6 samples and 3 variants, dosages 2 0 NA 0 0 0 / 0 NA 1 0 0 0 / 0 1 1 NA NA 2: saw answer {}:",
        a.number
    )?;
    println!(rt;
        "{}{}{}",
        Dosages(&val[0..6]),
        Dosages(&val[6..12]),
        Dosages(&val[12..18])
    )?;
    plink_written(rt, &val)
}

// One animal at one marker of the file of mode 0 that has the calls of F.
fn one_call(rt: &impl Print, asked: &str, animal: i64, marker: i64) -> io::Result<()> {
    let file = b"\x6C\x1B\x00\x0C\x0D\x0A\x03\x08";
    let mut val = [9.0];
    let a = BedAnswer::from(bed_read::read_no_alloc(
        file,
        5,
        2,
        true,
        &[animal],
        &[marker],
        f64::NAN,
        false,
        &mut val,
    ));
    println!(rt; "{asked}: saw{}, value{}", Said(a), Floats(&val))
}

fn by_animal(rt: &impl Print) -> io::Result<()> {
    one_call(
        rt,
        "document 01, 6C 1B 00 0C 0D 0A 03 08, a file of mode 0, 5 animals, 2 markers, with the calls of F: animal 3 at marker 1 is 2",
        3,
        1,
    )?;
    one_call(
        rt,
        "document 02, in either mode a bad marker is 6, here marker 3, and the value keeps 9",
        3,
        3,
    )?;
    one_call(
        rt,
        "document 02, a bad animal is 5, here animal 5, and comes first",
        5,
        3,
    )
}

// The codes of single calls.
fn single_codes(rt: &impl Print) -> io::Result<()> {
    let file = b"\x6C\x1B\x01\xE4\x00\x2F\x02";
    let by_animal = b"\x6C\x1B\x00\x0C\x0D\x0A\x03\x08";
    let code = calls::call_code(file, 5, 2, IidIndex(1), SidIndex(0));
    let same = calls::call_code(by_animal, 5, 2, IidIndex(1), SidIndex(0));
    println!(rt;
        "the code of animal 1 at marker 0, missing, in F and in the file of mode 0: saw {code}, {same}"
    )
}

fn show_codes(rt: &impl Print, bytes: &[u8]) -> io::Result<()> {
    let one = Code(block::code_in_block(bytes, 5, IidIndex(1)));
    let four = Code(block::code_in_block(bytes, 5, IidIndex(4)));
    let five = Code(block::code_in_block(bytes, 5, IidIndex(5)));
    println!(rt;
        "its codes of animals 1, 4 and 5, missing, two copies and refusal 5: saw{one},{four},{five}"
    )
}

// One marker's block, by the functions with plain parameters.
fn block_packed(rt: &impl Print, bytes: &mut [u8]) -> io::Result<()> {
    let answer = Packed(block::encode_block(bytes, 5, &[0i8, -127, 1, 2, 2], true, -127i8));
    println!(rt;
        "document 01, i8 column 0, -127, 1, 2, 2, counted, missing -127: 27 00, packed as a block: saw answer {answer}:{}",
        Bytes(bytes)
    )
}

fn block_decoded(rt: &impl Print, bytes: &[u8]) -> io::Result<()> {
    let mut back = [9i8; 5];
    let answer = Decoded(block::decode_block(bytes, 5, true, -127i8, &mut back));
    println!(rt;
        "the same block decoded, the column: saw answer {answer}:{}",
        Dosages(&back)
    )
}

fn block_f64(rt: &impl Print, bytes: &[u8], values: &mut [f64]) -> io::Result<()> {
    let answer = Decoded(block::decode_block(bytes, 5, false, 9.0f64, values));
    println!(rt;
        "the same block, not counted, as f64 with missing 9, values 2, 9, 1, 0, 0: saw answer {answer}:{}",
        Floats(values)
    )
}

fn block_again(rt: &impl Print, bytes: &mut [u8], values: &[f64]) -> io::Result<()> {
    let answer = Packed(block::encode_block(bytes, 5, values, false, 9.0f64));
    println!(rt;
        "the same packed again, 27 00: saw answer {answer}:{}",
        Bytes(bytes)
    )
}

fn block_kept(rt: &impl Print, bytes: &mut [u8]) -> io::Result<()> {
    let answer = Packed(block::encode_block(bytes, 5, &[2i8, 0, 1, 0, 3], true, -127i8));
    println!(rt;
        "document 02, a bad value in the second group of four is 7, and the block keeps 27 00: saw answer {answer}:{}",
        Bytes(bytes)
    )
}

fn block_lengths(rt: &impl Print, bytes: &mut [u8], values: &[f64]) -> io::Result<()> {
    let short = Packed(block::encode_block(bytes, 6, values, false, 9.0f64));
    println!(rt;
        "document 01, a value buffer that is not the count is 15, 5 values for 6 animals: saw {short}"
    )?;
    let long = Packed(block::encode_block(bytes, 9, values, false, 9.0f64));
    println!(rt;
        "document 01, encode1 checks 16 first, 2 bytes and 5 values for 9 animals: saw {long}"
    )
}

fn one_block(rt: &impl Print) -> io::Result<()> {
    let mut bytes = [9u8; 2];
    block_packed(rt, &mut bytes)?;
    block_decoded(rt, &bytes)?;
    show_codes(rt, &bytes)?;
    let mut values = [7.0; 5];
    block_f64(rt, &bytes, &mut values)?;
    block_again(rt, &mut bytes, &values)?;
    block_kept(rt, &mut bytes)?;
    block_lengths(rt, &mut bytes, &values)
}

// A column and its statistics, standardised.
fn column(
    rt: &impl Print,
    asked: &str,
    val: &mut [f64],
    iids: usize,
    animal_order: bool,
) -> io::Result<()> {
    let mut stats = [9.0, 9.0, 9.0];
    let a = BedAnswer::from(standardise::impute_and_zero_mean_snps_f64(
        val,
        iids,
        1,
        animal_order,
        true,
        false,
        &mut stats,
    ));
    println!(rt;
        "{asked}: saw{}, mean, deviation and observed count{}, values{}",
        Said(a),
        Floats(&stats),
        Floats(val)
    )
}

fn columns(rt: &impl Print) -> io::Result<()> {
    column(
        rt,
        "document 01, column 0, 2, NaN: mean 1, deviation 1, values -1, 1, +0",
        &mut [0.0, 2.0, f64::NAN],
        3,
        false,
    )?;
    column(
        rt,
        "document 01, column 1, 1: deviation infinite, values +0",
        &mut [1.0, 1.0],
        2,
        false,
    )?;
    column(
        rt,
        "document 01, all-NaN column: 13, which keeps old statistics, here 9",
        &mut [f64::NAN, f64::NAN],
        2,
        true,
    )?;
    column(
        rt,
        "document 02, lent column +infinity, -infinity: 14, which keeps old statistics, here 9",
        &mut [f64::INFINITY, f64::NEG_INFINITY],
        2,
        false,
    )
}

fn examples(rt: &impl Print) -> io::Result<()> {
    plink_example(rt)?;
    by_animal(rt)?;
    single_codes(rt)?;
    one_block(rt)?;
    columns(rt)
}

// What cannot be written is left unsaid, and is no failure.
fn main(rt: HostRuntime) {
    let _ = examples(&rt);
}
