// Calls whose counts nothing lent backs: each returns at once. A line says where it comes from and what that asks for, then the number of the answer,
// 0 for done; the file `stdout` beside src/ has them all.
#![tactic(auto)]

use bed_answer::BedAnswer;
use bed_file::FileError;
use bed_write::HEADER;
use index::{Index, RangeAny};
use std::io;

fn bounded(rt: &impl Print, many: usize) -> io::Result<()> {
    let accepted = bed_file::accept(&HEADER, 0, many).map_or_else(FileError::number, |()| 0);
    let mut val = [9i8; 0];
    let read = BedAnswer::from(bed_read::read_no_alloc(
        &HEADER,
        0,
        many,
        true,
        &[],
        &[],
        -127i8,
        false,
        &mut val,
    ));
    println!(rt;
        "document 01, nothing in a block: length 3 for any block count, 0 animals and 2^63 - 1 markers: saw accepted {accepted}, read {}",
        read.number
    )
}

fn no_markers(rt: &impl Print, many: usize, animal_order: bool) -> io::Result<()> {
    let mut values = [9.0; 0];
    let mut stats = [9.0; 0];
    let answer = BedAnswer::from(standardise::impute_and_zero_mean_snps_f64(
        &mut values,
        many,
        0,
        animal_order,
        true,
        false,
        &mut stats,
    ));
    match answer.number {
        0 => print!(rt; " done"),
        n => print!(rt; " {n}"),
    }
}

fn written(iids: usize, sids: usize, animal_order: bool) -> u64 {
    let none = [0i8; 0];
    let mut out = [9u8; 3];
    BedAnswer::from(bed_write::write_val(
        &none,
        iids,
        sids,
        animal_order,
        true,
        -127i8,
        &mut out,
    )).number
}

fn bounded_file(rt: &impl Print, iids: usize, sids: usize) -> io::Result<()> {
    let mut out = [9u8; 3];
    let canonical = BedAnswer::from(canonical::canonical(&HEADER, iids, sids, &mut out)).number;
    let in_marker_order = written(iids, sids, false);
    let in_animal_order = written(iids, sids, true);
    println!(rt;
        ": saw canonical {canonical}, written {in_marker_order} in marker order and {in_animal_order} in animal order"
    )
}

fn bounded_piece(rt: &impl Print, many: usize) -> io::Result<()> {
    let bytes = [0u8; 0];
    let mut piece = [9.0; 0];
    let answer = BedAnswer::from(product::file_aat_piece_f64(
        &bytes, 0, many, 0, 0, many, 0, &mut piece,
    ));
    println!(rt;
        "document 01, width 0 is 20 for A'A only, an AA' piece of width 0 over 2^63 - 1 rows: saw {}",
        answer.number
    )
}

fn bounded_list(rt: &impl Print, many: usize) -> io::Result<()> {
    let mut list = [9i64; 1];
    let range = RangeAny {
        start: None,
        end: Some(many),
    };
    let answer = BedAnswer::from(Index::RangeAny(range).to_vec(5, &mut list));
    println!(rt;
        "document 01, list buffer shorter than the list is 19, a range of 2^63 - 1 entries into a buffer of 1: saw {}",
        answer.number
    )
}

fn answers(rt: &impl Print) -> io::Result<()> {
    let many = answer::COUNT_LIMIT;
    bounded(rt, many)?;
    print!(rt;
        "no markers, so none is refused, 2^63 - 1 animals: saw standardised in both orders"
    )?;
    no_markers(rt, many, false)?;
    no_markers(rt, many, true)?;
    print!(rt; "\na file of 3 bytes, 0 animals and 2^63 - 1 markers")?;
    bounded_file(rt, 0, many)?;
    print!(rt; "a file of 3 bytes, 2^63 - 1 animals and 0 markers")?;
    bounded_file(rt, many, 0)?;
    bounded_piece(rt, many)?;
    bounded_list(rt, many)
}

// What cannot be written is left unsaid, and is no failure.
fn main(rt: HostRuntime) {
    let _ = answers(&rt);
}
