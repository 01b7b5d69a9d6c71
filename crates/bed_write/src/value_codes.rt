// The code of a value.
ghost use Rattle.std.specs.Prelude.{◌≡◌, refl, cond, ◌<◌};
ghost use Rattle.codes.specs.Value.{code_of};
ghost use Rattle.codes.specs.declared.values.Coding.{Coding};
ghost use Rattle.bed_write.specs.Groups.{or_four, GoodCode, CodesGood};
ghost use Rattle.bed_write.specs.Private.{number_code};
ghost use Rattle.codes.proofs.ValueLaws.{same_int_is};

use codes::{BedVal, Coding};

mod byte_table;

use byte_table::ByteTable;

// A way to code values none of which is bad.
pub trait Coder<T: BedVal>: Drop {
    ghost coding: { Self → Coding T };

    fn code(&self, value: T) -> u8
        ensures { CodesGood T.width (coding self.now).is_a1_counted (coding self.now).missing value result };
}

// A type of values that are packed.
pub trait EncodeVal: BedVal + PartialEq {
    // Whether two values are the same number. Only a NaN is not the same as itself.
    fn same(self, other: Self) -> bool
        ensures { result ≡ Self.width.same self other }
    {
        self == other
    }

    ghost is_same: { (a b : Self) → Self.PartialEq.eq a b ≡ Self.width.same a b };
}

impl EncodeVal for i8 {
    ghost is_same = { same_int_is };
}

impl EncodeVal for f64 {
    ghost is_same = { λ _ _. refl };
}

// A type of values that are written as a file.
pub trait WriteVal: EncodeVal {
    // The coder that is fastest where values are read across a matrix.
    type Across: Coder<Self>;

    fn across(coding: Coding<Self>) -> Self::Across
        ensures { Self.Across.coding result ≡ coding };
}

impl WriteVal for i8 {
    // By the three tests, writing a matrix of i8 takes twice as long as by a table, and more.
    type Across = ByteTable;

    fn across(coding: Coding<i8>) -> ByteTable
        ensures { result.coding ≡ coding }
    {
        ByteTable::new(coding)
    }
}

impl WriteVal for f64 {
    type Across = Coding<f64>;

    fn across(coding: Coding<f64>) -> Coding<f64>
        ensures { result ≡ coding }
    {
        coding
    }
}

// By three tests: what is none of 0, 1, 2 is missing.
impl<T: EncodeVal> Coder<T> for Coding<T> {
    ghost coding = { λ coding. coding };

    fn code(&self, value: T) -> u8 {
        good_code(value, self.is_a1_counted)
    }
}

// The code of 0.
fn code_of_zero(is_a1_counted: bool) -> u8
    ensures { result ≡ cond is_a1_counted 3 0 }
{
    if is_a1_counted { 3 } else { 0 }
}

// The code of 2.
fn code_of_two(is_a1_counted: bool) -> u8
    ensures { result ≡ cond is_a1_counted 0 3 }
{
    if is_a1_counted { 0 } else { 3 }
}

// One of two codes by a test, both of them made before. So every test is made: as a chain of `else if`, of which some are jumped over, coding takes 3 to 14 times as long.
fn choose(test: bool, yes: u8, no: u8) -> u8
    ensures { result ≡ cond test yes no }
{
    if test { yes } else { no }
}

// The code of 0, 1 or 2, else another number.
fn number_code<T: EncodeVal>(value: T, is_a1_counted: bool, other: u8) -> u8
    ensures { result ≡ number_code T.width is_a1_counted value other }
{
    let two = choose(value.same(T::two()), code_of_two(is_a1_counted), other);
    let one = choose(value.same(T::one()), 2, two);
    choose(value.same(T::zero()), code_of_zero(is_a1_counted), one)
}

// The code of a value that is known not to be bad.
#[tactic(auto, using(crate::proofs::ChooseLaws::good_chosen))]
fn good_code<T: EncodeVal>(value: T, is_a1_counted: bool) -> u8
    ensures { GoodCode T.width is_a1_counted value result }
{
    number_code(value, is_a1_counted, 1)
}

// The code of a value, or 4. Every test is made, so that several values are looked at at once.
#[tactic(auto, using(crate::proofs::ChooseLaws::code_chosen))]
pub(crate) fn code_or_four<T: EncodeVal>(value: T, coding: Coding<T>) -> u8
    ensures { result ≡ or_four (code_of T.width coding.is_a1_counted coding.missing value) }
{
    let nan = choose(coding.missing.same(coding.missing), 4, 1);
    let unknown = choose(value.same(value), 4, nan);
    let absent = choose(value.same(coding.missing), 1, unknown);
    number_code(value, coding.is_a1_counted, absent)
}
