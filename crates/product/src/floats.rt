// Values made floats from their bytes, and looked at in them.
//
// Each function takes the bytes and a place, as `float_at` and `NoNan` of the specs do: of a slice from the place on, each contract would
// have to be carried over to the bytes by a law at each call.
ghost use Rattle.std.specs.Prelude.{◌≡◌, true, ◌+◌, ◌*◌, ◌^◌, ◌<◌, ◌≤◌, length, take, drop};
ghost use Rattle.answer.specs.Lists.{tabulate};
ghost use Rattle.product.specs.Values.{le_number, float_at};
ghost use Rattle.product.specs.Private.{NoNan};

use std::num;

// The number of eight bytes from a place on, low byte first.
#[tactic(auto, using(crate::proofs::ByteLaws::eight_bytes))]
pub(crate) fn eight_at(bytes: &[u8], at: usize) -> u64
    requires { at + 8 ≤ length bytes.now }
    ensures { (result ≡ le_number (take 8 (drop at bytes.now))) × (result < 2 ^ 64) }
{
    u64::from_le_bytes([
        bytes[at],
        bytes[at + 1],
        bytes[at + 2],
        bytes[at + 3],
        bytes[at + 4],
        bytes[at + 5],
        bytes[at + 6],
        bytes[at + 7],
    ])
}

// The f64 of eight bytes from a place on.
#[tactic(auto, using(crate::proofs::ByteLaws::float_of))]
pub(crate) fn float_at(bytes: &[u8], at: usize) -> f64
    requires { at + 8 ≤ length bytes.now }
    ensures { result ≡ float_at bytes.now at }
{
    num::f64_from_bits_with_nan(eight_at(bytes, at))
}

// Whether n neighbouring values are all finite. The others are counted, which takes no branch for each value.
pub(crate) fn all_finite(bytes: &[u8], at: usize, n: usize) -> bool
    requires { at + 8 * n ≤ length bytes.now }
    ensures { result ≡ true → NoNan bytes.now at n }
{
    let mut others = 0;
    for i in 0..n {
        others += (eight_at(bytes, at + 8 * i) % 9223372036854775808 + 4503599627370496)
            / 9223372036854775808;
    }
    others == 0
}

// Fills dst with neighbouring values, none of them a NaN.
#[tactic(auto, using(crate::proofs::InPlaceLaws::fills, crate::proofs::ByteLaws::float_of, crate::proofs::ByteLaws::number_of))]
pub(crate) fn load_finite(bytes: &[u8], at: usize, dst: &mut [f64])
    requires { (at + 8 * length dst.old ≤ length bytes.now) × NoNan bytes.now at (length dst.old) }
    ensures { dst.new ≡ tabulate (length dst.old) (λ i. float_at bytes.now (at + 8 * i)) }
{
    for i in 0..dst.len() {
        dst[i] = f64::from_bits(eight_at(bytes, at + 8 * i));
    }
}
