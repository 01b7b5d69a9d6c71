// The root of an f64, worked out from its bits and correctly rounded.
#![tactic(auto)]

ghost use Rattle.std.specs.Prelude.{◌≡◌, ◌+◌, ◌*◌, ◌≤◌, ◌<◌};
ghost use Rattle.std.specs.Float.{binary64};
ghost use Rattle.std.specs.Float.Ieee.{hid, ones, of_bits};
ghost use Rattle.root.specs.Root.{root};
ghost use Rattle.root.specs.Private.{IsWholeRoot, IsScaled};

// The weight of an f64's leading binary digit.
const LEADING: u64 = 1 << 52;

// The bits of +infinity.
const INFINITY_BITS: u64 = 2047 * LEADING;

// A whole number's root, and what the root's square leaves of the number.
#[derive(Clone, Copy)]
struct WholeRoot {
    root: u64,
    rest: u64,
}

// digits * 2 ^ exponent.
#[derive(Clone, Copy)]
struct Scaled {
    digits: u64,
    exponent: u64,
}

impl WholeRoot {
    // One binary digit more: of a number whose next two binary digits are pair.
    fn next_digit(self, pair: u64) -> WholeRoot
        requires { (self.rest ≤ 2 * self.root) × (self.root < 134217728) × (pair < 4) }
        ensures { IsWholeRoot (4 * (self.root * self.root + self.rest) + pair) result.root result.rest }
    {
        let rest = self.rest * 4 + pair;
        let trial = self.root * 4 + 1;
        if trial <= rest {
            WholeRoot {
                root: self.root * 2 + 1,
                rest: rest - trial,
            }
        } else {
            WholeRoot {
                root: self.root * 2,
                rest,
            }
        }
    }

    // As many digits more as base has, by one division: of a number whose next two digits to that base
    // are high and low.
    #[tactic(auto, using(crate::proofs::WholeLaws::room, crate::proofs::WholeLaws::one_less, crate::proofs::WholeLaws::as_it_is))]
    fn next_digits(self, high: u64, low: u64, base: u64) -> WholeRoot
        requires { (self.rest ≤ 2 * self.root) × (self.root < 134217728) × (base ≤ 2 * self.root)
            × (base ≤ 134217728) × (high < base) × (low < base) }
        ensures { IsWholeRoot ((self.root * self.root + self.rest) * (base * base) + high * base + low)
            result.root result.rest }
    {
        let twice = self.root * 2;
        let part = self.rest * base + high;
        let quotient = part / twice;
        let square = quotient * quotient;
        let over = part % twice * base + low;
        let root = self.root * base + quotient;
        if over < square {
            let less = root - 1;
            let rest = over + less + root - square;
            WholeRoot { root: less, rest }
        } else {
            WholeRoot {
                root,
                rest: over - square,
            }
        }
    }
}

// The root of a number of 14 binary digits, digit by digit.
fn short_root(n: u64) -> WholeRoot
    requires { n < 16384 }
    ensures { IsWholeRoot n result.root result.rest }
{
    let mut found = WholeRoot { root: 0, rest: 0 };
    for left in (0..7u32).rev() {
        found = found.next_digit((n >> (left * 2)) % 4);
    }
    found
}

// The root of n * 2 ^ 54, for an n of 53 or 54 binary digits: 7, 14, 27 and then 54 digits of it, from
// n's digits above 2 ^ 40, 2 ^ 26 and 1, and zeros.
fn long_root(n: u64) -> WholeRoot
    requires { (hid binary64 ≤ n) × (n < 4 * hid binary64) }
    ensures { IsWholeRoot (n * (4 * hid binary64)) result.root result.rest }
{
    let seven = short_root(n / 1099511627776);
    let fourteen = seven.next_digits(n / 8589934592 % 128, n / 67108864 % 128, 128);
    let half = fourteen.next_digits(n / 8192 % 8192, n % 8192, 8192);
    half.next_digits(0, 0, 134217728)
}

// A positive finite value by its bits, as digits * 2 ^ exponent. A subnormal value's digits are moved
// up until there are 53.
fn digits_of(bits: u64) -> Scaled
    requires { (0 < bits) × (bits < ones binary64 * hid binary64) }
    ensures { IsScaled binary64 (of_bits binary64 bits) result.digits result.exponent }
{
    if LEADING <= bits {
        let all = bits % LEADING + LEADING;
        let field = bits / LEADING + 1021;
        return Scaled {
            digits: all,
            exponent: field,
        };
    }
    let shift = 52 - bits.ilog2();
    Scaled {
        digits: (bits << shift) % LEADING + LEADING, // the leading digit once more, so that the compiler knows it
        exponent: 1022 - u64::from(shift),
    }
}

// The bits of the root of a positive finite value.
fn root_bits(bits: u64) -> u64
    requires { (0 < bits) × (bits < ones binary64 * hid binary64) }
    ensures { (result < ones binary64 * hid binary64) × (of_bits binary64 result ≡ root binary64 (of_bits binary64 bits)) }
{
    let Scaled { digits, exponent } = digits_of(bits);
    let under = digits * (1 + exponent % 2);
    let found = long_root(under);
    let rounded = (found.root + 1) / 2;
    exponent / 2 * LEADING + rounded
}

// The root of the variance, correctly rounded: NaN for a NaN and for what is below zero, a zero for
// itself, and +infinity for itself.
pub fn root_f64(variance: f64) -> f64
    ensures { result ≡ root binary64 variance }
{
    if variance == 0.0 {
        return variance; // a zero, with its sign
    }
    if 0.0 < variance {
        let bits = f64::to_bits(variance);
        if bits < INFINITY_BITS {
            return f64::from_bits(root_bits(bits));
        }
        return variance; // +infinity
    }
    f64::NAN
}
