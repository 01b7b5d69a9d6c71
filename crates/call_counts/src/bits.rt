// The two bits of each code, counted in many bytes at once.
ghost use Rattle.std.specs.Prelude.{◌≡◌, ◌+◌, ◌-◌, ◌*◌, ◌^◌, ◌<◌, ◌≤◌, length};
ghost use Rattle.call_counts.specs.Private.{in_byte, placed, low_bit, high_bit, both_bits, BitsCounted, Ordered, bits_sum, TallyOf, tally_items};

// How many codes have the low bit, the high bit, and both.
#[derive(Clone, Copy)]
struct BitCounts {
    low: u64,
    high: u64,
    both: u64,
}

impl BitCounts {
    // Of these codes and of more.
    fn plus(self, more: BitCounts) -> BitCounts
        requires { (self.low + more.low < 2 ^ 64) × (self.high + more.high < 2 ^ 64) × (self.both + more.both < 2 ^ 64) }
        ensures { result ≡ bits_sum self more }
    {
        BitCounts {
            low: self.low + more.low,
            high: self.high + more.high,
            both: self.both + more.both,
        }
    }

    // The tally of n codes of which so many have each bit.
    #[tactic(auto, using(crate::proofs::BitLaws::tally_is))]
    fn tally_of(self, n: u64) -> u64
        requires { Ordered n self × (n < 65536) }
        ensures { TallyOf n self result }
    {
        let ones = self.low - self.both;
        let twos = self.high - self.both;
        let zeros = n - (self.low + twos);
        zeros * 4294967296 + ones * 281474976710656 + twos * 65536 + self.both
    }
}

// The sum of the four codes of a byte.
#[tactic(auto, using(crate::proofs::BitLaws::codes_sum))]
fn sum_of_codes(byte: u8) -> u8
    ensures { result ≡ in_byte (λ code. code) byte }
{
    let pairs = (byte & 0x33) + ((byte >> 2) & 0x33);
    (pairs & 0x0F) + (pairs >> 4)
}

// The low bits of the codes of a byte, each in its code's place.
#[tactic(auto, using(crate::proofs::BitLaws::low_placed))]
fn low_bits(x: u8) -> u8
    ensures { result ≡ placed low_bit x }
{
    x & 0x55
}

// The high bits.
#[tactic(auto, using(crate::proofs::BitLaws::high_low))]
fn high_bits(x: u8) -> u8
    ensures { result ≡ placed high_bit x }
{
    low_bits(x >> 1)
}

// 1 where both bits are 1.
#[tactic(auto, using(crate::proofs::BitLaws::both_low))]
fn both_bits(x: u8) -> u8
    ensures { result ≡ placed both_bits x }
{
    low_bits(x & (x >> 1))
}

// The bits of neighbouring rows of 16 bytes, a row being one vector; with at most three no sum passes a byte.
#[tactic(auto, using(crate::proofs::BitLaws::low_most, crate::proofs::BitLaws::high_most, crate::proofs::BitLaws::both_most, crate::proofs::BitLaws::column_none, crate::proofs::BitLaws::column_more, crate::proofs::BitLaws::column_room, crate::proofs::BitLaws::rows_none, crate::proofs::BitLaws::rows_more_law, crate::proofs::BitLaws::rows_room, crate::proofs::BitLaws::rows_all))]
fn count_rows<const ROWS: usize>(file: &[u8], at: usize) -> BitCounts
    requires { (at + 16 * ROWS ≤ length file.now) × (ROWS ≤ 3) }
    ensures { BitsCounted file.now at (64 * ROWS) result }
{
    let mut low: u8 = 0;
    let mut high: u8 = 0;
    let mut both: u8 = 0;
    for j in 0..16 {
        let mut lows: u8 = 0;
        let mut highs: u8 = 0;
        let mut boths: u8 = 0;
        for r in 0..ROWS {
            let x = file[at + 16 * r + j];
            lows = lows + low_bits(x);
            highs = highs + high_bits(x);
            boths = boths + both_bits(x);
        }
        low = low + sum_of_codes(lows);
        high = high + sum_of_codes(highs);
        both = both + sum_of_codes(boths);
    }
    BitCounts {
        low: u64::from(low),
        high: u64::from(high),
        both: u64::from(both),
    }
}

// The tally of so many rows, from the byte `start` on.
pub(crate) fn tally_rows(file: &[u8], start: usize, rows: usize) -> u64
    requires { (16 * rows ≤ length file.now - start) × (64 * rows < 65536) }
    ensures { result ≡ tally_items file.now start (64 * rows) }
{
    let mut bits = BitCounts {
        low: 0,
        high: 0,
        both: 0,
    };
    let triples = rows / 3;
    for triple in 0..triples {
        bits = bits.plus(count_rows::<3>(file, start + 48 * triple));
    }
    for row in 3 * triples..rows {
        bits = bits.plus(count_rows::<1>(file, start + 16 * row));
    }
    bits.tally_of((64 * rows) as u64)
}
