// What every call speaks in.
#![tactic(auto)]

ghost use Rattle.std.specs.Prelude.{◌≡◌};
ghost use Rattle.answer.specs.Answer.{counts_fit};

// "a count, a piece's height, width or start, or a range bound exceeds 2^63 − 1": the greatest that does not.
pub const COUNT_LIMIT: usize = 9223372036854775807;

// Whether neither of two counts meets 18.
pub fn counts_fit(a: usize, b: usize) -> bool
    ensures { result ≡ counts_fit a b }
{
    a <= COUNT_LIMIT && b <= COUNT_LIMIT
}
