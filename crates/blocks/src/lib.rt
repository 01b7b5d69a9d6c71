// Block widths, and products tested in exact arithmetic.
#![tactic(auto)]

ghost use Rattle.std.specs.Prelude.{◌≡◌, ◌*◌, eqb, leb};
ghost use Rattle.blocks.specs.Block.{block_width, div_answer, size_answer};
ghost use Rattle.blocks.specs.Says.{div_says};

// What `try_div_4` and `try_file_length` refuse: 18, or 4.
#[derive(Clone, Copy, Debug, PartialEq, Eq)]
pub enum DivError {
    CountTooLarge,
    IndexesTooBigForFiles,
}

// The width of a block of `count` items.
#[tactic(auto, unfolding(crate::specs::Block::block_width))]
pub fn block_width(count: usize) -> usize
    ensures { result ≡ block_width count }
{
    if count == 0 {
        return 0;
    }
    (count - 1) / 4 + 1
}

// The width of a block of `in_iid_count` items, for `in_sid_count` blocks.
#[tactic(auto, using(crate::proofs::Widths::too_large, crate::proofs::Widths::no_width, crate::proofs::Widths::quotient_below, crate::proofs::Widths::quotient_enough))]
pub fn try_div_4(in_iid_count: usize, in_sid_count: usize) -> Result<usize, DivError>
    ensures { div_says result ≡ div_answer in_iid_count in_sid_count }
{
    if !answer::counts_fit(in_iid_count, in_sid_count) {
        return Err(DivError::CountTooLarge);
    }
    let width = block_width(in_iid_count);
    if width == 0 {
        return Ok(0);
    }
    if in_sid_count > 18446744073709551612 / width {
        return Err(DivError::IndexesTooBigForFiles);
    }
    Ok(width)
}

// How many bytes a file of `blocks` blocks of `items` items has.
#[tactic(auto, using(crate::proofs::Widths::length_fits, crate::proofs::Widths::length_told, crate::proofs::Widths::length_refused, answer::proofs::AnswerLaws::same_error))]
pub fn try_file_length(items: usize, blocks: usize) -> Result<usize, DivError>
    ensures { div_says result ≡ size_answer items blocks }
{
    let width = try_div_4(items, blocks)?;
    Ok(width * blocks + 3)
}

// Whether a × b is n, in exact arithmetic.
#[tactic(auto, using(crate::proofs::Products::zero_is, crate::proofs::Products::uneven_not, crate::proofs::Products::even_is))]
pub fn product_is(a: usize, b: usize, n: usize) -> bool
    ensures { result ≡ eqb (a * b) n }
{
    if a == 0 {
        return n == 0;
    }
    if n % a != 0 {
        return false;
    }
    n / a == b
}

// Whether a × b is at most n, in exact arithmetic.
#[tactic(auto, using(crate::proofs::Products::zero_most, crate::proofs::Products::quotient_most))]
pub fn product_at_most(a: usize, b: usize, n: usize) -> bool
    ensures { result ≡ leb (a * b) n }
{
    if a == 0 {
        return true;
    }
    b <= n / a
}
