// Entries of a list: what they mean for a count.
#![tactic(auto)]

ghost use Rattle.std.specs.Prelude.{◌≡◌, ℕ, Bool, true, false, List, [], ◌∷◌, ◌++◌, ℤ, nat_lt};
ghost use Rattle.entries.specs.Entry.{is_good, means, first_bad, in_order, entry_answer, span_answer};
ghost use Rattle.entries.specs.Says.{item_says, span_says};
ghost use Rattle.entries.specs.Private.{IsSpan, bytes_of};

// An animal's number and a marker's number, never one for the other.
#[derive(Clone, Copy, Debug, PartialEq, Eq)]
pub struct IidIndex(pub usize);

#[derive(Clone, Copy, Debug, PartialEq, Eq)]
pub struct SidIndex(pub usize);

// What the entries of a list name: animals, or markers.
pub trait Item: Copy {
    ghost is_animal: { Bool };

    ghost number: { Self → ℕ };

    // The number by which a bad entry of such a list is refused.
    ghost refusal: { ℕ };

    fn is_animal() -> bool
        ensures { result ≡ is_animal };

    // A member, and not `From<usize>`: its clause is in the words of this trait.
    fn from_number(n: usize) -> Self
        ensures { number result ≡ n };

    fn number(self) -> usize
        ensures { result ≡ number self };
}

impl Item for IidIndex {
    ghost is_animal = { true };

    ghost number = { λ iid. iid.0 };

    ghost refusal = { 5 };

    fn is_animal() -> bool {
        true
    }

    fn from_number(n: usize) -> IidIndex {
        IidIndex(n)
    }

    fn number(self) -> usize {
        self.0
    }
}

impl Item for SidIndex {
    ghost is_animal = { false };

    ghost number = { λ sid. sid.0 };

    ghost refusal = { 6 };

    fn is_animal() -> bool {
        false
    }

    fn from_number(n: usize) -> SidIndex {
        SidIndex(n)
    }

    fn number(self) -> usize {
        self.0
    }
}

// A bad entry of a list.
#[derive(Clone, Copy, Debug, PartialEq, Eq)]
pub struct BadEntry(pub i64);

// The item that an entry means.
#[tactic(auto, using(crate::proofs::EntryLaws::entry_good, crate::proofs::EntryLaws::entry_bad))]
pub fn item_index<I: Item>(count: usize, entry: i64) -> Result<I, BadEntry>
    ensures { item_says I.number I.refusal result ≡ entry_answer I.refusal count entry }
{
    if is_good(count, entry) {
        Ok(I::from_number(number(count, entry)))
    } else {
        Err(BadEntry(entry))
    }
}

// The place that a good entry means, and of a bad entry none below the count: from the back the machine's sum, which wraps past the count where the
// entry is bad.
fn place(count: usize, entry: i64) -> usize
    ensures { (nat_lt result count ≡ is_good count entry) × (is_good count entry ≡ true → result ≡ means count entry) }
{
    if entry < 0 {
        count.wrapping_add_signed(entry as isize)
    } else {
        entry as usize
    }
}

#[tactic(auto, using(crate::proofs::EntryLaws::tests_good))]
fn is_good(count: usize, entry: i64) -> bool
    ensures { result ≡ is_good count entry }
{
    place(count, entry) < count
}

// The number that a good entry means: its place, so that the sign is met by no branch. A bad one means 0 from the back, and itself from the front.
#[tactic(auto, using(crate::proofs::EntryLaws::number_good, crate::proofs::EntryLaws::number_none, crate::proofs::EntryLaws::number_front))]
fn number(count: usize, entry: i64) -> usize
    ensures { result ≡ means count entry }
{
    let place = place(count, entry);
    if place < count {
        return place;
    }
    if entry < 0 {
        return 0;
    }
    entry.unsigned_abs() as usize
}

// The item that a good entry means.
pub fn item_of<I: Item>(count: usize, entry: i64) -> I
    ensures { I.number result ≡ means count entry }
{
    I::from_number(number(count, entry))
}

// The first bad entry of a list.
#[tactic(auto, using(crate::proofs::EntryLaws::bad_here, crate::proofs::EntryLaws::bad_later, crate::proofs::EntryLaws::bad_none))]
pub fn first_bad(count: usize, list: &[i64]) -> Option<i64>
    ensures { result ≡ first_bad count list.now }
{
    for &entry in list {
        if !is_good(count, entry) {
            return Some(entry);
        }
    }
    None
}

// Whether the entries of a list mean 0, 1, 2 and so on. Not inlined, so that the loop has the registers for itself.
#[inline(never)]
#[tactic(auto, using(crate::proofs::EntryLaws::not_in_order, crate::proofs::EntryLaws::in_order_so_far, crate::proofs::EntryLaws::all_in_order))]
pub fn is_in_order(count: usize, list: &[i64]) -> bool
    ensures { result ≡ in_order count list.now }
{
    for (k, &entry) in list.iter().enumerate() {
        if number(count, entry) != k {
            return false;
        }
    }
    true
}

// What `byte_span` refuses: 18, or 5.
#[derive(Clone, Copy, Debug, PartialEq, Eq)]
pub enum SpanError {
    CountTooLarge,
    IidIndexTooBig(i64),
}

// The step: the span so far and the next item, which some entry means, make the span of the list with that entry. A span so far is its lowest and its
// highest item, and none of nothing.
fn widened(sofar: Option<(usize, usize)>, item: usize) -> Option<(usize, usize)>
    ensures { (count : ℕ) (before : List ℤ) (entry : ℤ) → item ≡ means count entry → IsSpan count before (bytes_of sofar)
        → IsSpan count (before ++ (entry ∷ [])) (bytes_of result) }
{
    match sofar {
        None => Some((item, item)),
        Some((lowest, highest)) => Some((lowest.min(item), highest.max(item))),
    }
}

// The byte span of a list, as its lowest byte and its length in bytes: one walk, in which each entry is tested and meets the step.
pub fn byte_span(count: usize, list: &[i64]) -> Result<(usize, usize), SpanError>
    ensures { span_says result ≡ span_answer count list.now }
{
    if count > answer::COUNT_LIMIT {
        return Err(SpanError::CountTooLarge);
    }
    let mut sofar = None;
    for &next in list {
        let item = place(count, next);
        if item >= count {
            return Err(SpanError::IidIndexTooBig(next));
        }
        sofar = widened(sofar, item);
    }
    match sofar {
        None => Ok((0, 0)),
        Some((lowest, highest)) => {
            let lowest_byte = lowest / 4;
            let highest_byte = highest / 4;
            Ok((lowest_byte, highest_byte - lowest_byte + 1))
        }
    }
}
