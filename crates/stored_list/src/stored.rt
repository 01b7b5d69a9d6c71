// The values that a word of the list may stand for.
ghost use Rattle.std.specs.Prelude.{◌≡◌, ◌%◌, ◌^◌, ◌<◌, ℕ, eqb, cond, refl};
ghost use Rattle.std.specs.Float.{binary64};
ghost use Rattle.std.specs.Float.Ieee.{of_bits, to_bits};
ghost use Rattle.std.specs.Int.{w8, w64};
ghost use Rattle.std.proofs.Common.{of_z, to_z};
ghost use Rattle.stored_list.specs.WordLaws.{bool_kept, byte_kept, i8_kept, i64_kept, f64_kept};

use std::num;

// How a word of 64 bits stands for a value.
pub trait Stored: Copy {
    // What a word stands for.
    ghost value: { ℕ → Self };

    // The word of a value.
    ghost word: { Self → ℕ };

    // What of a word in the list is compared with the word of a value.
    ghost read: { ℕ → ℕ };

    fn from_word(bits: u64) -> Self
        ensures { result ≡ value bits };

    // Whether a word in the list is the word of the value.
    fn has_word(self, bits: u64) -> bool
        ensures { result ≡ eqb (word self) (read bits) };

    // The word of what a word stands for stands for the same.
    ghost kept: { (bits : ℕ) → bits < 2 ^ 64 → value (word (value bits)) ≡ value bits };
}

impl Stored for usize {
    ghost value = { λ bits. bits };

    ghost word = { λ x. x };

    ghost read = { λ bits. bits };

    ghost kept = { λ _ _. refl };

    fn from_word(bits: u64) -> usize {
        bits as usize
    }

    fn has_word(self, bits: u64) -> bool {
        self as u64 == bits
    }
}

impl Stored for bool {
    ghost value = { λ bits. eqb bits 1 };

    ghost word = { λ x. cond x 1 0 };

    ghost read = { λ bits. bits };

    ghost kept = { λ bits _. bool_kept bits };

    fn from_word(bits: u64) -> bool {
        bits == 1
    }

    fn has_word(self, bits: u64) -> bool {
        bits == u64::from(self)
    }
}

impl Stored for u8 {
    ghost value = { λ bits. bits % 256 };

    ghost word = { λ x. x };

    ghost read = { λ bits. bits };

    ghost kept = { λ bits _. byte_kept bits };

    fn from_word(bits: u64) -> u8 {
        (bits % 256) as u8
    }

    fn has_word(self, bits: u64) -> bool {
        u64::from(self) == bits
    }
}

// Two's complement of 8 bits; of a word in the list the low byte.
impl Stored for i8 {
    ghost value = { λ bits. to_z w8 (bits % 256) };

    ghost word = { of_z w8 };

    ghost read = { λ bits. bits % 256 };

    ghost kept = { λ bits _. i8_kept bits };

    fn from_word(bits: u64) -> i8 {
        ((bits % 256) as u8).cast_signed()
    }

    fn has_word(self, bits: u64) -> bool {
        u64::from(self.cast_unsigned()) == bits % 256
    }
}

// Two's complement of 64 bits.
impl Stored for i64 {
    ghost value = { to_z w64 };

    ghost word = { of_z w64 };

    ghost read = { λ bits. bits };

    ghost kept = { i64_kept };

    fn from_word(bits: u64) -> i64 {
        bits.cast_signed()
    }

    fn has_word(self, bits: u64) -> bool {
        self.cast_unsigned() == bits
    }
}

// The bits of an f64: every pattern of a NaN is read, and one is written.
impl Stored for f64 {
    ghost value = { of_bits binary64 };

    ghost word = { to_bits binary64 };

    ghost read = { λ bits. bits };

    ghost kept = { λ bits _. f64_kept bits };

    fn from_word(bits: u64) -> f64 {
        num::f64_from_bits_with_nan(bits)
    }

    fn has_word(self, bits: u64) -> bool {
        num::f64_to_bits_with_nan(self) == bits
    }
}
