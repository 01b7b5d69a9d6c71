// The value of a code, at each width.
ghost use Rattle.std.specs.Prelude.{◌≡◌, ℕ, ◌*◌, ◌^◌, ◌<◌};
ghost use Rattle.std.specs.Mem.{type_size};
ghost use Rattle.std.proofs.Math.Dec.{lit<, lit≤};
ghost use Rattle.std.proofs.Math.Nat.{mul-lt-mul_of_pos_right, lt_of_lt_of_le};
ghost use Rattle.codes.specs.Value.{Width, i8, float, values};

// A type of values.
pub trait BedVal: Copy {
    ghost width: { Width Self };

    fn zero() -> Self
        ensures { result ≡ width.zero };

    fn one() -> Self
        ensures { result ≡ width.one };

    fn two() -> Self
        ensures { result ≡ width.two };

    // A value takes room, so that a slice has fewer than 2^63.
    ghost takes_room: { 0 < type_size Self.row };

    // Arrays of values fit in memory.
    ghost array_fits: { (n : ℕ) → n < 2 ^ 60 → n * type_size Self.row < 2 ^ 63 };
}

impl BedVal for i8 {
    ghost width = { i8 };

    ghost takes_room = { lit< tt };

    ghost array_fits = { λ n h. lt_of_lt_of_le (mul-lt-mul_of_pos_right h (lit≤ tt)) (lit≤ tt) };

    fn zero() -> i8 {
        0
    }

    fn one() -> i8 {
        1
    }

    fn two() -> i8 {
        2
    }
}

impl BedVal for f64 {
    ghost width = { float };

    ghost takes_room = { lit< tt };

    ghost array_fits = { λ n h. mul-lt-mul_of_pos_right h (lit≤ tt) };

    fn zero() -> f64 {
        0.0
    }

    fn one() -> f64 {
        1.0
    }

    fn two() -> f64 {
        2.0
    }
}

// How values are coded: the flag, and the value that stands for missing. The calls of the original keep the two as its parameters.
#[derive(Clone, Copy)]
pub struct Coding<T: BedVal> {
    pub is_a1_counted: bool,
    pub missing: T,
}

impl<T: BedVal> Coding<T> {
    // The value of each code.
    #[tactic(auto, using(crate::proofs::ValueLaws::values_counted, crate::proofs::ValueLaws::values_other))]
    pub fn set_up_two_bits_to_value(self) -> [T; 4]
        ensures { result ≡ values T.width self.is_a1_counted self.missing }
    {
        if self.is_a1_counted {
            return [T::two(), self.missing, T::one(), T::zero()];
        }
        [T::zero(), self.missing, T::one(), T::two()]
    }
}
