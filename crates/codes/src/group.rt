// Four codes that share a byte.
ghost use Rattle.std.specs.Prelude.{◌≡◌};
ghost use Rattle.codes.specs.Code.{group_byte};

// "Pads are zero": the code of an item that is not there.
pub const PAD: u8 = 0;

#[derive(Clone, Copy)]
pub struct Group {
    pub c0: u8,
    pub c1: u8,
    pub c2: u8,
    pub c3: u8,
}

// The byte of four codes, the first in the low bits.
pub fn byte_of(g: Group) -> u8
    ensures { result ≡ group_byte g.c0 g.c1 g.c2 g.c3 }
{
    g.c0 % 4 + 4 * (g.c1 % 4) + 16 * (g.c2 % 4) + 64 * (g.c3 % 4)
}
