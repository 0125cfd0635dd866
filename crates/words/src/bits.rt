// The halves of a 32-bit word, and a 16-bit word extended by its sign.
ghost use Rattle.std.specs.Prelude.{◌≡◌};
ghost use Rattle.alu.specs.Word.{high_half, low_half, from_halves, signed, low};

pub fn high_half(w: u32) -> u16
    ensures { result ≡ high_half w }
{
    (w / 65536) as u16
}

pub fn low_half(w: u32) -> u16
    ensures { result ≡ low_half w }
{
    (w % 65536) as u16
}

pub fn from_halves(high: u16, low: u16) -> u32
    ensures { result ≡ from_halves high low }
{
    u32::from(high) * 65536 + u32::from(low)
}

#[tactic(auto, using(alu::specs::WordLaws::sign_extends))]
pub fn sign_extended(w: u16) -> u32
    ensures { result ≡ low 32 (signed 16 w) }
{
    u32::from(w) + u32::from(w / 32768) * 0xFFFF_0000
}
