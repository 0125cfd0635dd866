// AND, OR, XOR and CMPL.
ghost use Rattle.std.specs.Prelude.{◌≡◌};
ghost use Rattle.alu.specs.Logic.{anded, ored, xored, complemented};

use crate::bits;

#[tactic(auto, using(crate::specs::LogicLaws::and_is))]
pub fn and_low(acc: u32, w: u16) -> u32
    ensures { result ≡ anded acc w }
{
    bits::from_halves(0, bits::low_half(acc) & w)
}

#[tactic(auto, using(crate::specs::LogicLaws::or_is))]
pub fn or_low(acc: u32, w: u16) -> u32
    ensures { result ≡ ored acc w }
{
    bits::from_halves(bits::high_half(acc), bits::low_half(acc) | w)
}

#[tactic(auto, using(crate::specs::LogicLaws::xor_is))]
pub fn xor_low(acc: u32, w: u16) -> u32
    ensures { result ≡ xored acc w }
{
    bits::from_halves(bits::high_half(acc), bits::low_half(acc) ^ w)
}

// CMPL
#[tactic(auto, unfolding(alu::specs::Logic::complemented))]
pub fn complement(acc: u32) -> u32
    ensures { result ≡ complemented acc }
{
    !acc
}
