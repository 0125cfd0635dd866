// The words of an operand and of a constant, below an upper byte.
ghost use Rattle.std.specs.Prelude.{◌≡◌, ◌+◌, ◌*◌, ◌%◌};
ghost use Rattle.encodings.specs.Encode.{next_bits, indirect_bits, is_indirect, address_bits};

use operands::{Address, Indirect};

// Bits 3 to 0.
#[tactic(auto, unfolding(encodings::specs::Encode::next_bits))]
fn next_bits(n: Option<u8>) -> u8
    ensures { result ≡ next_bits n }
{
    match n {
        None => 0,
        Some(r) => 8 + r % 8,
    }
}

#[tactic(auto, unfolding(encodings::specs::Encode::indirect_bits), using(crate::specs::OperandLaws::modification_lt, crate::specs::OperandLaws::next_lt))]
fn indirect_bits(i: Indirect) -> u8
    ensures { result ≡ indirect_bits i }
{
    u8::from(i.modification) * 16 + next_bits(i.next)
}

// An upper byte and a constant.
pub fn constant(upper: u8, k: u8) -> u16
    ensures { result ≡ upper * 256 + k % 256 }
{
    u16::from(upper) * 256 + u16::from(k)
}

// An upper byte and 1DDD DDDD.
pub fn branching(upper: u8, i: Indirect) -> u16
    ensures { result ≡ (upper * 2 + 1) * 128 + indirect_bits i % 128 }
{
    constant(upper, 128 + indirect_bits(i) % 128)
}

// An upper byte and IDDD DDDD.
#[tactic(auto, unfolding(encodings::specs::Encode::is_indirect, encodings::specs::Encode::address_bits))]
pub fn addressed(upper: u8, a: Address) -> u16
    ensures { result ≡ (upper * 2 + is_indirect a % 2) * 128 + address_bits a % 128 }
{
    match a {
        Address::Direct(offset) => constant(upper, offset % 128),
        Address::Indirect(i) => branching(upper, i),
    }
}
