// Sums of 16-bit registers.
#![tactic(auto)]

ghost use Rattle.std.specs.Prelude.{◌≡◌};
ghost use Rattle.alu.specs.Registers.{wrapped_sum, wrapped_difference, reversed_sum, reversed_difference};

#[tactic(auto, unfolding(alu::specs::Registers::wrapped_sum))]
pub fn wrapped_sum(a: u16, b: u16) -> u16
    ensures { result ≡ wrapped_sum a b }
{
    a.wrapping_add(b)
}

#[tactic(auto, unfolding(alu::specs::Registers::wrapped_difference))]
pub fn wrapped_difference(a: u16, b: u16) -> u16
    ensures { result ≡ wrapped_difference a b }
{
    a.wrapping_sub(b)
}

// `rest` is what is still to be added, at first all of `b`. A turn adds each of its bits by itself; where both have a 1, a 1 is left to be added to the bit
// below. No index is counted. So the carry runs downward: the highest bit of the rest falls with every turn, and the sum's bits above it are final (docs/REVERSED-CARRY.md).
#[tactic(auto, using(crate::specs::CarryLaws::adding_begins, crate::specs::CarryLaws::adding_ends))]
pub fn reversed_sum(a: u16, b: u16) -> u16
    ensures { result ≡ reversed_sum a b }
{
    let mut sum = a;
    let mut rest = b;
    while 0 < rest {
        let both = sum & rest;
        sum ^= rest;
        rest = both >> 1;
    }
    sum
}

// The sum of `a` inverted and `b`, inverted: where that sum carries, the difference borrows.
#[tactic(auto, using(alu::specs::ReversedLaws::difference_inverted))]
pub fn reversed_difference(a: u16, b: u16) -> u16
    ensures { result ≡ reversed_difference a b }
{
    !reversed_sum(!a, b)
}
