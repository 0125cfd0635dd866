// Sums and differences of the accumulator, and those that follow their own pages: ADDH, SUBH, SUBC, NEG and ABS.
#![tactic(auto)]

ghost use Rattle.std.specs.Prelude.{◌≡◌, cond, ◌<◌, ◌^◌};
ghost use Rattle.alu.specs.PageSums.{added_high, subtracted_high, subtracted_conditionally, negated, absolute, in_high_half};
ghost use Rattle.alu.specs.Sums.{added, subtracted, settled};
ghost use Rattle.sums.specs.SumLaws.{net, held_as};

use alu::Sum;

// ACC after an exact result that is over the largest number, under the smallest, or neither.
#[tactic(auto, unfolding(crate::specs::SumLaws::held_as))]
fn held_word(low: u32, over: bool, under: bool, ovm: u8) -> u32
    ensures { result ≡ held_as low over under ovm }
{
    if ovm != 1 {
        return low;
    }
    if over {
        return 0x7FFF_FFFF;
    }
    if under {
        return 0x8000_0000;
    }
    low
}

fn overflow_flag(overflows: bool, ov: u8) -> u8
    ensures { result ≡ cond overflows 1 ov }
{
    if overflows {
        return 1;
    }
    ov
}

// The exact result `m` less `less` times 2^32, brought to 32 bits. Each cell by itself: the compiler then keeps them in registers.
#[tactic(auto, using(crate::specs::SumLaws::settles))]
fn settle(m: u64, less: u64, ov: u8, ovm: u8, c: u8) -> Sum
    requires { (m < 2 ^ 34) × (less < 4) }
    ensures { result ≡ settled (net m less) ov ovm c }
{
    let base = less * 4294967296;
    let low = (m % 4294967296) as u32;
    let over = base + 2147483648 <= m;
    let under = m + 2147483648 < base;
    Sum {
        acc: held_word(low, over, under, ovm),
        ov: overflow_flag(over | under, ov),
        c,
    }
}

// A set sign bit is worth 2^32 less: ACC and `x`, less 2^32 for each, make the exact signed sum.
#[tactic(auto, using(crate::specs::SumLaws::add_settled), unfolding(alu::specs::Sums::added, alu::specs::Sums::carry))]
pub fn add(acc: u32, x: u32, ov: u8, ovm: u8) -> Sum
    ensures { result ≡ added acc x ov ovm }
{
    let m = u64::from(acc) + u64::from(x);
    let less = u64::from(acc / 2147483648 + x / 2147483648);
    settle(m, less, ov, ovm, (m / 4294967296) as u8)
}

// With 2^32 added the difference never goes below 0, and the bit above the 32 is 1 just where nothing is borrowed.
#[tactic(auto, using(crate::proofs::DifferenceLaws::subtract_settled))]
pub fn subtract(acc: u32, x: u32, ov: u8, ovm: u8) -> Sum
    ensures { result ≡ subtracted acc x ov ovm }
{
    let m = u64::from(acc) + (4294967296 - u64::from(x));
    let less = u64::from(acc / 2147483648 + (1 - x / 2147483648));
    settle(m, less, ov, ovm, (m / 4294967296) as u8)
}

// The word as ADDH, SUBH and ZALH take it.
#[tactic(auto, unfolding(alu::specs::PageSums::in_high_half))]
pub fn in_high_half(w: u16) -> u32
    ensures { result ≡ in_high_half w }
{
    u32::from(w) * 65536
}

// ADDH: its carry can only set C.
#[tactic(auto, using(crate::specs::PageSumLaws::add_high_sets, crate::specs::PageSumLaws::add_high_keeps))]
pub fn add_high(acc: u32, w: u16, ov: u8, ovm: u8, c: u8) -> Sum
    ensures { result ≡ added_high acc w ov ovm c }
{
    let s = add(acc, in_high_half(w), ov, ovm);
    if s.c == 1 {
        return s;
    }
    Sum { c, ..s }
}

// SUBH: its borrow can only reset C.
#[tactic(auto, using(crate::specs::PageSumLaws::subtract_high_resets, crate::specs::PageSumLaws::subtract_high_keeps))]
pub fn subtract_high(acc: u32, w: u16, ov: u8, ovm: u8, c: u8) -> Sum
    ensures { result ≡ subtracted_high acc w ov ovm c }
{
    let s = subtract(acc, in_high_half(w), ov, ovm);
    if s.c == 0 {
        return s;
    }
    Sum { c, ..s }
}

// SUBC. The difference is taken with OVM 0: SUBC holds nothing.
#[tactic(auto, using(crate::specs::PageSumLaws::conditionally_taken, crate::specs::PageSumLaws::conditionally_left))]
pub fn subtract_conditionally(acc: u32, x: u32, ov: u8) -> Sum
    ensures { result ≡ subtracted_conditionally acc x ov }
{
    let s = subtract(acc, x, ov, 0);
    if s.acc < 2147483648 {
        return Sum {
            acc: s.acc * 2 + 1,
            ..s
        };
    }
    Sum {
        acc: acc % 2147483648 * 2,
        ..s
    }
}

// NEG
#[tactic(auto, using(crate::specs::PageSumLaws::negated_is))]
pub fn negate(acc: u32, ov: u8, ovm: u8) -> Sum
    ensures { result ≡ negated acc ov ovm }
{
    subtract(0, acc, ov, ovm)
}

// ABS
#[tactic(auto, using(crate::specs::PageSumLaws::absolute_same, crate::specs::PageSumLaws::absolute_negated))]
pub fn absolute_value(acc: u32, ov: u8, ovm: u8) -> Sum
    ensures { result ≡ absolute acc ov ovm }
{
    if acc < 2147483648 {
        return Sum { acc, ov, c: 0 };
    }
    Sum {
        c: 0,
        ..negate(acc, ov, ovm)
    }
}
