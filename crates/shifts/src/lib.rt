// The operand of ADD, SUB and LAC, what SACL and SACH store, SFL and SFR.
#![tactic(auto)]

ghost use Rattle.std.specs.Prelude.{◌≡◌, ◌*◌, ◌%◌, ◌^◌};
ghost use Rattle.alu.specs.Shifts.{operand, unsigned_operand, stored_low, stored_high, left_by_one, right_by_one};

use alu::Shifted;
use words::bits;

// The low 32 bits of `x` shifted left, by any number of places.
#[tactic(auto, using(crate::specs::ShiftLaws::all_lost))]
fn shift_left(x: u32, s: u8) -> u32
    ensures { result ≡ x * 2 ^ s % 2 ^ 32 }
{
    if 32 <= s {
        return 0;
    }
    ((u64::from(x) << s) % 4294967296) as u32
}

#[tactic(auto, using(crate::specs::ShiftLaws::operand_signed, crate::specs::ShiftLaws::operand_plain))]
pub fn operand_of(w: u16, s: u8, sxm: u8) -> u32
    ensures { result ≡ operand w s sxm }
{
    if sxm == 1 {
        return shift_left(bits::sign_extended(w), s);
    }
    shift_left(u32::from(w), s)
}

// The operand of ADDS, SUBS and ZALS.
#[tactic(auto, unfolding(alu::specs::Shifts::unsigned_operand, alu::specs::Word::low))]
pub fn unsigned_operand(w: u16) -> u32
    ensures { result ≡ unsigned_operand w }
{
    u32::from(w)
}

// What SACL stores.
#[tactic(auto, using(crate::specs::ShiftLaws::low_of_shifted))]
pub fn stored_low(acc: u32, s: u8) -> u16
    ensures { result ≡ stored_low acc s }
{
    bits::low_half(shift_left(acc, s))
}

// What SACH stores.
#[tactic(auto, unfolding(alu::specs::Shifts::stored_high))]
pub fn stored_high(acc: u32, s: u8) -> u16
    ensures { result ≡ stored_high acc s }
{
    bits::high_half(shift_left(acc, s))
}

// SFL. Doubling without the top bit is doubling modulo 2^32.
#[tactic(auto, using(crate::specs::ShiftLaws::left_is))]
pub fn left_by_one(acc: u32) -> Shifted
    ensures { result ≡ left_by_one acc }
{
    Shifted {
        acc: acc % 2147483648 * 2,
        c: (acc / 2147483648) as u8,
    }
}

// SFR. Half the word, with the top bit put in again where it is set, is the signed half.
#[tactic(auto, using(crate::specs::ShiftLaws::right_signed, crate::specs::ShiftLaws::right_plain))]
pub fn right_by_one(acc: u32, sxm: u8) -> Shifted
    ensures { result ≡ right_by_one acc sxm }
{
    let c = (acc % 2) as u8;
    if sxm == 1 {
        return Shifted {
            acc: acc / 2 + acc / 2147483648 * 2147483648,
            c,
        };
    }
    Shifted { acc: acc / 2, c }
}
