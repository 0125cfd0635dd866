// The accumulator's pages, by value.
#![tactic(auto)]

ghost use Rattle.std.specs.Prelude.{◌≡◌};
ghost use Rattle.pages.specs.AccumulatorPages.{ADD, SUB, LAC, ADDH, ADDS, SUBH, SUBS, SUBC, ZALH, ZALS, AND, OR, XOR, SACL, SACH, LACK, ADDK, SUBK, CMPL, NEG, ABS, SFL, SFR, with_shifted};
ghost use Rattle.pages.specs.AccumulatorRule.{accumulator_rule};

use alu::Shifted;
use instructions::Accumulator;
use machine::Machine;
use pages::Effect;
use passes::{add_to_acc, keep, store_word, subtract_from_acc, with_sum};
use words::logic;

fn with_shifted(m: Machine, s: Shifted) -> Machine
    ensures { result ≡ with_shifted m s }
{
    Machine {
        acc: s.acc,
        c: s.c,
        ..m
    }
}

#[tactic(auto, unfolding(pages::specs::AccumulatorPages::ADD))]
fn add(m: Machine, shift: u8, w: u16) -> Machine
    ensures { result ≡ ADD shift w m }
{
    add_to_acc(m, shifts::operand_of(w, shift, m.sxm))
}

#[tactic(auto, unfolding(pages::specs::AccumulatorPages::SUB))]
fn sub(m: Machine, shift: u8, w: u16) -> Machine
    ensures { result ≡ SUB shift w m }
{
    subtract_from_acc(m, shifts::operand_of(w, shift, m.sxm))
}

#[tactic(auto, unfolding(pages::specs::AccumulatorPages::LAC))]
fn lac(m: Machine, shift: u8, w: u16) -> Machine
    ensures { result ≡ LAC shift w m }
{
    Machine {
        acc: shifts::operand_of(w, shift, m.sxm),
        ..m
    }
}

#[tactic(auto, unfolding(pages::specs::AccumulatorPages::ADDH))]
fn addh(m: Machine, w: u16) -> Machine
    ensures { result ≡ ADDH w m }
{
    with_sum(m, sums::add_high(m.acc, w, m.ov, m.ovm, m.c))
}

#[tactic(auto, unfolding(pages::specs::AccumulatorPages::ADDS))]
fn adds(m: Machine, w: u16) -> Machine
    ensures { result ≡ ADDS w m }
{
    add_to_acc(m, shifts::unsigned_operand(w))
}

#[tactic(auto, unfolding(pages::specs::AccumulatorPages::SUBH))]
fn subh(m: Machine, w: u16) -> Machine
    ensures { result ≡ SUBH w m }
{
    with_sum(m, sums::subtract_high(m.acc, w, m.ov, m.ovm, m.c))
}

#[tactic(auto, unfolding(pages::specs::AccumulatorPages::SUBS))]
fn subs(m: Machine, w: u16) -> Machine
    ensures { result ≡ SUBS w m }
{
    subtract_from_acc(m, shifts::unsigned_operand(w))
}

#[tactic(auto, unfolding(pages::specs::AccumulatorPages::SUBC))]
fn subc(m: Machine, w: u16) -> Machine
    ensures { result ≡ SUBC w m }
{
    with_sum(
        m,
        sums::subtract_conditionally(m.acc, shifts::operand_of(w, 15, m.sxm), m.ov),
    )
}

#[tactic(auto, unfolding(pages::specs::AccumulatorPages::ZALH))]
fn zalh(m: Machine, w: u16) -> Machine
    ensures { result ≡ ZALH w m }
{
    Machine {
        acc: sums::in_high_half(w),
        ..m
    }
}

#[tactic(auto, unfolding(pages::specs::AccumulatorPages::ZALS))]
fn zals(m: Machine, w: u16) -> Machine
    ensures { result ≡ ZALS w m }
{
    Machine {
        acc: shifts::unsigned_operand(w),
        ..m
    }
}

#[tactic(auto, unfolding(pages::specs::AccumulatorPages::AND))]
fn and(m: Machine, w: u16) -> Machine
    ensures { result ≡ AND w m }
{
    Machine {
        acc: logic::and_low(m.acc, w),
        ..m
    }
}

#[tactic(auto, unfolding(pages::specs::AccumulatorPages::OR))]
fn or(m: Machine, w: u16) -> Machine
    ensures { result ≡ OR w m }
{
    Machine {
        acc: logic::or_low(m.acc, w),
        ..m
    }
}

#[tactic(auto, unfolding(pages::specs::AccumulatorPages::XOR))]
fn xor(m: Machine, w: u16) -> Machine
    ensures { result ≡ XOR w m }
{
    Machine {
        acc: logic::xor_low(m.acc, w),
        ..m
    }
}

#[tactic(auto, unfolding(pages::specs::AccumulatorPages::SACL))]
fn sacl(m: Machine, shift: u8) -> u16
    ensures { result ≡ SACL shift m }
{
    shifts::stored_low(m.acc, shift)
}

#[tactic(auto, unfolding(pages::specs::AccumulatorPages::SACH))]
fn sach(m: Machine, shift: u8) -> u16
    ensures { result ≡ SACH shift m }
{
    shifts::stored_high(m.acc, shift)
}

#[tactic(auto, unfolding(pages::specs::AccumulatorPages::LACK))]
fn lack(m: Machine, k: u8) -> Machine
    ensures { result ≡ LACK k m }
{
    Machine {
        acc: u32::from(k),
        ..m
    }
}

#[tactic(auto, unfolding(pages::specs::AccumulatorPages::ADDK))]
fn addk(m: Machine, k: u8) -> Machine
    ensures { result ≡ ADDK k m }
{
    add_to_acc(m, u32::from(k))
}

#[tactic(auto, unfolding(pages::specs::AccumulatorPages::SUBK))]
fn subk(m: Machine, k: u8) -> Machine
    ensures { result ≡ SUBK k m }
{
    subtract_from_acc(m, u32::from(k))
}

#[tactic(auto, unfolding(pages::specs::AccumulatorPages::CMPL))]
fn cmpl(m: Machine) -> Machine
    ensures { result ≡ CMPL m }
{
    Machine {
        acc: logic::complement(m.acc),
        ..m
    }
}

#[tactic(auto, unfolding(pages::specs::AccumulatorPages::NEG))]
fn neg(m: Machine) -> Machine
    ensures { result ≡ NEG m }
{
    with_sum(m, sums::negate(m.acc, m.ov, m.ovm))
}

#[tactic(auto, unfolding(pages::specs::AccumulatorPages::ABS))]
fn abs(m: Machine) -> Machine
    ensures { result ≡ ABS m }
{
    with_sum(m, sums::absolute_value(m.acc, m.ov, m.ovm))
}

#[tactic(auto, unfolding(pages::specs::AccumulatorPages::SFL))]
fn sfl(m: Machine) -> Machine
    ensures { result ≡ SFL m }
{
    with_shifted(m, shifts::left_by_one(m.acc))
}

#[tactic(auto, unfolding(pages::specs::AccumulatorPages::SFR))]
fn sfr(m: Machine) -> Machine
    ensures { result ≡ SFR m }
{
    with_shifted(m, shifts::right_by_one(m.acc, m.sxm))
}

// The rule of each case, with the machine after the operand's modification and the data word that was read.
#[tactic(auto, unfolding(pages::specs::AccumulatorRule::accumulator_rule))]
pub fn rule(i: Accumulator, m: Machine, w: u16) -> Effect
    ensures { result ≡ accumulator_rule i m w }
{
    match i {
        Accumulator::Add(shift, _) => keep(add(m, shift, w)),
        Accumulator::Sub(shift, _) => keep(sub(m, shift, w)),
        Accumulator::Lac(shift, _) => keep(lac(m, shift, w)),
        Accumulator::Addh(_) => keep(addh(m, w)),
        Accumulator::Adds(_) => keep(adds(m, w)),
        Accumulator::Subh(_) => keep(subh(m, w)),
        Accumulator::Subs(_) => keep(subs(m, w)),
        Accumulator::Subc(_) => keep(subc(m, w)),
        Accumulator::Zalh(_) => keep(zalh(m, w)),
        Accumulator::Zals(_) => keep(zals(m, w)),
        Accumulator::And(_) => keep(and(m, w)),
        Accumulator::Or(_) => keep(or(m, w)),
        Accumulator::Xor(_) => keep(xor(m, w)),
        Accumulator::Sacl(shift, _) => store_word(m, sacl(m, shift)),
        Accumulator::Sach(shift, _) => store_word(m, sach(m, shift)),
        Accumulator::Lack(k) => keep(lack(m, k)),
        Accumulator::Addk(k) => keep(addk(m, k)),
        Accumulator::Subk(k) => keep(subk(m, k)),
        Accumulator::Cmpl => keep(cmpl(m)),
        Accumulator::Neg => keep(neg(m)),
        Accumulator::Abs => keep(abs(m)),
        Accumulator::Sfl => keep(sfl(m)),
        Accumulator::Sfr => keep(sfr(m)),
    }
}
