// The pages of the auxiliary registers and the data page pointer, by value.
#![tactic(auto)]

ghost use Rattle.std.specs.Prelude.{◌≡◌};
ghost use Rattle.pages.specs.AuxiliaryPages.{LAR, SAR, LARK, MAR, ADRK, SBRK, LDP, LDPK};
ghost use Rattle.pages.specs.AuxiliaryRule.{auxiliary_rule};

use addressing::{register_of, with_register};
use instructions::Auxiliary;
use machine::Machine;
use pages::Effect;
use passes::{keep, store_word};

#[tactic(auto, unfolding(pages::specs::AuxiliaryPages::LAR))]
fn lar(m: Machine, r: u8, w: u16) -> Machine
    ensures { result ≡ LAR r w m }
{
    with_register(m, r, w)
}

#[tactic(auto, unfolding(pages::specs::AuxiliaryPages::SAR))]
fn sar(before: Machine, r: u8) -> u16
    ensures { result ≡ SAR r before }
{
    register_of(before, r)
}

#[tactic(auto, unfolding(pages::specs::AuxiliaryPages::LARK))]
fn lark(m: Machine, r: u8, k: u8) -> Machine
    ensures { result ≡ LARK r k m }
{
    with_register(m, r, u16::from(k))
}

#[tactic(auto, unfolding(pages::specs::AuxiliaryPages::MAR))]
fn mar(m: Machine) -> Machine
    ensures { result ≡ MAR m }
{
    m
}

#[tactic(auto, unfolding(pages::specs::AuxiliaryPages::ADRK))]
fn adrk(m: Machine, k: u8) -> Machine
    ensures { result ≡ ADRK k m }
{
    with_register(
        m,
        m.arp,
        registers::wrapped_sum(register_of(m, m.arp), u16::from(k)),
    )
}

#[tactic(auto, unfolding(pages::specs::AuxiliaryPages::SBRK))]
fn sbrk(m: Machine, k: u8) -> Machine
    ensures { result ≡ SBRK k m }
{
    with_register(
        m,
        m.arp,
        registers::wrapped_difference(register_of(m, m.arp), u16::from(k)),
    )
}

#[tactic(auto, unfolding(pages::specs::AuxiliaryPages::LDP))]
fn ldp(m: Machine, w: u16) -> Machine
    ensures { result ≡ LDP w m }
{
    Machine { dp: w % 512, ..m }
}

#[tactic(auto, unfolding(pages::specs::AuxiliaryPages::LDPK))]
fn ldpk(m: Machine, k: u16) -> Machine
    ensures { result ≡ LDPK k m }
{
    Machine { dp: k, ..m }
}

// The rule of each case, with the machine before and after the operand's modification and the data word that was read.
#[tactic(auto, unfolding(pages::specs::AuxiliaryRule::auxiliary_rule))]
pub fn rule(i: Auxiliary, before: Machine, m: Machine, w: u16) -> Effect
    ensures { result ≡ auxiliary_rule i before m w }
{
    match i {
        Auxiliary::Lar(r, _) => keep(lar(m, r, w)),
        Auxiliary::Sar(r, _) => store_word(m, sar(before, r)),
        Auxiliary::Lark(r, k) => keep(lark(m, r, k)),
        Auxiliary::Mar(_) => keep(mar(m)),
        Auxiliary::Adrk(k) => keep(adrk(m, k)),
        Auxiliary::Sbrk(k) => keep(sbrk(m, k)),
        Auxiliary::Ldp(_) => keep(ldp(m, w)),
        Auxiliary::Ldpk(k) => keep(ldpk(m, k)),
    }
}
