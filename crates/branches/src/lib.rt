// The pages of branches, CALL and RET, by value.
#![tactic(auto)]

ghost use Rattle.std.specs.Prelude.{◌≡◌, eqb};
ghost use Rattle.machine.specs.Cells.{with_ov};
ghost use Rattle.pages.specs.BranchesPages.{branched, B, BANZ, BZ, BNZ, BGZ, BGEZ, BLZ, BLEZ, CALL, RET};
ghost use Rattle.pages.specs.BranchesRule.{branches_rule};

use addressing::register_of;
use instructions::Branches;
use machine::{Machine, pop_on, push_on};
use pages::Effect;
use passes::{jump_to, keep};

#[tactic(auto, unfolding(pages::specs::BranchesPages::branched))]
fn branch(test: bool, pma: u16, m: Machine) -> Effect
    ensures { result ≡ branched test pma m }
{
    if test { jump_to(m, pma) } else { keep(m) }
}

#[tactic(auto, unfolding(pages::specs::BranchesPages::B))]
fn b(pma: u16, m: Machine) -> Effect
    ensures { result ≡ B pma m }
{
    jump_to(m, pma)
}

#[tactic(auto, unfolding(pages::specs::BranchesPages::BANZ))]
fn banz(before: Machine, pma: u16, m: Machine) -> Effect
    ensures { result ≡ BANZ before pma m }
{
    branch(register_of(before, before.arp) != 0, pma, m)
}

#[tactic(auto, unfolding(pages::specs::BranchesPages::BZ))]
fn bz(pma: u16, m: Machine) -> Effect
    ensures { result ≡ BZ pma m }
{
    branch(m.acc == 0, pma, m)
}

#[tactic(auto, unfolding(pages::specs::BranchesPages::BNZ))]
fn bnz(pma: u16, m: Machine) -> Effect
    ensures { result ≡ BNZ pma m }
{
    branch(m.acc != 0, pma, m)
}

#[tactic(auto, using(crate::specs::Signs::is_positive), unfolding(pages::specs::BranchesPages::BGZ))]
fn bgz(pma: u16, m: Machine) -> Effect
    ensures { result ≡ BGZ pma m }
{
    branch((0 < m.acc) & (m.acc < 2147483648), pma, m)
}

#[tactic(auto, using(crate::specs::Signs::is_not_negative), unfolding(pages::specs::BranchesPages::BGEZ))]
fn bgez(pma: u16, m: Machine) -> Effect
    ensures { result ≡ BGEZ pma m }
{
    branch(m.acc < 2147483648, pma, m)
}

#[tactic(auto, using(crate::specs::Signs::is_negative), unfolding(pages::specs::BranchesPages::BLZ))]
fn blz(pma: u16, m: Machine) -> Effect
    ensures { result ≡ BLZ pma m }
{
    branch(2147483648 <= m.acc, pma, m)
}

#[tactic(auto, using(crate::specs::Signs::is_not_positive), unfolding(pages::specs::BranchesPages::BLEZ))]
fn blez(pma: u16, m: Machine) -> Effect
    ensures { result ≡ BLEZ pma m }
{
    branch((m.acc == 0) | (2147483648 <= m.acc), pma, m)
}

// BV and BNV: a branch where OV has this value, and OV is reset.
fn branch_on_overflow(ov: u8, pma: u16, m: Machine) -> Effect
    ensures { result ≡ branched (eqb m.ov ov) pma (with_ov m 0) }
{
    branch(m.ov == ov, pma, Machine { ov: 0, ..m })
}

#[tactic(auto, unfolding(pages::specs::BranchesPages::CALL))]
fn call(pma: u16, m: Machine) -> Effect
    ensures { result ≡ CALL pma m }
{
    jump_to(push_on(m, registers::wrapped_sum(m.pc, 2)), pma)
}

#[tactic(auto, unfolding(pages::specs::BranchesPages::RET))]
fn ret(m: Machine) -> Effect
    ensures { result ≡ RET m }
{
    let popped = pop_on(m);
    jump_to(popped.m, popped.word)
}

// The rule of each case, with the machine before and after the operand's modification and the second word.
#[tactic(auto, unfolding(pages::specs::BranchesRule::branches_rule, pages::specs::BranchesPages::BV, pages::specs::BranchesPages::BNV))]
pub fn rule(i: Branches, before: Machine, m: Machine, pma: u16) -> Effect
    ensures { result ≡ branches_rule i before m pma }
{
    match i {
        Branches::B(_) => b(pma, m),
        Branches::Banz(_) => banz(before, pma, m),
        Branches::Bz(_) => bz(pma, m),
        Branches::Bnz(_) => bnz(pma, m),
        Branches::Bgz(_) => bgz(pma, m),
        Branches::Bgez(_) => bgez(pma, m),
        Branches::Blz(_) => blz(pma, m),
        Branches::Blez(_) => blez(pma, m),
        Branches::Bv(_) => branch_on_overflow(1, pma, m),
        Branches::Bnv(_) => branch_on_overflow(0, pma, m),
        Branches::Call(_) => call(pma, m),
        Branches::Ret => ret(m),
    }
}
