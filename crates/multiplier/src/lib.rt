// The pages of the T register, the P register and the multiplier, by value.
#![tactic(auto)]

ghost use Rattle.std.specs.Prelude.{◌≡◌};
ghost use Rattle.pages.specs.MultiplierPages.{LT, LTA, LTP, LTS, MPY, MPYA, MPYS, MPYK, SQRA, SQRS, MAC, PAC, APAC, SPAC, SPL, SPH, SPM};
ghost use Rattle.pages.specs.MultiplierRule.{multiplier_rule};

use instructions::Multiplier;
use machine::Machine;
use pages::Effect;
use passes::{add_to_acc, copy_word, keep, store_word, subtract_from_acc};

#[tactic(auto, unfolding(pages::specs::MultiplierPages::PAC))]
fn pac(m: Machine) -> Machine
    ensures { result ≡ PAC m }
{
    Machine {
        acc: products::shift_product(m.p, m.pm),
        ..m
    }
}

#[tactic(auto, unfolding(pages::specs::MultiplierPages::APAC))]
fn apac(m: Machine) -> Machine
    ensures { result ≡ APAC m }
{
    add_to_acc(m, products::shift_product(m.p, m.pm))
}

#[tactic(auto, unfolding(pages::specs::MultiplierPages::SPAC))]
fn spac(m: Machine) -> Machine
    ensures { result ≡ SPAC m }
{
    subtract_from_acc(m, products::shift_product(m.p, m.pm))
}

#[tactic(auto, unfolding(pages::specs::MultiplierPages::LT))]
fn lt(m: Machine, w: u16) -> Machine
    ensures { result ≡ LT w m }
{
    Machine { t: w, ..m }
}

// LTA, and what LTD does besides its data move: compiled into both.
#[tactic(auto, unfolding(pages::specs::MultiplierPages::LTA))]
#[inline(always)]
fn lta(m: Machine, w: u16) -> Machine
    ensures { result ≡ LTA w m }
{
    Machine { t: w, ..apac(m) }
}

#[tactic(auto, unfolding(pages::specs::MultiplierPages::LTP))]
fn ltp(m: Machine, w: u16) -> Machine
    ensures { result ≡ LTP w m }
{
    Machine { t: w, ..pac(m) }
}

#[tactic(auto, unfolding(pages::specs::MultiplierPages::LTS))]
fn lts(m: Machine, w: u16) -> Machine
    ensures { result ≡ LTS w m }
{
    Machine { t: w, ..spac(m) }
}

#[tactic(auto, unfolding(pages::specs::MultiplierPages::MPY))]
fn mpy(m: Machine, w: u16) -> Machine
    ensures { result ≡ MPY w m }
{
    Machine {
        p: products::product(m.t, w),
        ..m
    }
}

#[tactic(auto, unfolding(pages::specs::MultiplierPages::MPYA))]
fn mpya(m: Machine, w: u16) -> Machine
    ensures { result ≡ MPYA w m }
{
    Machine {
        p: products::product(m.t, w),
        ..apac(m)
    }
}

#[tactic(auto, unfolding(pages::specs::MultiplierPages::MPYS))]
fn mpys(m: Machine, w: u16) -> Machine
    ensures { result ≡ MPYS w m }
{
    Machine {
        p: products::product(m.t, w),
        ..spac(m)
    }
}

#[tactic(auto, unfolding(pages::specs::MultiplierPages::MPYK))]
fn mpyk(m: Machine, k: u16) -> Machine
    ensures { result ≡ MPYK k m }
{
    Machine {
        p: products::product(m.t, products::long_constant(k)),
        ..m
    }
}

#[tactic(auto, unfolding(pages::specs::MultiplierPages::SQRA))]
fn sqra(m: Machine, w: u16) -> Machine
    ensures { result ≡ SQRA w m }
{
    Machine {
        t: w,
        p: products::product(w, w),
        ..apac(m)
    }
}

#[tactic(auto, unfolding(pages::specs::MultiplierPages::SQRS))]
fn sqrs(m: Machine, w: u16) -> Machine
    ensures { result ≡ SQRS w m }
{
    Machine {
        t: w,
        p: products::product(w, w),
        ..spac(m)
    }
}

// MAC, and what MACD does besides its data move: compiled into both.
#[tactic(auto, unfolding(pages::specs::MultiplierPages::MAC))]
#[inline(always)]
fn mac(m: Machine, w: u16, table: u16, at: u16) -> Machine
    ensures { result ≡ MAC w table at m }
{
    Machine {
        t: w,
        p: products::product(w, table),
        pfc: registers::wrapped_sum(at, 1),
        ..apac(m)
    }
}

#[tactic(auto, unfolding(pages::specs::MultiplierPages::SPL))]
fn spl(m: Machine) -> u16
    ensures { result ≡ SPL m }
{
    products::product_low(m.p, m.pm)
}

#[tactic(auto, unfolding(pages::specs::MultiplierPages::SPH))]
fn sph(m: Machine) -> u16
    ensures { result ≡ SPH m }
{
    products::product_high(m.p, m.pm)
}

#[tactic(auto, unfolding(pages::specs::MultiplierPages::SPM))]
fn spm(m: Machine, k: u8) -> Machine
    ensures { result ≡ SPM k m }
{
    Machine { pm: k, ..m }
}

// The rule of each case, with the machine after the operand's modification, the data word that was read, and the program word of a MAC or MACD with its address.
#[tactic(auto, unfolding(pages::specs::MultiplierPages::LTA, pages::specs::MultiplierPages::LTD, pages::specs::MultiplierPages::MAC, pages::specs::MultiplierPages::MACD, pages::specs::MultiplierRule::multiplier_rule))]
pub fn rule(i: Multiplier, m: Machine, w: u16, table: u16, at: u16) -> Effect
    ensures { result ≡ multiplier_rule i m w table at }
{
    match i {
        Multiplier::Lt(_) => keep(lt(m, w)),
        Multiplier::Lta(_) => keep(lta(m, w)),
        Multiplier::Ltp(_) => keep(ltp(m, w)),
        Multiplier::Ltd(_) => copy_word(lta(m, w), w),
        Multiplier::Lts(_) => keep(lts(m, w)),
        Multiplier::Mpy(_) => keep(mpy(m, w)),
        Multiplier::Mpya(_) => keep(mpya(m, w)),
        Multiplier::Mpys(_) => keep(mpys(m, w)),
        Multiplier::Mpyk(k) => keep(mpyk(m, k)),
        Multiplier::Sqra(_) => keep(sqra(m, w)),
        Multiplier::Sqrs(_) => keep(sqrs(m, w)),
        Multiplier::Mac(_) => keep(mac(m, w, table, at)),
        Multiplier::Macd(_) => copy_word(mac(m, w, table, at), w),
        Multiplier::Pac => keep(pac(m)),
        Multiplier::Apac => keep(apac(m)),
        Multiplier::Spac => keep(spac(m)),
        Multiplier::Spl(_) => store_word(m, spl(m)),
        Multiplier::Sph(_) => store_word(m, sph(m)),
        Multiplier::Spm(k) => keep(spm(m, k)),
    }
}
