// What a page's rule gives, and what follows every pass. What the pages share is compiled into each of them: a call would keep the machine in memory.
#![tactic(auto)]

ghost use Rattle.std.specs.Prelude.{◌≡◌};
ghost use Rattle.alu.specs.Sums.{added, subtracted};
ghost use Rattle.pages.specs.Passes.{with_sum, kept, stored, copied, sent, jumped, followed};

use alu::Sum;
use machine::Machine;
use pages::{Effect, Store};

pub fn with_sum(m: Machine, s: Sum) -> Machine
    ensures { result ≡ with_sum m s }
{
    Machine {
        acc: s.acc,
        ov: s.ov,
        c: s.c,
        ..m
    }
}

// The sum of ACC and `x`, as OV and OVM say.
#[inline(always)]
pub fn add_to_acc(m: Machine, x: u32) -> Machine
    ensures { result ≡ with_sum m (added m.acc x m.ov m.ovm) }
{
    with_sum(m, sums::add(m.acc, x, m.ov, m.ovm))
}

// ACC less `x`, as OV and OVM say.
#[inline(always)]
pub fn subtract_from_acc(m: Machine, x: u32) -> Machine
    ensures { result ≡ with_sum m (subtracted m.acc x m.ov m.ovm) }
{
    with_sum(m, sums::subtract(m.acc, x, m.ov, m.ovm))
}

#[inline(always)]
pub fn keep(m: Machine) -> Effect
    ensures { result ≡ kept m }
{
    Effect {
        m,
        store: Store::Nothing,
        jump: None,
    }
}

// One function for each kind of store, as the definitions `stored`, `copied` and `sent` are: one over a `Store` would say no less at each call.
#[inline(always)]
pub fn store_word(m: Machine, word: u16) -> Effect
    ensures { result ≡ stored m word }
{
    Effect {
        store: Store::Word(word),
        ..keep(m)
    }
}

#[inline(always)]
pub fn copy_word(m: Machine, word: u16) -> Effect
    ensures { result ≡ copied m word }
{
    Effect {
        store: Store::Move(word),
        ..keep(m)
    }
}

#[inline(always)]
pub fn send_word(m: Machine, word: u16) -> Effect
    ensures { result ≡ sent m word }
{
    Effect {
        store: Store::Sent(word),
        ..keep(m)
    }
}

#[inline(always)]
pub fn jump_to(m: Machine, to: u16) -> Effect
    ensures { result ≡ jumped m to }
{
    Effect {
        jump: Some(to),
        ..keep(m)
    }
}

// RPTC, MID and PC after a pass of an instruction of so many words.
#[tactic(auto, using(crate::specs::PassLaws::pending), unfolding(pages::specs::Passes::followed, pages::specs::Passes::destination))]
pub fn follow(m: Machine, jump: Option<u16>, words: u16, repeatable: bool) -> Machine
    ensures { result ≡ followed m jump words repeatable }
{
    if repeatable & (0 < m.rptc) {
        return Machine {
            rptc: m.rptc - 1,
            mid: 1,
            ..m
        };
    }
    let past = registers::wrapped_sum(m.pc, words);
    Machine {
        mid: 0,
        pc: jump.unwrap_or(past),
        ..m
    }
}
