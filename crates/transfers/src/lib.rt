// The pages of DMOV, IN and OUT, by value.
#![tactic(auto)]

ghost use Rattle.std.specs.Prelude.{◌≡◌};
ghost use Rattle.pages.specs.TransfersPages.{DMOV, IN, OUT};
ghost use Rattle.pages.specs.TransfersRule.{transfers_rule};

use instructions::Transfers;
use machine::Machine;
use pages::Effect;
use passes::{copy_word, send_word, store_word};

#[tactic(auto, unfolding(pages::specs::TransfersPages::DMOV))]
fn dmov(w: u16, m: Machine) -> Effect
    ensures { result ≡ DMOV w m }
{
    copy_word(m, w)
}

#[tactic(auto, unfolding(pages::specs::TransfersPages::IN))]
fn input(next: u16, m: Machine) -> Effect
    ensures { result ≡ IN next m }
{
    let n = Machine {
        input_cursor: registers::wrapped_sum(m.input_cursor, 1),
        ..m
    };
    store_word(n, next)
}

#[tactic(auto, unfolding(pages::specs::TransfersPages::OUT))]
fn output(w: u16, m: Machine) -> Effect
    ensures { result ≡ OUT w m }
{
    let n = Machine {
        output_cursor: registers::wrapped_sum(m.output_cursor, 1),
        ..m
    };
    send_word(n, w)
}

// The rule of each case, with the machine after the operand's modification, the data word that was read, and the next word of the input.
#[tactic(auto, unfolding(pages::specs::TransfersRule::transfers_rule, pages::specs::TransfersPages::IN))]
pub fn rule(i: Transfers, m: Machine, w: u16, next: u16) -> Effect
    ensures { result ≡ transfers_rule i m w next }
{
    match i {
        Transfers::Dmov(_) => dmov(w, m),
        Transfers::In(_, _) => input(next, m),
        Transfers::Out(_, _) => output(w, m),
    }
}
