// The control pages, by value.
#![tactic(auto)]

ghost use Rattle.std.specs.Prelude.{◌≡◌};
ghost use Rattle.pages.specs.ModesPages.{POP};
ghost use Rattle.pages.specs.ModesRule.{modes_rule};

use instructions::Modes;
use machine::{Machine, pop_on, push_on};
use pages::Effect;
use passes::keep;
use words::bits;

#[tactic(auto, unfolding(pages::specs::ModesPages::POP))]
fn pop(m: Machine) -> Machine
    ensures { result ≡ POP m }
{
    let popped = pop_on(m);
    Machine {
        acc: u32::from(popped.word),
        ..popped.m
    }
}

// The rule of each case, with the machine after the operand's modification and the data word that was read.
#[tactic(auto, unfolding(pages::specs::ModesRule::modes_rule, pages::specs::ModesPages::SOVM, pages::specs::ModesPages::ROVM, pages::specs::ModesPages::SSXM, pages::specs::ModesPages::RSXM, pages::specs::ModesPages::CNFD, pages::specs::ModesPages::CNFP, pages::specs::ModesPages::RPT, pages::specs::ModesPages::RPTK, pages::specs::ModesPages::PUSH))]
pub fn rule(i: Modes, m: Machine, w: u16) -> Effect
    ensures { result ≡ modes_rule i m w }
{
    keep(match i {
        Modes::Sovm => Machine { ovm: 1, ..m },
        Modes::Rovm => Machine { ovm: 0, ..m },
        Modes::Ssxm => Machine { sxm: 1, ..m },
        Modes::Rsxm => Machine { sxm: 0, ..m },
        Modes::Cnfd => Machine { cnf: 0, ..m },
        Modes::Cnfp => Machine { cnf: 1, ..m },
        Modes::Rpt(_) => Machine { rptc: w % 256, ..m },
        Modes::Rptk(k) => Machine {
            rptc: u16::from(k),
            ..m
        },
        Modes::Push => push_on(m, bits::low_half(m.acc)),
        Modes::Pop => pop(m),
    })
}
