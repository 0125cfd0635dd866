// What a call does with the cells that it was lent: they are refused, reset, or hold a machine again, with the numbers that come back.
#![tactic(auto)]

ghost use Rattle.std.specs.Prelude.{◌≡◌, Err};
ghost use Rattle.answers.specs.Numbers.{number_of};
ghost use Rattle.machine.specs.Reset.{reset_machine};
ghost use Rattle.c_cells.specs.Checks.{length_answer, cells_after};

use answers::{Answer, Refusal, number_of};
use c_cells::checking::length_answer;
use c_cells::storing::put_cells;
use machine::Machine;

// What a run of refused cells is answered by: it has done no step.
pub fn put_refusal(refusal: Refusal, steps: &mut u32) -> u32
    ensures answered { result ≡ number_of (Err refusal) }
    ensures none { steps.new ≡ 0 }
{
    *steps = 0;
    number_of(Err(refusal))
}

// The cells after reset, whatever they held.
pub fn reset_cells(cells: &mut [u32]) -> u32
    ensures { (result ≡ number_of (length_answer cells.old)) × (cells.new ≡ cells_after cells.old reset_machine) }
{
    let counted = length_answer(cells);
    put_cells(cells, Machine::reset());
    number_of(counted)
}

// The machine after a step, and the step's answer.
pub fn put_step(cells: &mut [u32], m: Machine, answer: Answer) -> u32
    ensures answered { result ≡ number_of answer }
    ensures stored { cells.new ≡ cells_after cells.old m }
{
    put_cells(cells, m);
    number_of(answer)
}

// The machine after a run, the steps done, and the last answer.
pub fn put_run(cells: &mut [u32], m: Machine, answer: Answer, done: u16, steps: &mut u32) -> u32
    ensures answered { result ≡ number_of answer }
    ensures stored { cells.new ≡ cells_after cells.old m }
    ensures counted { steps.new ≡ done }
{
    *steps = u32::from(done);
    put_step(cells, m, answer)
}
