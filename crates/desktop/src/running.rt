// Reset, step and run. The slices are parameters of their own, as the C interface has them.
ghost use Rattle.std.specs.Prelude.{◌≡◌};
ghost use Rattle.machine.specs.Reset.{reset_machine};
ghost use Rattle.answers.specs.Numbers.{number_of};
ghost use Rattle.c_cells.specs.Checks.{length_answer, cells_after};
ghost use Rattle.desktop.specs.Calls.{called, step_called, run_called, outside_called, run_with_called};
ghost use Rattle.desktop.specs.CallLaws.{step_given, run_given, outside_given};
ghost use Rattle.board.specs.Given.{given};

use answers::{Refusal, number_of};
use c_cell_calls::{put_refusal, put_run, put_step, reset_cells};
use c_cells::reading::checked_machine;
use c_results::{put_results, results_fit};
use emulator::{Ran, Stepped, run, step};
use steps::Outside;

// The cells after reset, whatever they held.
pub fn crowmitten_reset(cells: &mut [u32]) -> u32
    ensures { (result ≡ number_of (length_answer cells.old)) × (cells.new ≡ cells_after cells.old reset_machine) }
{
    reset_cells(cells)
}

// A step of the machine of the cells, or what the cells or the step are refused for.
#[tactic(auto, unfolding(crate::specs::Calls::step_called, c_cells::specs::Checks::checked_machine))]
fn step_of_cells(
    cells: &[u32],
    rom: &[u16],
    data: &mut [u16],
    input: &[u16],
    output: &mut [u16],
) -> Result<Stepped, Refusal>
    ensures { step_given cells.now result «data».new output.new ≡ step_called (given rom.now input.now) cells.now «data».old output.old }
{
    step(checked_machine(cells)?, rom, data, input, output)
}

// A run of the machine of the cells, or what the cells are refused for.
#[tactic(auto, unfolding(crate::specs::Calls::run_called, crate::specs::Calls::outside_called, c_cells::specs::Checks::checked_machine))]
fn run_of_cells(
    cells: &[u32],
    rom: &[u16],
    data: &mut [u16],
    input: &[u16],
    output: &mut [u16],
    budget: u16,
) -> Result<Ran, Refusal>
    ensures outcome { run_given cells.now result «data».new output.new ≡ run_called (given rom.now input.now) budget cells.now «data».old output.old }
    ensures external { outside_given result ≡ outside_called (given rom.now input.now) budget cells.now «data».old output.old }
{
    Ok(run(checked_machine(cells)?, rom, data, input, output, budget))
}

pub fn crowmitten_step(
    cells: &mut [u32],
    rom: &[u16],
    data: &mut [u16],
    input: &[u16],
    output: &mut [u16],
) -> u32
    ensures { called result cells.new «data».new output.new ≡ step_called (given rom.now input.now) cells.old «data».old output.old }
{
    match step_of_cells(cells, rom, data, input, output) {
        Ok(stepped) => put_step(cells, stepped.m, Ok(())),
        Err(refusal) => number_of(Err(refusal)),
    }
}

pub fn crowmitten_run(
    cells: &mut [u32],
    rom: &[u16],
    data: &mut [u16],
    input: &[u16],
    output: &mut [u16],
    budget: u16,
    steps: &mut u32,
) -> u32
    ensures { record { steps = steps.new; after = called result cells.new «data».new output.new } ≡ run_called (given rom.now input.now) budget cells.old «data».old output.old }
{
    match run_of_cells(cells, rom, data, input, output, budget) {
        Ok(ran) => put_run(cells, ran.m, ran.answer, ran.steps, steps),
        Err(refusal) => put_refusal(refusal, steps),
    }
}

// A run, and all that it hands out at its places in `results`.
#[tactic(auto, unfolding(crate::specs::Calls::run_with_called, c_results::specs::Results::results_after))]
pub fn crowmitten_run_with(
    cells: &mut [u32],
    rom: &[u16],
    data: &mut [u16],
    input: &[u16],
    output: &mut [u16],
    budget: u16,
    results: &mut [u32],
) -> u32
    ensures { record { results = results.new; after = called result cells.new «data».new output.new } ≡ run_with_called (given rom.now input.now) budget cells.old «data».old output.old results.old }
{
    if !results_fit(results) {
        return number_of(Err(Refusal::SlicesUnfit));
    }
    match run_of_cells(cells, rom, data, input, output, budget) {
        Ok(ran) => {
            put_results(results, ran.steps, ran.outside);
            put_step(cells, ran.m, ran.answer)
        }
        Err(refusal) => {
            put_results(results, 0, Outside::NONE);
            number_of(Err(refusal))
        }
    }
}
