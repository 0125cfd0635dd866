// Step and run.
#![tactic(auto)]

ghost use Rattle.std.specs.Prelude.{◌≡◌, ◌<◌, length, set};
ghost use Rattle.answers.specs.Answers.{Done};
ghost use Rattle.kinds.specs.Table.{kind_table};
ghost use Rattle.steps.specs.Stores.{data_after, output_after};
ghost use Rattle.steps.proofs.StoreLaws.{WriteFits};
ghost use Rattle.steps.specs.Table.{checks_of};
ghost use Rattle.steps.specs.OperandFound.{none_outside};
ghost use Rattle.steps.specs.Step.{step_of, run_of};
ghost use Rattle.steps.specs.Tally.{plan_in, plans_of, tallied, outside_of};
ghost use Rattle.steps.specs.Summary.{add_store, checks_with, run_with, outside_with, summary_with};
ghost use Rattle.emulator.specs.Outcomes.{stepped, counted, ran};
ghost use Rattle.emulator.specs.Totals.{in_one, apart_from};
ghost use Rattle.board.specs.Given.{given};

use answers::{Answer, Refusal};
use board::Lent;
use fetching::plan_fetched;
use machine::Machine;
use steps::{Outside, Write};
use summaries::{count_store, summary_fits};

// What a step that is done leaves beside the slices.
#[derive(Clone, Copy, Debug, PartialEq, Eq)]
pub struct Stepped {
    pub m: Machine,
    pub outside: Outside,
}

// What a run leaves beside the slices: the steps that were done, and what ended it.
#[derive(Clone, Copy, Debug, PartialEq, Eq)]
pub struct Ran {
    pub m: Machine,
    pub steps: u16,
    pub answer: Answer,
    pub outside: Outside,
}

// Both counts in one number, the writes in its upper half. A run keeps its totals so: one sum beside its steps takes 7 to 19 instructions of a step less
// than two (docs/PERFORMANCE.md).
#[tactic(auto, unfolding(crate::specs::Totals::in_one))]
fn in_one(outside: Outside) -> u32
    ensures { result ≡ in_one outside }
{
    u32::from(outside.reads) + 65536 * u32::from(outside.writes)
}

#[tactic(auto, unfolding(crate::specs::Totals::apart_from))]
fn apart(totals: u32) -> Outside
    ensures { result ≡ apart_from totals }
{
    Outside {
        reads: (totals % 65536) as u16,
        writes: (totals / 65536) as u16,
    }
}

// A data store, made into its data page's part.
fn store_data(data: &mut [u16], address: u32, word: u16)
    requires { (length «data».old ≡ 4096) × (address < 4096) }
    ensures { «data».new ≡ set «data».old address word }
{
    let dp = (address / 128) as u16;
    let offset = (address % 128) as u16;
    slices::store_word(data, dp, offset, word);
}

// The one store of a step.
#[tactic(auto, unfolding(steps::specs::Stores::data_after, steps::specs::Stores::output_after, steps::proofs::StoreLaws::WriteFits))]
fn commit(write: Write, data: &mut [u16], output: &mut [u16])
    requires { WriteFits write (length «data».old) }
    ensures { («data».new ≡ data_after write «data».old) × (output.new ≡ output_after write output.old) }
{
    match write {
        Write::Nothing => {}
        Write::Data(address, word) => store_data(data, address, word),
        Write::Sent(at, word) => slices::store_at(output, at, word),
    }
}

// A step that has passed checks 1 and 2, with the table of the kinds. Its store is counted in the summary.
fn checked_step(
    kinds: &[u8],
    m: Machine,
    rom: &[u16],
    data: &mut [u16],
    input: &[u16],
    output: &mut [u16],
    summary: &mut [u16],
) -> Result<Stepped, Refusal>
    requires { (kinds.now ≡ kind_table) × (checks_of (given rom.now input.now) «data».old (length output.old) m ≡ Done) }
    ensures outcome { stepped m result «data».new output.new ≡ step_of (given rom.now input.now) (record { m = m; «data» = «data».old; output = output.old }) }
    ensures external { counted result ≡ (plan_in (given rom.now input.now) (record { m = m; «data» = «data».old; output = output.old })).outside }
    ensures stores { summary.new ≡ add_store (plan_in (given rom.now input.now) (record { m = m; «data» = «data».old; output = output.old })) summary.old }
{
    let pass = plan_fetched(kinds, &Lent::new(rom, &data[..], input, output.len()), m)?;
    commit(pass.write, data, output);
    count_store(summary, pass.write, pass.m.ov);
    Ok(Stepped {
        m: pass.m,
        outside: pass.outside,
    })
}

// Checks 1 and 2.
#[tactic(auto, unfolding(steps::specs::Table::checks_of, steps::specs::Table::check_rows, steps::specs::Rows::first_given))]
fn check(m: Machine, lent: &Lent<'_>) -> Answer
    ensures { result ≡ checks_of lent.now.given lent.now.«data» lent.now.output_length m }
{
    if !m.in_range() {
        return Err(Refusal::CellOutOfRange);
    }
    if !slices::slices_fit(m, lent) {
        return Err(Refusal::SlicesUnfit);
    }
    Ok(())
}

// Checks 1 and 2, and 14 of a summary that is lent.
#[tactic(auto, using(steps::proofs::SummaryLaws::by_checks))]
fn check_with(summary: &[u16], m: Machine, lent: &Lent<'_>) -> Answer
    ensures { result ≡ checks_with summary.now lent.now.given lent.now.«data» lent.now.output_length m }
{
    check(m, lent)?;
    if !summary_fits(summary) {
        return Err(Refusal::SummaryUnfit);
    }
    Ok(())
}

// A run that is refused before its first step.
fn not_begun(m: Machine, refusal: Refusal) -> Ran
    ensures { result ≡ record { m = m; steps = 0; answer = Err refusal; outside = none_outside } }
{
    Ran {
        m,
        steps: 0,
        answer: Err(refusal),
        outside: Outside::NONE,
    }
}

// A run whose stores are counted in the summary; where none is lent, it is an empty part of some array. Checks 1 and 2 are made once: no step that is done
// leaves a machine that fails them (`step_in_range`). The table of the kinds is made once too.
fn run_counted(
    m: Machine,
    rom: &[u16],
    data: &mut [u16],
    input: &[u16],
    output: &mut [u16],
    summary: &mut [u16],
    budget: u16,
) -> Ran
    ensures outcome { ran result «data».new output.new ≡ run_of (given rom.now input.now) budget (record { m = m; «data» = «data».old; output = output.old }) }
    ensures external { result.outside ≡ outside_of (given rom.now input.now) budget (record { m = m; «data» = «data».old; output = output.old }) }
    ensures stores { summary.new ≡ tallied add_store (plans_of (given rom.now input.now) budget (record { m = m; «data» = «data».old; output = output.old })) summary.old }
{
    if let Err(refusal) = check(m, &Lent::new(rom, &data[..], input, output.len())) {
        return not_begun(m, refusal);
    }
    let kinds = kinds::kinds();
    let mut n = m;
    let mut totals: u32 = 0;
    for steps in 0..budget {
        match checked_step(&kinds, n, rom, data, input, output, summary) {
            Ok(stepped) => {
                n = stepped.m;
                totals += in_one(stepped.outside);
            }
            Err(refusal) => {
                return Ran {
                    m: n,
                    steps,
                    answer: Err(refusal),
                    outside: apart(totals),
                };
            }
        }
    }
    Ran {
        m: n,
        steps: budget,
        answer: Ok(()),
        outside: apart(totals),
    }
}

// A run without a summary. The slices are lent one by one, as C lends them: a struct that held the two that change would have to promise in each contract that
// it still holds the same two.
pub fn run(
    m: Machine,
    rom: &[u16],
    data: &mut [u16],
    input: &[u16],
    output: &mut [u16],
    budget: u16,
) -> Ran
    ensures outcome { ran result «data».new output.new ≡ run_of (given rom.now input.now) budget (record { m = m; «data» = «data».old; output = output.old }) }
    ensures external { result.outside ≡ outside_of (given rom.now input.now) budget (record { m = m; «data» = «data».old; output = output.old }) }
{
    let mut none: [u16; 1] = [0];
    run_counted(m, rom, data, input, output, &mut none[..0], budget)
}

// A run that a summary is lent to. `run_counted` makes checks 1 and 2 again: with the checks outside it a step takes longer (docs/PERFORMANCE.md).
pub fn run_with(
    m: Machine,
    rom: &[u16],
    data: &mut [u16],
    input: &[u16],
    output: &mut [u16],
    summary: &mut [u16],
    budget: u16,
) -> Ran
    ensures outcome { ran result «data».new output.new ≡ run_with summary.old (given rom.now input.now) budget (record { m = m; «data» = «data».old; output = output.old }) }
    ensures external { result.outside ≡ outside_with summary.old (given rom.now input.now) budget (record { m = m; «data» = «data».old; output = output.old }) }
    ensures stores { summary.new ≡ summary_with summary.old (given rom.now input.now) budget (record { m = m; «data» = «data».old; output = output.old }) }
{
    let lent = Lent::new(rom, &data[..], input, output.len());
    if let Err(refusal) = check_with(&summary[..], m, &lent) {
        return not_begun(m, refusal);
    }
    run_counted(m, rom, data, input, output, summary, budget)
}

// A run of one step: checks 1 and 2, and the step.
pub fn step(
    m: Machine,
    rom: &[u16],
    data: &mut [u16],
    input: &[u16],
    output: &mut [u16],
) -> Result<Stepped, Refusal>
    ensures outcome { stepped m result «data».new output.new ≡ step_of (given rom.now input.now) (record { m = m; «data» = «data».old; output = output.old }) }
    ensures external { counted result ≡ (plan_in (given rom.now input.now) (record { m = m; «data» = «data».old; output = output.old })).outside }
{
    let ran = run(m, rom, data, input, output, 1);
    ran.answer?;
    Ok(Stepped {
        m: ran.m,
        outside: ran.outside,
    })
}
