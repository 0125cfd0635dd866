// From a machine that has passed checks 1 and 2 to the plan of its step: answers 5, 3, 4, 7 and 5 for the second word, then the pass.
#![tactic(auto)]

ghost use Rattle.std.specs.Prelude.{◌≡◌, cond, not, ◌&&◌, ltb};
ghost use Rattle.board.specs.Windows.{program_word};
ghost use Rattle.steps.specs.Pass.{planned};
ghost use Rattle.steps.proofs.Stages.{instruction_plan, decoded_plan};
ghost use Rattle.fetching.specs.ByTable.{fetch_plan_by};

use answers::Refusal;
use board::Lent;
use decoder::decode_by;
use instructions::{Decoded, Instruction};
use machine::Machine;
use plans::{plan_pass, program_word};
use refusals::is_program_absent;
use steps::Pass;
use traits::traits_of;

// The second word where the instruction has two, else 0, as the definition has it.
fn second_word(two: bool, cnf: u8, at: u16, lent: &Lent<'_>) -> u16
    ensures { result ≡ cond two (program_word cnf at lent.now.given.rom lent.now.«data») 0 }
{
    if two {
        return program_word(cnf, at, lent.rom(), lent.data());
    }
    0
}

// The instruction is asked only while a repeat is pending.
fn is_unrepeatable(rptc: u16, repeatable: bool) -> bool
    ensures { result ≡ (ltb 0 rptc && not repeatable) }
{
    (0 < rptc) && !repeatable
}

// An instruction: answers 7 and 5 for the second word, then the pass.
#[tactic(auto, unfolding(steps::specs::Pass::plan_by, steps::specs::Table::repeat_rows, steps::proofs::Stages::instruction_plan, steps::specs::Table::not_repeatable, steps::specs::Table::second_absent, steps::specs::Table::second_word, steps::specs::Table::second_address))]
fn plan_instruction(i: Instruction, lent: &Lent<'_>, m: Machine) -> Result<Pass, Refusal>
    ensures { planned m result ≡ instruction_plan i lent.now.given lent.now.«data» lent.now.output_length m }
{
    let t = traits_of(i);
    if is_unrepeatable(m.rptc, t.repeatable) {
        return Err(Refusal::NotRepeatable);
    }
    let two = t.words == 2;
    let at = registers::wrapped_sum(m.pc, 1);
    if is_program_absent(two, m.cnf, at) {
        return Err(Refusal::ProgramAbsent);
    }
    let second = second_word(two, m.cnf, at, lent);
    plan_pass(i, t, second, lent, m)
}

// Answers 3 and 4, then the instruction.
#[tactic(auto, unfolding(steps::proofs::Stages::decoded_plan, steps::specs::Table::encoding_rows, steps::specs::Table::instruction_rows, steps::specs::Step::page_plan, steps::specs::Pass::plan_by), using(steps::proofs::Stages::instruction_stages))]
fn plan_decoded(d: Decoded, lent: &Lent<'_>, m: Machine) -> Result<Pass, Refusal>
    ensures { planned m result ≡ decoded_plan d lent.now.given lent.now.«data» lent.now.output_length m }
{
    match d {
        Decoded::Built(i) => plan_instruction(i, lent, m),
        Decoded::Unbuilt => Err(Refusal::NotBuilt),
        Decoded::Nothing => Err(Refusal::NoEncoding),
    }
}

// Answer 5 for the first word, then what it decodes to by a table of kinds.
#[tactic(auto, unfolding(crate::specs::ByTable::fetch_plan_by, steps::specs::Table::fetch_rows, steps::specs::Pass::plan_by))]
pub fn plan_fetched(kinds: &[u8], lent: &Lent<'_>, m: Machine) -> Result<Pass, Refusal>
    ensures { planned m result ≡ fetch_plan_by kinds.now lent.now.given lent.now.«data» lent.now.output_length m }
{
    if !regions::program_present(m.cnf, m.pc) {
        return Err(Refusal::ProgramAbsent);
    }
    let word = program_word(m.cnf, m.pc, lent.rom(), lent.data());
    plan_decoded(decode_by(kinds, word), lent, m)
}
