// One pass of a decoded instruction, by value: what it reads and does, and its plan.
#![tactic(auto)]

ghost use Rattle.std.specs.Prelude.{◌≡◌, [], get_or, Ok};
ghost use Rattle.pages.specs.Addressing.{address_of};
ghost use Rattle.pages.specs.Rules.{rule_of};
ghost use Rattle.pages.specs.TransfersRule.{transfers_rule};
ghost use Rattle.board.specs.Windows.{program_word};
ghost use Rattle.board.specs.Given.{given};
ghost use Rattle.steps.specs.Pass.{words_read, performed, planned, pass_plan};
ghost use Rattle.steps.specs.OperandFound.{found_for, outside_by};
ghost use Rattle.plans.specs.PassWords.{memory_words, with_port};

use addressing::{address_of, after_operand, table_address};
use answers::Refusal;
use board::{Found, Lent};
use finding::{find_operand, outside_by};
use instructions::{Instruction, Transfers};
use machine::Machine;
use pages::{Effect, Traits};
use passes::follow;
use refusals::pass_refusal;
use steps::{Outside, Pass};
use stores::write_of;

// The program word at an address, 0 where there is none; from both memories by themselves, as `region_window` is lent them.
#[tactic(auto, unfolding(board::specs::Windows::program_word))]
pub fn program_word<'a>(cnf: u8, at: u16, rom: &'a [u16], data: &'a [u16]) -> u16
    ensures { result ≡ program_word cnf at rom.now «data».now }
{
    windows::region_window(cnf, at, rom, data)
        .first()
        .copied()
        .unwrap_or(0)
}

// The words that a pass reads from the memories, the operand's found before: pages' `Words` without the input's, which is read for an IN alone.
#[derive(Clone, Copy, Debug, PartialEq, Eq)]
struct MemoryWords {
    operand: u16,
    second: u16,
    table: u16,
    at: u16,
}

#[tactic(auto, unfolding(steps::specs::Pass::words_read, crate::specs::PassWords::memory_words))]
fn words_read(t: Traits, word: u16, second: u16, lent: &Lent<'_>, m: Machine) -> MemoryWords
    requires { word ≡ (found_for t lent.now.«data» m).word }
    ensures { result ≡ memory_words (words_read t second (given lent.now.given.rom []) lent.now.«data» m) }
{
    let at = table_address(m, second);
    let table = if t.table {
        program_word(m.cnf, at, lent.rom(), lent.data())
    } else {
        0
    };
    MemoryWords {
        operand: word,
        second,
        table,
        at,
    }
}

// The next input word is read for a transfer alone.
fn transfer(page: Transfers, m: Machine, word: u16, lent: &Lent<'_>, cursor: u16) -> Effect
    ensures { result ≡ transfers_rule page m word (get_or lent.now.given.input cursor 0) }
{
    transfers::rule(page, m, word, slices::input_word(lent.input(), cursor))
}

// One rule for every instruction, by its family.
#[tactic(auto, unfolding(pages::specs::Rules::rule_of, crate::specs::PassWords::with_port))]
fn rule(i: Instruction, before: Machine, m: Machine, words: MemoryWords, lent: &Lent<'_>) -> Effect
    ensures { result ≡ rule_of i before m (with_port words lent.now.given.input before.input_cursor) }
{
    match i {
        Instruction::Accumulator(page) => accumulator::rule(page, m, words.operand),
        Instruction::Multiplier(page) => {
            multiplier::rule(page, m, words.operand, words.table, words.at)
        }
        Instruction::Auxiliary(page) => auxiliary::rule(page, before, m, words.operand),
        Instruction::Branches(page) => branches::rule(page, before, m, words.second),
        Instruction::Transfers(page) => transfer(page, m, words.operand, lent, before.input_cursor),
        Instruction::Modes(page) => modes::rule(page, m, words.operand),
    }
}

// A pass that nothing refuses, of an operand that was found at its address, and what that counts outside: worked out here, it would take some 13
// instructions of a step more.
#[tactic(auto, unfolding(steps::specs::Pass::performed, steps::specs::Pass::passed_machine, steps::specs::Pass::passed_write, steps::specs::Pass::effect_of, steps::specs::Pass::words_read, crate::specs::PassWords::memory_words, crate::specs::PassWords::with_port))]
fn perform(
    i: Instruction,
    t: Traits,
    address: u32,
    found: Found,
    outside: Outside,
    second: u16,
    lent: &Lent<'_>,
    m: Machine,
) -> Pass
    requires address_value { (address ≡ address_of t.operand m) × (found ≡ found_for t lent.now.«data» m) }
    requires outside_value { outside ≡ outside_by t.access found.region }
    ensures { planned m (Ok result) ≡ performed t i second lent.now.given lent.now.«data» m }
{
    let words = words_read(t, found.word, second, lent, m);
    let effect = rule(i, m, after_operand(m, t.operand), words, lent);
    Pass {
        m: follow(effect.m, effect.jump, t.words, t.repeatable),
        write: write_of(effect.store, found.region, m.cnf, address, m.output_cursor),
        outside,
    }
}

// The pass of a decoded instruction, from what its page says of it besides and its second word.
#[tactic(auto, unfolding(steps::specs::OperandFound::found_for), using(steps::proofs::RefusalLaws::pass_plan_lem))]
pub fn plan_pass(
    i: Instruction,
    t: Traits,
    second: u16,
    lent: &Lent<'_>,
    m: Machine,
) -> Result<Pass, Refusal>
    ensures { planned m result ≡ pass_plan t i second lent.now.given lent.now.«data» lent.now.output_length m }
{
    let address = address_of(m, t.operand);
    let found = find_operand(t.access, m.cnf, lent.data(), address);
    let outside = outside_by(t.access, found.region);
    pass_refusal(
        t,
        found.region,
        second,
        lent.input().len(),
        lent.output_length(),
        m,
    )?;
    Ok(perform(i, t, address, found, outside, second, lent, m))
}
