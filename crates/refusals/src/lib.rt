// What refuses a pass of a decoded instruction: the last rows of the order of the answers.
#![tactic(auto)]

ghost use Rattle.std.specs.Prelude.{◌≡◌, not, ◌&&◌, ◌||◌};
ghost use Rattle.board.specs.Regions.{program_present};
ghost use Rattle.board.specs.Slices.{port_spent};
ghost use Rattle.steps.specs.Rows.{first_given};
ghost use Rattle.steps.specs.Refusals.{accesses, wrong_port, takes, sends, access_rows, rest_rows, pass_refusal};

use addressing::table_address;
use answers::{Answer, Refusal};
use board::Region;
use machine::Machine;
use pages::{Access, Port, Traits};

#[tactic(auto, unfolding(steps::specs::Refusals::accesses))]
fn is_accessed(access: Access) -> bool
    ensures { result ≡ accesses access }
{
    matches!(access, Access::Reads | Access::Writes)
}

#[tactic(auto, unfolding(steps::specs::Refusals::wrong_port))]
fn is_wrong_port(port: Port) -> bool
    ensures { result ≡ wrong_port port }
{
    match port {
        Port::None => false,
        Port::Input(number) => number != 0,
        Port::Output(number) => number != 1,
    }
}

#[tactic(auto, unfolding(steps::specs::Refusals::takes))]
fn is_input(port: Port) -> bool
    ensures { result ≡ takes port }
{
    matches!(port, Port::Input(_))
}

// Of a second word or a table word, asked only where there is one. Both places are asked at once: were it `program_present`, the compiler would
// ask the first of them in every step.
#[tactic(auto, unfolding(board::specs::Regions::program_present))]
pub fn is_program_absent(needed: bool, cnf: u8, at: u16) -> bool
    ensures { result ≡ (needed && not (program_present cnf at)) }
{
    if needed {
        let rom = regions::in_rom(at);
        let block = regions::in_program_b0(cnf, at);
        return !(rom | block);
    }
    false
}

// Whether nothing is left of the port's slice. Both ports are asked at once, so that an instruction without one meets one test.
#[tactic(auto, unfolding(steps::specs::Refusals::takes, steps::specs::Refusals::sends))]
fn is_port_spent(port: Port, input_length: usize, output_length: usize, m: Machine) -> bool
    ensures { result ≡ (takes port && port_spent input_length m.input_cursor || sends port && port_spent output_length m.output_cursor) }
{
    match port {
        Port::None => false,
        Port::Input(_) => slices::port_spent(input_length, m.input_cursor),
        Port::Output(_) => slices::port_spent(output_length, m.output_cursor),
    }
}

// What is asked of the port, and of the operand by its region: 9 and 6.
#[tactic(auto, unfolding(steps::specs::Rows::first_given, steps::specs::Refusals::access_rows, steps::specs::Refusals::data_absent))]
fn access_refusal(t: Traits, region: Region) -> Answer
    ensures { result ≡ first_given (access_rows t region) }
{
    if is_wrong_port(t.port) {
        return Err(Refusal::WrongPort);
    }
    if is_accessed(t.access) & !regions::region_present(region) {
        return Err(Refusal::DataAbsent);
    }
    Ok(())
}

// What the rest asks: 11, 5 for a table word, and 10.
#[tactic(auto, unfolding(steps::specs::Refusals::input_dry, steps::specs::Refusals::table_absent, steps::specs::Refusals::output_full), using(steps::proofs::RefusalLaws::rest_first))]
fn rest_refusal(
    t: Traits,
    second: u16,
    input_length: usize,
    output_length: usize,
    m: Machine,
) -> Answer
    ensures { result ≡ first_given (rest_rows t second input_length output_length m) }
{
    let spent = is_port_spent(t.port, input_length, output_length, m);
    if spent & is_input(t.port) {
        return Err(Refusal::InputDry);
    }
    if is_program_absent(t.table, m.cnf, table_address(m, second)) {
        return Err(Refusal::ProgramAbsent);
    }
    // An IN has been answered above: this is an OUT.
    if spent {
        return Err(Refusal::OutputFull);
    }
    Ok(())
}

// The first of the last rows of the order that holds, for an operand in this region. It asks for the slices' lengths alone, and so is lent no slice.
#[tactic(auto, unfolding(steps::specs::Refusals::access_rows), using(steps::proofs::RefusalLaws::pass_first))]
pub fn pass_refusal(
    t: Traits,
    region: Region,
    second: u16,
    input_length: usize,
    output_length: usize,
    m: Machine,
) -> Answer
    ensures { result ≡ pass_refusal t region second input_length output_length m }
{
    access_refusal(t, region)?;
    rest_refusal(t, second, input_length, output_length, m)
}
