// What each page says of its instruction besides its rule.
#![tactic(auto)]

ghost use Rattle.std.specs.Prelude.{◌≡◌};
ghost use Rattle.pages.specs.Traits.{reading, writing, modifying, counting, tabled, branching, taking, sending, accumulator_traits, multiplier_traits, auxiliary_traits, branches_traits, transfers_traits, modes_traits, traits_of};

use instructions::{Accumulator, Auxiliary, Branches, Instruction, Modes, Multiplier, Transfers};
use operands::{Address, Indirect};
use pages::{Access, Port, Traits};

// No operand, one word, repeatable: the others name what they have besides.
const PLAIN: Traits = Traits {
    operand: None,
    words: 1,
    repeatable: true,
    access: Access::None,
    table: false,
    port: Port::None,
};

// No operand, one word, not repeatable.
const CONSTANT: Traits = Traits {
    repeatable: false,
    ..PLAIN
};

// From here on one for each definition of a page's traits (`reading`, `writing`, ..).
fn reading_traits(a: Address) -> Traits
    ensures { result ≡ reading a }
{
    Traits {
        operand: Some(a),
        access: Access::Reads,
        ..PLAIN
    }
}

fn writing_traits(a: Address) -> Traits
    ensures { result ≡ writing a }
{
    Traits {
        operand: Some(a),
        access: Access::Writes,
        ..PLAIN
    }
}

fn modifying_traits(a: Address) -> Traits
    ensures { result ≡ modifying a }
{
    Traits {
        operand: Some(a),
        ..PLAIN
    }
}

fn counting_traits(a: Address) -> Traits
    ensures { result ≡ counting a }
{
    Traits {
        operand: Some(a),
        repeatable: false,
        access: Access::Reads,
        ..PLAIN
    }
}

fn tabled_traits(a: Address) -> Traits
    ensures { result ≡ tabled a }
{
    Traits {
        operand: Some(a),
        words: 2,
        access: Access::Reads,
        table: true,
        ..PLAIN
    }
}

fn branching_traits(i: Indirect) -> Traits
    ensures { result ≡ branching i }
{
    Traits {
        operand: Some(Address::Indirect(i)),
        words: 2,
        repeatable: false,
        ..PLAIN
    }
}

fn taking_traits(port: u8, a: Address) -> Traits
    ensures { result ≡ taking port a }
{
    Traits {
        operand: Some(a),
        access: Access::Writes,
        port: Port::Input(port),
        ..PLAIN
    }
}

fn sending_traits(port: u8, a: Address) -> Traits
    ensures { result ≡ sending port a }
{
    Traits {
        operand: Some(a),
        access: Access::Reads,
        port: Port::Output(port),
        ..PLAIN
    }
}

#[tactic(auto, unfolding(pages::specs::Traits::accumulator_traits))]
fn accumulator_traits(i: Accumulator) -> Traits
    ensures { result ≡ accumulator_traits i }
{
    match i {
        Accumulator::Add(_, a)
        | Accumulator::Sub(_, a)
        | Accumulator::Lac(_, a)
        | Accumulator::Addh(a)
        | Accumulator::Adds(a)
        | Accumulator::Subh(a)
        | Accumulator::Subs(a)
        | Accumulator::Subc(a)
        | Accumulator::Zalh(a)
        | Accumulator::Zals(a)
        | Accumulator::And(a)
        | Accumulator::Or(a)
        | Accumulator::Xor(a) => reading_traits(a),
        Accumulator::Sacl(_, a) | Accumulator::Sach(_, a) => writing_traits(a),
        Accumulator::Lack(_) | Accumulator::Addk(_) | Accumulator::Subk(_) => CONSTANT,
        Accumulator::Cmpl
        | Accumulator::Neg
        | Accumulator::Abs
        | Accumulator::Sfl
        | Accumulator::Sfr => PLAIN,
    }
}

#[tactic(auto, unfolding(pages::specs::Traits::multiplier_traits))]
fn multiplier_traits(i: Multiplier) -> Traits
    ensures { result ≡ multiplier_traits i }
{
    match i {
        Multiplier::Lt(a)
        | Multiplier::Lta(a)
        | Multiplier::Ltp(a)
        | Multiplier::Ltd(a)
        | Multiplier::Lts(a)
        | Multiplier::Mpy(a)
        | Multiplier::Mpya(a)
        | Multiplier::Mpys(a)
        | Multiplier::Sqra(a)
        | Multiplier::Sqrs(a) => reading_traits(a),
        Multiplier::Mpyk(_) | Multiplier::Spm(_) => CONSTANT,
        Multiplier::Mac(a) | Multiplier::Macd(a) => tabled_traits(a),
        Multiplier::Pac | Multiplier::Apac | Multiplier::Spac => PLAIN,
        Multiplier::Spl(a) | Multiplier::Sph(a) => writing_traits(a),
    }
}

#[tactic(auto, unfolding(pages::specs::Traits::auxiliary_traits))]
fn auxiliary_traits(i: Auxiliary) -> Traits
    ensures { result ≡ auxiliary_traits i }
{
    match i {
        Auxiliary::Lar(_, a) | Auxiliary::Ldp(a) => reading_traits(a),
        Auxiliary::Sar(_, a) => writing_traits(a),
        Auxiliary::Lark(_, _) | Auxiliary::Adrk(_) | Auxiliary::Sbrk(_) | Auxiliary::Ldpk(_) =>
            CONSTANT,
        Auxiliary::Mar(a) => modifying_traits(a),
    }
}

#[tactic(auto, unfolding(pages::specs::Traits::branches_traits))]
fn branches_traits(i: Branches) -> Traits
    ensures { result ≡ branches_traits i }
{
    match i {
        Branches::B(indirect)
        | Branches::Banz(indirect)
        | Branches::Bz(indirect)
        | Branches::Bnz(indirect)
        | Branches::Bgz(indirect)
        | Branches::Bgez(indirect)
        | Branches::Blz(indirect)
        | Branches::Blez(indirect)
        | Branches::Bv(indirect)
        | Branches::Bnv(indirect)
        | Branches::Call(indirect) => branching_traits(indirect),
        Branches::Ret => CONSTANT,
    }
}

#[tactic(auto, unfolding(pages::specs::Traits::transfers_traits))]
fn transfers_traits(i: Transfers) -> Traits
    ensures { result ≡ transfers_traits i }
{
    match i {
        Transfers::Dmov(a) => reading_traits(a),
        Transfers::In(port, a) => taking_traits(port, a),
        Transfers::Out(port, a) => sending_traits(port, a),
    }
}

#[tactic(auto, unfolding(pages::specs::Traits::modes_traits))]
fn modes_traits(i: Modes) -> Traits
    ensures { result ≡ modes_traits i }
{
    match i {
        Modes::Sovm
        | Modes::Rovm
        | Modes::Ssxm
        | Modes::Rsxm
        | Modes::Cnfd
        | Modes::Cnfp
        | Modes::Push
        | Modes::Pop => PLAIN,
        Modes::Rpt(a) => counting_traits(a),
        Modes::Rptk(_) => CONSTANT,
    }
}

#[tactic(auto, unfolding(pages::specs::Traits::traits_of))]
pub fn traits_of(i: Instruction) -> Traits
    ensures { result ≡ traits_of i }
{
    match i {
        Instruction::Accumulator(page) => accumulator_traits(page),
        Instruction::Multiplier(page) => multiplier_traits(page),
        Instruction::Auxiliary(page) => auxiliary_traits(page),
        Instruction::Branches(page) => branches_traits(page),
        Instruction::Transfers(page) => transfers_traits(page),
        Instruction::Modes(page) => modes_traits(page),
    }
}
