#![tactic(auto)]

// The encoder: an instruction back to its word. A number above the bits that its page has for it gives its low bits.
mod operand_words;

ghost use Rattle.std.specs.Prelude.{◌≡◌};
ghost use Rattle.encodings.specs.Encode.{accumulator_fields, multiplier_fields, auxiliary_fields, branch_fields};
ghost use Rattle.encodings.specs.Encode.{transfer_fields, mode_fields, word_of, encode_of};

use crate::operand_words::{addressed, branching, constant};
use instructions::{Accumulator, Auxiliary, Branches, Instruction, Modes, Multiplier, Transfers};

// A field of four or of three bits is the low part of the upper byte.
fn accumulator_word(x: Accumulator) -> u16
    ensures { result ≡ word_of (accumulator_fields x) }
{
    match x {
        Accumulator::Add(s, a) => addressed(s % 16, a),
        Accumulator::Sub(s, a) => addressed(0x10 + s % 16, a),
        Accumulator::Lac(s, a) => addressed(0x20 + s % 16, a),
        Accumulator::Addh(a) => addressed(0x48, a),
        Accumulator::Adds(a) => addressed(0x49, a),
        Accumulator::Subh(a) => addressed(0x44, a),
        Accumulator::Subs(a) => addressed(0x45, a),
        Accumulator::Subc(a) => addressed(0x47, a),
        Accumulator::Zalh(a) => addressed(0x40, a),
        Accumulator::Zals(a) => addressed(0x41, a),
        Accumulator::And(a) => addressed(0x4E, a),
        Accumulator::Or(a) => addressed(0x4D, a),
        Accumulator::Xor(a) => addressed(0x4C, a),
        Accumulator::Sacl(shift, a) => addressed(0x60 + shift % 8, a),
        Accumulator::Sach(shift, a) => addressed(0x68 + shift % 8, a),
        Accumulator::Lack(k) => constant(0xCA, k),
        Accumulator::Addk(k) => constant(0xCC, k),
        Accumulator::Subk(k) => constant(0xCD, k),
        Accumulator::Cmpl => 0xCE27,
        Accumulator::Neg => 0xCE23,
        Accumulator::Abs => 0xCE1B,
        Accumulator::Sfl => 0xCE18,
        Accumulator::Sfr => 0xCE19,
    }
}

fn multiplier_word(x: Multiplier) -> u16
    ensures { result ≡ word_of (multiplier_fields x) }
{
    match x {
        Multiplier::Lt(a) => addressed(0x3C, a),
        Multiplier::Lta(a) => addressed(0x3D, a),
        Multiplier::Ltp(a) => addressed(0x3E, a),
        Multiplier::Ltd(a) => addressed(0x3F, a),
        Multiplier::Lts(a) => addressed(0x5B, a),
        Multiplier::Mpy(a) => addressed(0x38, a),
        Multiplier::Mpya(a) => addressed(0x3A, a),
        Multiplier::Mpys(a) => addressed(0x3B, a),
        Multiplier::Mpyk(k) => 0xA000 + k % 8192,
        Multiplier::Sqra(a) => addressed(0x39, a),
        Multiplier::Sqrs(a) => addressed(0x5A, a),
        Multiplier::Mac(a) => addressed(0x5D, a),
        Multiplier::Macd(a) => addressed(0x5C, a),
        Multiplier::Pac => 0xCE14,
        Multiplier::Apac => 0xCE15,
        Multiplier::Spac => 0xCE16,
        Multiplier::Spl(a) => addressed(0x7C, a),
        Multiplier::Sph(a) => addressed(0x7D, a),
        Multiplier::Spm(k) => 0xCE08 + u16::from(k % 4),
    }
}

fn auxiliary_word(x: Auxiliary) -> u16
    ensures { result ≡ word_of (auxiliary_fields x) }
{
    match x {
        Auxiliary::Lar(r, a) => addressed(0x30 + r % 8, a),
        Auxiliary::Sar(r, a) => addressed(0x70 + r % 8, a),
        Auxiliary::Lark(r, k) => constant(0xC0 + r % 8, k),
        Auxiliary::Mar(a) => addressed(0x55, a),
        Auxiliary::Adrk(k) => constant(0x7E, k),
        Auxiliary::Sbrk(k) => constant(0x7F, k),
        Auxiliary::Ldp(a) => addressed(0x52, a),
        Auxiliary::Ldpk(k) => 0xC800 + k % 512,
    }
}

fn branch_word(x: Branches) -> u16
    ensures { result ≡ word_of (branch_fields x) }
{
    match x {
        Branches::B(i) => branching(0xFF, i),
        Branches::Banz(i) => branching(0xFB, i),
        Branches::Bz(i) => branching(0xF6, i),
        Branches::Bnz(i) => branching(0xF5, i),
        Branches::Bgz(i) => branching(0xF1, i),
        Branches::Bgez(i) => branching(0xF4, i),
        Branches::Blz(i) => branching(0xF3, i),
        Branches::Blez(i) => branching(0xF2, i),
        Branches::Bv(i) => branching(0xF0, i),
        Branches::Bnv(i) => branching(0xF7, i),
        Branches::Call(i) => branching(0xFE, i),
        Branches::Ret => 0xCE26,
    }
}

fn transfer_word(x: Transfers) -> u16
    ensures { result ≡ word_of (transfer_fields x) }
{
    match x {
        Transfers::Dmov(a) => addressed(0x56, a),
        Transfers::In(port, a) => addressed(0x80 + port % 16, a),
        Transfers::Out(port, a) => addressed(0xE0 + port % 16, a),
    }
}

fn mode_word(x: Modes) -> u16
    ensures { result ≡ word_of (mode_fields x) }
{
    match x {
        Modes::Sovm => 0xCE03,
        Modes::Rovm => 0xCE02,
        Modes::Ssxm => 0xCE07,
        Modes::Rsxm => 0xCE06,
        Modes::Cnfd => 0xCE04,
        Modes::Cnfp => 0xCE05,
        Modes::Rpt(a) => addressed(0x4B, a),
        Modes::Rptk(k) => constant(0xCB, k),
        Modes::Push => 0xCE1C,
        Modes::Pop => 0xCE1D,
    }
}

// The word of an instruction.
#[tactic(auto, unfolding(encodings::specs::Encode::encode_of, encodings::specs::Encode::fields_of))]
pub fn encode(i: Instruction) -> u16
    ensures { result ≡ encode_of i }
{
    match i {
        Instruction::Accumulator(x) => accumulator_word(x),
        Instruction::Multiplier(x) => multiplier_word(x),
        Instruction::Auxiliary(x) => auxiliary_word(x),
        Instruction::Branches(x) => branch_word(x),
        Instruction::Transfers(x) => transfer_word(x),
        Instruction::Modes(x) => mode_word(x),
    }
}
