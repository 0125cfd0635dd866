// What the page at a place in the list of pages makes of a word. A place is a number and no enum, as the definition `meaning_at` counts the pages.
#![tactic(auto)]

ghost use Rattle.std.specs.Prelude.{◌≡◌, ◌<◌, ◌≤◌};
ghost use Rattle.instructions.specs.Encoding.{modification_of, next_of, indirect_of, address_mode_of};
ghost use Rattle.instructions.specs.Encoding.{accumulator, multiplier, auxiliary, branches, transfers, modes};
ghost use Rattle.instructions.specs.Places.{meaning_at};
ghost use Rattle.instructions.specs.declared.Decoded.TheVariants.{Built};

use instructions::{
    Accumulator, Auxiliary, Branches, Decoded, Instruction, Modes, Multiplier, Transfers,
};
use operands::{Address, Indirect, Modification};

// The number of the base's pages, which stand first in the list, and of all pages.
const BASE_PAGES: u8 = 75;

const PAGES: u8 = 133;

// Bits 6 to 4 of an indirect operand (Table 4-1). No TryFrom, since the definition refuses no number and gives None for 3 too, and no From, which would lose the other bits.
#[tactic(auto, unfolding(instructions::specs::Encoding::modification_of))]
fn modification_of(bits: u8) -> Modification
    ensures { result ≡ modification_of bits }
{
    match bits {
        0 => Modification::None,
        1 => Modification::Minus,
        2 => Modification::Plus,
        4 => Modification::MinusReversed,
        5 => Modification::MinusIndex,
        6 => Modification::PlusIndex,
        7 => Modification::PlusReversed,
        _ => Modification::None,
    }
}

#[tactic(auto, unfolding(instructions::specs::Encoding::next_of))]
fn next_of(low: u8) -> Option<u8>
    ensures { result ≡ next_of low }
{
    (low / 8 % 2 == 1).then_some(low % 8)
}

// No `From` of a byte, here and below: it would lose bit 7.
#[tactic(auto, unfolding(instructions::specs::Encoding::indirect_of))]
fn indirect_of(low: u8) -> Indirect
    ensures { result ≡ indirect_of low }
{
    Indirect {
        modification: modification_of(low / 16 % 8),
        next: next_of(low),
    }
}

#[tactic(auto, unfolding(instructions::specs::Encoding::address_mode_of))]
fn address_of(low: u8) -> Address
    ensures { result ≡ address_mode_of low }
{
    if low < 128 {
        Address::Direct(low)
    } else {
        Address::Indirect(indirect_of(low))
    }
}

// Places 0 to 22.
#[tactic(auto, unfolding(instructions::specs::Places::meaning_at))]
fn accumulator_page(page: u8, w: u16) -> Accumulator
    requires { page < 23 }
    ensures { accumulator result ≡ meaning_at page w }
{
    let low = (w % 256) as u8;
    let shift = (w / 256 % 16) as u8;
    let stored_shift = (w / 256 % 8) as u8;
    let a = address_of(low);
    match page {
        0 => Accumulator::Add(shift, a),
        1 => Accumulator::Sub(shift, a),
        2 => Accumulator::Lac(shift, a),
        3 => Accumulator::Addh(a),
        4 => Accumulator::Adds(a),
        5 => Accumulator::Subh(a),
        6 => Accumulator::Subs(a),
        7 => Accumulator::Subc(a),
        8 => Accumulator::Zalh(a),
        9 => Accumulator::Zals(a),
        10 => Accumulator::And(a),
        11 => Accumulator::Or(a),
        12 => Accumulator::Xor(a),
        13 => Accumulator::Sacl(stored_shift, a),
        14 => Accumulator::Sach(stored_shift, a),
        15 => Accumulator::Lack(low),
        16 => Accumulator::Addk(low),
        17 => Accumulator::Subk(low),
        18 => Accumulator::Cmpl,
        19 => Accumulator::Neg,
        20 => Accumulator::Abs,
        21 => Accumulator::Sfl,
        _ => Accumulator::Sfr,
    }
}

// Places 23 to 41.
#[tactic(auto, unfolding(instructions::specs::Places::meaning_at))]
fn multiplier_page(page: u8, w: u16) -> Multiplier
    requires { (23 ≤ page) × (page < 42) }
    ensures { multiplier result ≡ meaning_at page w }
{
    let a = address_of((w % 256) as u8);
    match page {
        23 => Multiplier::Lt(a),
        24 => Multiplier::Lta(a),
        25 => Multiplier::Ltp(a),
        26 => Multiplier::Ltd(a),
        27 => Multiplier::Lts(a),
        28 => Multiplier::Mpy(a),
        29 => Multiplier::Mpya(a),
        30 => Multiplier::Mpys(a),
        31 => Multiplier::Sqra(a),
        32 => Multiplier::Sqrs(a),
        33 => Multiplier::Mac(a),
        34 => Multiplier::Macd(a),
        35 => Multiplier::Spl(a),
        36 => Multiplier::Sph(a),
        37 => Multiplier::Mpyk(w % 8192),
        38 => Multiplier::Pac,
        39 => Multiplier::Apac,
        40 => Multiplier::Spac,
        _ => Multiplier::Spm((w % 4) as u8),
    }
}

// Places 42 to 49.
#[tactic(auto, unfolding(instructions::specs::Places::meaning_at))]
fn auxiliary_page(page: u8, w: u16) -> Auxiliary
    requires { (42 ≤ page) × (page < 50) }
    ensures { auxiliary result ≡ meaning_at page w }
{
    let low = (w % 256) as u8;
    let register = (w / 256 % 8) as u8;
    let a = address_of(low);
    match page {
        42 => Auxiliary::Lar(register, a),
        43 => Auxiliary::Sar(register, a),
        44 => Auxiliary::Mar(a),
        45 => Auxiliary::Ldp(a),
        46 => Auxiliary::Lark(register, low),
        47 => Auxiliary::Adrk(low),
        48 => Auxiliary::Sbrk(low),
        _ => Auxiliary::Ldpk(w % 512),
    }
}

// Places 50 to 61.
#[tactic(auto, unfolding(instructions::specs::Places::meaning_at))]
fn branch_page(page: u8, w: u16) -> Branches
    requires { (50 ≤ page) × (page < 62) }
    ensures { branches result ≡ meaning_at page w }
{
    let i = indirect_of((w % 256) as u8);
    match page {
        50 => Branches::B(i),
        51 => Branches::Banz(i),
        52 => Branches::Bz(i),
        53 => Branches::Bnz(i),
        54 => Branches::Bgz(i),
        55 => Branches::Bgez(i),
        56 => Branches::Blz(i),
        57 => Branches::Blez(i),
        58 => Branches::Bv(i),
        59 => Branches::Bnv(i),
        60 => Branches::Call(i),
        _ => Branches::Ret,
    }
}

// Places 62 to 64.
#[tactic(auto, unfolding(instructions::specs::Places::meaning_at))]
fn transfer_page(page: u8, w: u16) -> Transfers
    requires { (62 ≤ page) × (page < 65) }
    ensures { transfers result ≡ meaning_at page w }
{
    let a = address_of((w % 256) as u8);
    match page {
        62 => Transfers::Dmov(a),
        63 => Transfers::In((w / 256 % 16) as u8, a),
        _ => Transfers::Out((w / 256 % 16) as u8, a),
    }
}

// Places 65 to 74.
#[tactic(auto, unfolding(instructions::specs::Places::meaning_at))]
fn mode_page(page: u8, w: u16) -> Modes
    requires { (65 ≤ page) × (page < 75) }
    ensures { modes result ≡ meaning_at page w }
{
    let a = address_of((w % 256) as u8);
    match page {
        65 => Modes::Rpt(a),
        66 => Modes::Rptk((w % 256) as u8),
        67 => Modes::Sovm,
        68 => Modes::Rovm,
        69 => Modes::Ssxm,
        70 => Modes::Rsxm,
        71 => Modes::Cnfd,
        72 => Modes::Cnfp,
        73 => Modes::Push,
        _ => Modes::Pop,
    }
}

// The base's pages, in the families' order.
fn base_of(page: u8, w: u16) -> Instruction
    requires { page < 75 }
    ensures { Built result ≡ meaning_at page w }
{
    match page {
        0..=22 => Instruction::Accumulator(accumulator_page(page, w)),
        23..=41 => Instruction::Multiplier(multiplier_page(page, w)),
        42..=49 => Instruction::Auxiliary(auxiliary_page(page, w)),
        50..=61 => Instruction::Branches(branch_page(page, w)),
        62..=64 => Instruction::Transfers(transfer_page(page, w)),
        _ => Instruction::Modes(mode_page(page, w)),
    }
}

// Places 75 to 132, the pages not in the base: each that is built has an arm here, in the order of the list.
fn later_page(page: u8, w: u16) -> Decoded
    requires { (75 ≤ page) × (page < 133) }
    ensures { result ≡ meaning_at page w }
{
    Decoded::Unbuilt
}

// What the page at a place makes of a word.
#[tactic(auto, using(instructions::specs::Past::past_pages))]
pub fn meaning(page: u8, w: u16) -> Decoded
    ensures { result ≡ meaning_at page w }
{
    if page < BASE_PAGES {
        return Decoded::Built(base_of(page, w));
    }
    if page < PAGES {
        return later_page(page, w);
    }
    Decoded::Nothing
}
