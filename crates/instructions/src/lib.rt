// The decoded instruction: one case for each page of section 4.3 that is built, in the families of Table 4-4.
#![tactic(auto)]

use operands::{Address, Indirect};

// A shift stands first where a page has one; the constants are of 8 bits.
#[derive(Clone, Copy, Debug, PartialEq, Eq)]
pub enum Accumulator {
    Add(u8, Address),
    Sub(u8, Address),
    Lac(u8, Address),
    Addh(Address),
    Adds(Address),
    Subh(Address),
    Subs(Address),
    Subc(Address),
    Zalh(Address),
    Zals(Address),
    And(Address),
    Or(Address),
    Xor(Address),
    Sacl(u8, Address),
    Sach(u8, Address),
    Lack(u8),
    Addk(u8),
    Subk(u8),
    Cmpl,
    Neg,
    Abs,
    Sfl,
    Sfr,
}

// MPYK's constant is its 13 bits, unsigned; SPM's is the new PM.
#[derive(Clone, Copy, Debug, PartialEq, Eq)]
pub enum Multiplier {
    Lt(Address),
    Lta(Address),
    Ltp(Address),
    Ltd(Address),
    Lts(Address),
    Mpy(Address),
    Mpya(Address),
    Mpys(Address),
    Mpyk(u16),
    Sqra(Address),
    Sqrs(Address),
    Mac(Address),
    Macd(Address),
    Pac,
    Apac,
    Spac,
    Spl(Address),
    Sph(Address),
    Spm(u8),
}

// An auxiliary register stands first where a page has one; LDPK's constant is of 9 bits.
#[derive(Clone, Copy, Debug, PartialEq, Eq)]
pub enum Auxiliary {
    Lar(u8, Address),
    Sar(u8, Address),
    Lark(u8, u8),
    Mar(Address),
    Adrk(u8),
    Sbrk(u8),
    Ldp(Address),
    Ldpk(u16),
}

#[derive(Clone, Copy, Debug, PartialEq, Eq)]
pub enum Branches {
    B(Indirect),
    Banz(Indirect),
    Bz(Indirect),
    Bnz(Indirect),
    Bgz(Indirect),
    Bgez(Indirect),
    Blz(Indirect),
    Blez(Indirect),
    Bv(Indirect),
    Bnv(Indirect),
    Call(Indirect),
    Ret,
}

// A port stands first.
#[derive(Clone, Copy, Debug, PartialEq, Eq)]
pub enum Transfers {
    Dmov(Address),
    In(u8, Address),
    Out(u8, Address),
}

#[derive(Clone, Copy, Debug, PartialEq, Eq)]
pub enum Modes {
    Sovm,
    Rovm,
    Ssxm,
    Rsxm,
    Cnfd,
    Cnfp,
    Rpt(Address),
    Rptk(u8),
    Push,
    Pop,
}

#[derive(Clone, Copy, Debug, PartialEq, Eq)]
pub enum Instruction {
    Accumulator(Accumulator),
    Multiplier(Multiplier),
    Auxiliary(Auxiliary),
    Branches(Branches),
    Transfers(Transfers),
    Modes(Modes),
}

// What a word is: an instruction that is built, one that is published and not built, or in no encoding. Three cases, of which none is
// an error of the decoder, so it is neither an Option nor a Result.
#[derive(Clone, Copy, Debug, PartialEq, Eq)]
pub enum Decoded {
    Built(Instruction),
    Unbuilt,
    Nothing,
}
