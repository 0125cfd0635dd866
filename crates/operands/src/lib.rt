// The operand in data memory, which the guide's pages call dma: its address mode. Definitions, the decoder and the pages share it.
#![tactic(auto)]

ghost use Rattle.std.specs.Prelude.{◌≡◌};
ghost use Rattle.operands.specs.Bits.{modification_bits};

// What an indirect operand makes of AR(ARP) after its use (Table 4-1; 011 is reserved and is no case).
#[derive(Clone, Copy, Debug, PartialEq, Eq)]
pub enum Modification {
    None,
    Minus,
    Plus,
    MinusReversed,
    MinusIndex,
    PlusIndex,
    PlusReversed,
}

// Bits 6 to 4 of an indirect operand (Table 4-1).
impl From<Modification> for u8 {
    ghost from_gives = { λ modification bits. bits ≡ modification_bits modification };

    #[tactic(auto, unfolding(crate::specs::Bits::modification_bits))]
    fn from(modification: Modification) -> u8 {
        match modification {
            Modification::None => 0,
            Modification::Minus => 1,
            Modification::Plus => 2,
            Modification::MinusReversed => 4,
            Modification::MinusIndex => 5,
            Modification::PlusIndex => 6,
            Modification::PlusReversed => 7,
        }
    }
}

// An indirect operand, 4.1.2. Branches have no other kind.
#[derive(Clone, Copy, Debug, PartialEq, Eq)]
pub struct Indirect {
    pub modification: Modification,
    // Bit 3: where it is 0, ARP stays; else ARP becomes bits 2 to 0.
    pub next: Option<u8>,
}

// A data memory operand: direct with its offset in the page (4.1.1), or indirect.
#[derive(Clone, Copy, Debug, PartialEq, Eq)]
pub enum Address {
    Direct(u8),
    Indirect(Indirect),
}
