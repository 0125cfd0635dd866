// Which data and program addresses are on the board. A data address has 32 bits, as `address_of` gives it; PC has 16.
#![tactic(auto)]

ghost use Rattle.std.specs.Prelude.{◌≡◌};
ghost use Rattle.board.specs.Regions.{present, on_chip_region, access_outside, data_region, on_chip, move_allowed, in_rom, in_program_b0, program_present};

use board::Region;

pub fn region_present(region: Region) -> bool
    ensures { result ≡ present region }
{
    !matches!(region, Region::Absent)
}

pub fn region_on_chip(region: Region) -> bool
    ensures { result ≡ on_chip_region region }
{
    matches!(region, Region::B2 | Region::B0 | Region::B1)
}

// How often one access to a region goes to external RAM.
pub fn access_outside(region: Region) -> u16
    ensures { result ≡ access_outside region }
{
    u16::from(matches!(region, Region::External))
}

#[tactic(auto, unfolding(board::specs::Regions::data_region))]
pub fn data_region(cnf: u8, address: u32) -> Region
    ensures { result ≡ data_region cnf address }
{
    if (address >= 0x400) & (address <= 0xFFF) {
        return Region::External;
    }
    if (address >= 0x60) & (address <= 0x7F) {
        return Region::B2;
    }
    if (address >= 0x200) & (address <= 0x2FF) & (cnf == 0) {
        return Region::B0;
    }
    if (address >= 0x300) & (address <= 0x3FF) {
        return Region::B1;
    }
    Region::Absent
}

// Whether an address is in an on-chip block that is now in data space.
#[tactic(auto, unfolding(board::specs::Regions::on_chip))]
pub fn on_chip(cnf: u8, address: u32) -> bool
    ensures { result ≡ on_chip cnf address }
{
    region_on_chip(data_region(cnf, address))
}

// Whether a data move copies the word that was found in a region, at an address, to the next one. From 0400h on no next one is on chip, and below the
// sum cannot overflow.
pub fn move_allowed(region: Region, cnf: u8, address: u32) -> bool
    ensures { result ≡ move_allowed region cnf address }
{
    if !(region_on_chip(region) & (address < 0x400)) {
        return false;
    }
    on_chip(cnf, address + 1)
}

#[tactic(auto, unfolding(board::specs::Regions::in_rom))]
pub fn in_rom(address: u16) -> bool
    ensures { result ≡ in_rom address }
{
    address < 4096
}

// Whether B0 answers at a program address.
#[tactic(auto, unfolding(board::specs::Regions::in_program_b0))]
pub fn in_program_b0(cnf: u8, address: u16) -> bool
    ensures { result ≡ in_program_b0 cnf address }
{
    (address >= 0xFF00) & (cnf == 1)
}

#[tactic(auto, unfolding(board::specs::Regions::program_present))]
pub fn program_present(cnf: u8, address: u16) -> bool
    ensures { result ≡ program_present cnf address }
{
    if in_rom(address) {
        return true;
    }
    in_program_b0(cnf, address)
}
