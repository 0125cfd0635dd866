// The operand of a pass: the word and the region that are found at its address, together, and what its access counts in external RAM.
#![tactic(auto)]

ghost use Rattle.std.specs.Prelude.{◌≡◌};
ghost use Rattle.board.specs.Finding.{found_at};
ghost use Rattle.steps.specs.OperandFound.{operand_found, outside_by};

use board::{Found, Region};
use pages::Access;
use steps::Outside;

// The routine that finds a data word. A region that comes later is one case more in `data_region`.
#[tactic(auto, unfolding(board::specs::Finding::found_at))]
pub fn find_word(cnf: u8, data: &[u16], address: u32) -> Found
    ensures { result ≡ found_at cnf «data».now address }
{
    let region = regions::data_region(cnf, address);
    let word = data.get(address as usize).copied().unwrap_or(0);
    Found { word, region }
}

// The region is worked out only for an instruction that makes an access.
#[tactic(auto, unfolding(steps::specs::OperandFound::operand_found))]
pub fn find_operand(access: Access, cnf: u8, data: &[u16], address: u32) -> Found
    ensures { result ≡ operand_found access cnf «data».now address }
{
    match access {
        Access::None => Found {
            word: 0,
            region: Region::Absent,
        },
        Access::Reads => find_word(cnf, data, address),
        Access::Writes => Found {
            word: 0,
            region: regions::data_region(cnf, address),
        },
    }
}

#[tactic(auto, unfolding(steps::specs::OperandFound::outside_by))]
pub fn outside_by(access: Access, region: Region) -> Outside
    ensures { result ≡ outside_by access region }
{
    match access {
        Access::None => Outside::NONE,
        Access::Reads => Outside {
            reads: regions::access_outside(region),
            ..Outside::NONE
        },
        Access::Writes => Outside {
            writes: regions::access_outside(region),
            ..Outside::NONE
        },
    }
}
