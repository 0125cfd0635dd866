// The checks of a slice of cells.
ghost use Rattle.std.specs.Prelude.{◌≡◌, length};
ghost use Rattle.machine.specs.Table.{cell_count};
ghost use Rattle.c_cells.specs.Checks.{within_limits, length_answer, cells_answer};

use crate::CELLS;
use answers::{Answer, Refusal};
use machine::Machine;

const LONG_MAX: u32 = 0xFFFFFFFF;

const WORD_MAX: u32 = 0xFFFF;

// The largest number that each cell may hold, in the cells' order: the machine's own limits, and what 16 and 32 bits hold. By `as`, since a constant can call
// no `From`.
const LIMITS: [u32; CELLS] = [
    LONG_MAX,
    LONG_MAX,
    WORD_MAX,
    WORD_MAX,
    WORD_MAX,
    WORD_MAX,
    WORD_MAX,
    WORD_MAX,
    WORD_MAX,
    WORD_MAX,
    WORD_MAX,
    WORD_MAX,
    WORD_MAX,
    Machine::ARP_MAX as u32,
    Machine::ARB_MAX as u32,
    Machine::DP_MAX as u32,
    Machine::PM_MAX as u32,
    Machine::FLAG_MAX as u32,
    Machine::FLAG_MAX as u32,
    Machine::FLAG_MAX as u32,
    Machine::FLAG_MAX as u32,
    Machine::FLAG_MAX as u32,
    Machine::MID_MAX as u32,
    Machine::RPTC_MAX as u32,
    WORD_MAX,
    WORD_MAX,
    WORD_MAX,
    WORD_MAX,
    WORD_MAX,
    WORD_MAX,
    WORD_MAX,
    WORD_MAX,
    Machine::CURSOR_MAX as u32,
    Machine::CURSOR_MAX as u32,
];

// Each of the cells is at most its limit. Gathered by &, and not by `all`, which makes a branch for each cell: 90 instructions in place of 83.
fn within_limits(cells: &[u32; CELLS]) -> bool
    ensures { result ≡ within_limits cell_count cells.now }
{
    cells
        .iter()
        .zip(&LIMITS)
        .fold(true, |kept, (cell, limit)| kept & (cell <= limit))
}

// Whether a slice has as many cells as there are: 0 or 2.
#[tactic(auto, unfolding(crate::specs::Checks::length_answer))]
pub fn length_answer(cells: &[u32]) -> Answer
    ensures { result ≡ length_answer cells.now }
{
    if cells.len() == CELLS {
        Ok(())
    } else {
        Err(Refusal::SlicesUnfit)
    }
}

// What a slice of cells is answered by: 2 for its length, then 1.
#[tactic(auto, unfolding(crate::specs::Checks::cells_answer))]
pub fn cells_answer(cells: &[u32]) -> Answer
    ensures { result ≡ cells_answer cells.now }
{
    let Some(cells) = cells.as_array() else {
        return Err(Refusal::SlicesUnfit);
    };
    if within_limits(cells) {
        Ok(())
    } else {
        Err(Refusal::CellOutOfRange)
    }
}
