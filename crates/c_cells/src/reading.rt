// The machine that a slice of cells is of.
ghost use Rattle.std.specs.Prelude.{◌≡◌, ◌%◌, ◌^◌, ◌≤◌};
ghost use Rattle.c_cells.specs.Cells.{fields_at, machine_from, machine_of};
ghost use Rattle.c_cells.specs.Checks.{checked_machine};

use crate::CELLS;
use crate::checking::cells_answer;
use answers::Refusal;
use hardware_stack::Stack;
use machine::Machine;

// The low 16 bits of a cell.
fn word(cell: u32) -> u16
    ensures { result ≡ cell % 2 ^ 16 }
{
    (cell % 65536) as u16
}

// The low 8 bits of a cell. Beside `word` for 16: one function of the size would return more than fits its cell.
fn small(cell: u32) -> u8
    ensures { result ≡ cell % 2 ^ 8 }
{
    (cell % 256) as u8
}

// Eight cells of 16 bits.
fn eight_at(cells: &[u32; CELLS], from: usize) -> [u16; 8]
    requires { from ≤ 26 }
    ensures { result ≡ fields_at 16 cells.now from 8 }
{
    std::array::from_fn(|k| word(cells[from + k]))
}

#[tactic(auto, unfolding(crate::specs::Cells::machine_from))]
fn machine_from(cells: &[u32; CELLS]) -> Machine
    ensures { result ≡ machine_from cells.now }
{
    Machine {
        stack: Stack {
            words: eight_at(cells, 24),
        },
        acc: cells[0],
        p: cells[1],
        t: word(cells[2]),
        pc: word(cells[3]),
        pfc: word(cells[4]),
        ar: eight_at(cells, 5),
        arp: small(cells[13]),
        arb: small(cells[14]),
        dp: word(cells[15]),
        pm: small(cells[16]),
        ov: small(cells[17]),
        ovm: small(cells[18]),
        sxm: small(cells[19]),
        c: small(cells[20]),
        cnf: small(cells[21]),
        mid: word(cells[22]),
        rptc: word(cells[23]),
        input_cursor: word(cells[32]),
        output_cursor: word(cells[33]),
    }
}

// The machine that the cells are of; no `From`, since both types are of other crates. Cells that pass the checks lose nothing by it.
#[tactic(auto, unfolding(crate::specs::Cells::machine_of))]
pub fn machine_of(cells: &[u32]) -> Machine
    ensures { result ≡ machine_of cells.now }
{
    match cells.as_array() {
        Some(cells) => machine_from(cells),
        None => Machine::reset(),
    }
}

// The machine of cells that pass the checks, or what they are answered by. Inlined, so that the machine is not copied: 742 instructions of a call of
// `crowmitten_step` in place of 796.
#[inline(always)]
#[tactic(auto, unfolding(crate::specs::Checks::checked_machine))]
pub fn checked_machine(cells: &[u32]) -> Result<Machine, Refusal>
    ensures { result ≡ checked_machine cells.now }
{
    cells_answer(cells)?;
    Ok(machine_of(cells))
}
