// A machine's cells, into a slice of their number.
ghost use Rattle.std.specs.Prelude.{◌≡◌, ◌≤◌, ◌+◌, [], ◌∷◌, length};
ghost use Rattle.std.proofs.lemmas.List.Edits.{sets};
ghost use Rattle.machine.specs.Table.{cell_count};
ghost use Rattle.c_cells.specs.Cells.{cells_of};
ghost use Rattle.c_cells.specs.Checks.{cells_after};

use crate::CELLS;
use machine::Machine;

// ACC, P, T, PC and PFC.
fn first_cells(m: Machine) -> [u32; 5]
    ensures { result ≡ m.acc ∷ m.p ∷ m.t ∷ m.pc ∷ m.pfc ∷ [] }
{
    [
        m.acc,
        m.p,
        u32::from(m.t),
        u32::from(m.pc),
        u32::from(m.pfc),
    ]
}

// ARP to RPTC.
fn pointer_cells(m: Machine) -> [u32; 11]
    ensures { result ≡ m.arp ∷ m.arb ∷ m.dp ∷ m.pm ∷ m.ov ∷ m.ovm ∷ m.sxm ∷ m.c ∷ m.cnf ∷ m.mid ∷ m.rptc ∷ [] }
{
    [
        u32::from(m.arp),
        u32::from(m.arb),
        u32::from(m.dp),
        u32::from(m.pm),
        u32::from(m.ov),
        u32::from(m.ovm),
        u32::from(m.sxm),
        u32::from(m.c),
        u32::from(m.cnf),
        u32::from(m.mid),
        u32::from(m.rptc),
    ]
}

// The cells behind the stack: the two cursors.
fn last_cells(m: Machine) -> [u32; 2]
    ensures { result ≡ m.input_cursor ∷ m.output_cursor ∷ [] }
{
    [u32::from(m.input_cursor), u32::from(m.output_cursor)]
}

// A run of cells, from a place on.
fn put_numbers(cells: &mut [u32], at: usize, numbers: &[u32])
    requires { at + length numbers.now ≤ length cells.old }
    ensures { cells.new ≡ sets cells.old at numbers.now }
{
    cells[at..at + numbers.len()].copy_from_slice(numbers);
}

// Eight cells of 16 bits, from a place on: each is widened, where `put_numbers` copies. By their places: of cells that an adapter
// of `iter_mut` lends nothing is known afterwards.
fn put_eight(cells: &mut [u32], at: usize, words: &[u16; 8])
    requires { at + 8 ≤ length cells.old }
    ensures { (cells.new ≡ sets cells.old at words.now) × (length words.now ≡ 8) }
{
    for (k, &word) in words.iter().enumerate() {
        cells[at + k] = u32::from(word);
    }
}

// All the cells of a machine.
fn put_all(cells: &mut [u32], m: Machine)
    requires { length cells.old ≡ cell_count }
    ensures { cells.new ≡ cells_of m }
{
    put_numbers(cells, 0, &first_cells(m));
    put_eight(cells, 5, &m.ar);
    put_numbers(cells, 13, &pointer_cells(m));
    put_eight(cells, 24, &m.stack.words);
    put_numbers(cells, 32, &last_cells(m));
}

// A machine's cells, into a slice of their number; another slice is left as it is.
#[tactic(auto, unfolding(crate::specs::Checks::cells_after))]
pub fn put_cells(cells: &mut [u32], m: Machine)
    ensures { cells.new ≡ cells_after cells.old m }
{
    if cells.len() != CELLS {
        return;
    }
    put_all(cells, m);
}
