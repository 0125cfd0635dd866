// The fetch window.
ghost use Rattle.std.specs.Prelude.{◌≡◌};
ghost use Rattle.c_window.specs.Shown.{placed, window_called};
ghost use Rattle.c_window.specs.CallLaws.{memory_number, placed_by, window_placed};

use answers::{Refusal, number_of};
use c_cells::reading::checked_machine;
use machine::Machine;
use regions::in_rom;
use windows::{window, window_answer};

// The two lent memories.
#[derive(Clone, Copy, Debug, PartialEq, Eq)]
enum Memory {
    Program,
    Data,
}

// The number of a memory for programs in C, to whom 0 is no memory.
impl From<Memory> for u32 {
    ghost from_gives = { λ memory n. n ≡ memory_number memory };

    fn from(memory: Memory) -> u32 {
        match memory {
            Memory::Program => 1,
            Memory::Data => 2,
        }
    }
}

// Where a window stands.
#[derive(Clone, Copy, Debug, PartialEq, Eq)]
struct Place {
    memory: Memory,
    from: usize,
    count: usize,
}

// Where the window of an address stands, or why none is shown. Both memories by themselves, as `window` is lent them.
#[tactic(auto, unfolding(crate::specs::Shown::place_of), using(crate::specs::CallLaws::past_rom))]
fn place_of<'a>(m: Machine, address: u16, rom: &'a [u16], data: &'a [u16]) -> Result<Place, Refusal>
    ensures { placed_by result ≡ window_placed m address rom.now «data».now }
{
    window_answer(m, address, rom, data)?;
    let from = usize::from(address);
    let count = window(m, address, rom, data).len();
    if in_rom(address) {
        Ok(Place {
            memory: Memory::Program,
            from,
            count,
        })
    } else {
        Ok(Place {
            memory: Memory::Data,
            from: from - 0xFF00 + 0x200,
            count,
        })
    }
}

// The same of a machine's cells.
#[tactic(auto, unfolding(crate::specs::Shown::window_called, c_cells::specs::Checks::checked_machine))]
fn place_called<'a>(
    cells: &[u32],
    address: u16,
    rom: &'a [u16],
    data: &'a [u16],
) -> Result<Place, Refusal>
    ensures { placed_by result ≡ window_called cells.now address rom.now «data».now }
{
    place_of(checked_machine(cells)?, address, rom, data)
}

// The place of the window of an address, in three numbers.
pub fn place_window<'a>(
    cells: &[u32],
    rom: &'a [u16],
    data: &'a [u16],
    address: u16,
    memory: &mut u32,
    from: &mut usize,
    count: &mut usize,
) -> u32
    ensures { placed result memory.new from.new count.new ≡ window_called cells.now address rom.now «data».now }
{
    match place_called(cells, address, rom, data) {
        Ok(place) => {
            *memory = u32::from(place.memory);
            *from = place.from;
            *count = place.count;
            0
        }
        Err(refusal) => {
            *memory = 0;
            *from = 0;
            *count = 0;
            number_of(Err(refusal))
        }
    }
}
