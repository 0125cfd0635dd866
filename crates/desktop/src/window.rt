// The fetch window: in the program memory (1), in the data memory (2) or nowhere (0); passed on, as run files are.
ghost use Rattle.std.specs.Prelude.{◌≡◌};
ghost use Rattle.c_window.specs.Shown.{placed, window_called};

use c_window::window::place_window;

pub fn crowmitten_window<'a>(
    cells: &[u32],
    rom: &'a [u16],
    data: &'a [u16],
    address: u16,
    memory: &mut u32,
    from: &mut usize,
    count: &mut usize,
) -> u32
    ensures { placed result memory.new from.new count.new ≡ window_called cells.now address rom.now «data».now }
{
    place_window(cells, rom, data, address, memory, from, count)
}
