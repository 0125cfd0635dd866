// The exports of the library for C: each is `desktop`'s function of its name, with the same clauses (include/crowmitten.h). No crate can use a static library,
// so the functions that the programs call stand there.
#![tactic(auto)]

ghost use Rattle.std.specs.Prelude.{◌≡◌, length};
ghost use Rattle.machine.specs.Reset.{reset_machine};
ghost use Rattle.answers.specs.Numbers.{number_of};
ghost use Rattle.c_cells.specs.Checks.{length_answer, cells_after};
ghost use Rattle.desktop.specs.Calls.{called, step_called, run_called, run_with_called};
ghost use Rattle.board.specs.Given.{given};
ghost use Rattle.c_window.specs.Shown.{placed, window_called};
ghost use Rattle.c_words_sent.specs.Sent.{counted, sent_called};
ghost use Rattle.runfile.specs.Files.{read_answer, read_contents};
ghost use Rattle.runfile_setting_up.specs.SetUp.{lent, set_up_answer, set_up};
ghost use Rattle.runfile_writing.specs.Writing.{contents, write_answer, written};
ghost use Rattle.c_file_writing.specs.WriteCalls.{written_count};

// The cells after reset, whatever they held.
#[unsafe(no_mangle)]
pub extern "C" fn crowmitten_reset(cells: &mut [u32]) -> u32
    ensures { (result ≡ number_of (length_answer cells.old)) × (cells.new ≡ cells_after cells.old reset_machine) }
{
    desktop::running::crowmitten_reset(cells)
}

#[unsafe(no_mangle)]
pub extern "C" fn crowmitten_step(
    cells: &mut [u32],
    rom: &[u16],
    data: &mut [u16],
    input: &[u16],
    output: &mut [u16],
) -> u32
    ensures { called result cells.new «data».new output.new ≡ step_called (given rom.now input.now) cells.old «data».old output.old }
{
    desktop::running::crowmitten_step(cells, rom, data, input, output)
}

#[unsafe(no_mangle)]
pub extern "C" fn crowmitten_run(
    cells: &mut [u32],
    rom: &[u16],
    data: &mut [u16],
    input: &[u16],
    output: &mut [u16],
    budget: u16,
    steps: &mut u32,
) -> u32
    ensures { record { steps = steps.new; after = called result cells.new «data».new output.new } ≡ run_called (given rom.now input.now) budget cells.old «data».old output.old }
{
    desktop::running::crowmitten_run(cells, rom, data, input, output, budget, steps)
}

// A run, and all that it hands out at its places in `results`.
#[unsafe(no_mangle)]
pub extern "C" fn crowmitten_run_with(
    cells: &mut [u32],
    rom: &[u16],
    data: &mut [u16],
    input: &[u16],
    output: &mut [u16],
    budget: u16,
    results: &mut [u32],
) -> u32
    ensures { record { results = results.new; after = called result cells.new «data».new output.new } ≡ run_with_called (given rom.now input.now) budget cells.old «data».old output.old results.old }
{
    desktop::running::crowmitten_run_with(cells, rom, data, input, output, budget, results)
}

#[unsafe(no_mangle)]
pub extern "C" fn crowmitten_window<'a>(
    cells: &[u32],
    rom: &'a [u16],
    data: &'a [u16],
    address: u16,
    memory: &mut u32,
    from: &mut usize,
    count: &mut usize,
) -> u32
    ensures { placed result memory.new from.new count.new ≡ window_called cells.now address rom.now «data».now }
{
    desktop::window::crowmitten_window(cells, rom, data, address, memory, from, count)
}

// How many words were sent: they are the first of the output slice.
#[unsafe(no_mangle)]
pub extern "C" fn crowmitten_words_sent(cells: &[u32], output: &[u16], count: &mut usize) -> u32
    ensures { counted result count.new ≡ sent_called cells.now output.now }
{
    desktop::sent::crowmitten_words_sent(cells, output, count)
}

// What a run file asks for: the length of its input slice, and its budget.
#[unsafe(no_mangle)]
pub extern "C" fn crowmitten_read(bytes: &[u8], input_count: &mut usize, budget: &mut u16) -> u32
    ensures answered { result ≡ number_of (read_answer bytes.now) }
    ensures input_words { input_count.new ≡ length (read_contents bytes.now).input }
    ensures steps_asked { budget.new ≡ (read_contents bytes.now).budget }
{
    desktop::files::crowmitten_read(bytes, input_count, budget)
}

#[unsafe(no_mangle)]
pub extern "C" fn crowmitten_set_up(
    bytes: &[u8],
    rom: &mut [u16],
    data: &mut [u16],
    input: &mut [u16],
) -> u32
    ensures answered { result ≡ number_of (set_up_answer bytes.now (lent rom.old «data».old input.old)) }
    ensures slices { lent rom.new «data».new input.new ≡ set_up bytes.now (lent rom.old «data».old input.old) }
{
    desktop::files::crowmitten_set_up(bytes, rom, data, input)
}

#[unsafe(no_mangle)]
pub extern "C" fn crowmitten_write(
    program: &[u16],
    data: &[u16],
    input: &[u16],
    budget: u16,
    bytes: &mut [u8],
    count: &mut usize,
) -> u32
    ensures answered { result ≡ number_of (write_answer (contents program.now «data».now input.now budget) bytes.old) }
    ensures lent_bytes { bytes.new ≡ written (contents program.now «data».now input.now budget) bytes.old }
    ensures file_count { count.new ≡ written_count (contents program.now «data».now input.now budget) bytes.old }
{
    desktop::files::crowmitten_write(program, data, input, budget, bytes, count)
}
