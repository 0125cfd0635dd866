// Run files: reading, setting up, writing. Each passes on to a crate beside the emulator, where its must-fail edits load less.
ghost use Rattle.std.specs.Prelude.{◌≡◌, length};
ghost use Rattle.answers.specs.Numbers.{number_of};
ghost use Rattle.runfile.specs.Files.{read_answer, read_contents};
ghost use Rattle.runfile_setting_up.specs.SetUp.{lent, set_up_answer, set_up};
ghost use Rattle.runfile_writing.specs.Writing.{contents, write_answer, written};
ghost use Rattle.c_file_writing.specs.WriteCalls.{written_count};

use c_file_writing::write_counted;
use c_files::{read_counts, set_up_slices};

// What a run file asks for: the length of its input slice, and its budget.
pub fn crowmitten_read(bytes: &[u8], input_count: &mut usize, budget: &mut u16) -> u32
    ensures answered { result ≡ number_of (read_answer bytes.now) }
    ensures input_words { input_count.new ≡ length (read_contents bytes.now).input }
    ensures steps_asked { budget.new ≡ (read_contents bytes.now).budget }
{
    read_counts(bytes, input_count, budget)
}

pub fn crowmitten_set_up(bytes: &[u8], rom: &mut [u16], data: &mut [u16], input: &mut [u16]) -> u32
    ensures answered { result ≡ number_of (set_up_answer bytes.now (lent rom.old «data».old input.old)) }
    ensures slices { lent rom.new «data».new input.new ≡ set_up bytes.now (lent rom.old «data».old input.old) }
{
    set_up_slices(bytes, rom, data, input)
}

pub fn crowmitten_write(
    program: &[u16],
    data: &[u16],
    input: &[u16],
    budget: u16,
    bytes: &mut [u8],
    count: &mut usize,
) -> u32
    ensures answered { result ≡ number_of (write_answer (contents program.now «data».now input.now budget) bytes.old) }
    ensures lent_bytes { bytes.new ≡ written (contents program.now «data».now input.now budget) bytes.old }
    ensures file_count { count.new ≡ written_count (contents program.now «data».now input.now budget) bytes.old }
{
    write_counted(program, data, input, budget, bytes, count)
}
