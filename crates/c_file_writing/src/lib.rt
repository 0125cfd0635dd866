// Run files in numbers: writing.
#![tactic(auto)]

ghost use Rattle.std.specs.Prelude.{◌≡◌, length};
ghost use Rattle.answers.specs.Numbers.{number_of};
ghost use Rattle.runfile.specs.Files.{file_length};
ghost use Rattle.runfile_writing.specs.Writing.{contents, write_answer, written};
ghost use Rattle.runfile.specs.Facts.{CountsKept};
ghost use Rattle.c_file_writing.specs.WriteCalls.{written_count};

use answers::number_of;
use runfile_writing::{file_length, write_file};

// How many bytes the file of three lists has: what `Contents` of runfile_writing asks of itself, which is not exported.
fn file_bytes(program: &[u16], data: &[u16], input: &[u16]) -> usize
    requires { CountsKept (length program.now) (length «data».now) (length input.now) }
    ensures { result ≡ file_length (length program.now) (length «data».now) (length input.now) }
{
    file_length(program.len() as u16, data.len() as u16, input.len() as u16)
}

// A run file, and how many bytes it has.
#[tactic(auto, using(crate::specs::CallLaws::none_written, crate::specs::CallLaws::counts_written, crate::specs::CallLaws::bytes_written))]
pub fn write_counted(
    program: &[u16],
    data: &[u16],
    input: &[u16],
    budget: u16,
    bytes: &mut [u8],
    count: &mut usize,
) -> u32
    ensures answered { result ≡ number_of (write_answer (contents program.now «data».now input.now budget) bytes.old) }
    ensures lent_bytes { bytes.new ≡ written (contents program.now «data».now input.now budget) bytes.old }
    ensures file_count { count.new ≡ written_count (contents program.now «data».now input.now budget) bytes.old }
{
    let answer = write_file(program, data, input, budget, bytes);
    *count = match answer {
        Ok(()) => file_bytes(program, data, input),
        Err(_) => 0,
    };
    number_of(answer)
}
