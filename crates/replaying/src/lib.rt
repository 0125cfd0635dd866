// From the bytes of a run file to its line: all of `replay` but reading and writing.
#![tactic(auto)]

ghost use Rattle.std.specs.Prelude.{◌≡◌, true, ◌++◌, ◌≤◌, length, take, drop};
ghost use Rattle.answers.specs.Numbers.{is_done};
ghost use Rattle.runfile.specs.Files.{read_answer, read_contents, head_of};
ghost use Rattle.line_fields.specs.Placing.{line_in, length_in};
ghost use Rattle.replay_line.specs.Longest.{longest_line};
ghost use Rattle.replay_line.specs.Replay.{replay_line};
ghost use Rattle.replaying.specs.Facts.{FreshSlices};

use emulator::run;
use line::{refused_line, run_line};
use machine::Machine;
use runfile::reading::{Head, read};
use runfile_setting_up::set_up;

// As many first bytes of a file decide its line, one more than the largest file has (`cut_replay`).
pub const FILE_BYTES: usize = 16401;

// As many bytes hold every line (`line_within`).
pub const LINE_BYTES: usize = 5145;

// An accepted file, set up in fresh slices and run from reset: its line. The slices one by one, as `set_up` and `run` are lent them.
fn replay_in(
    bytes: &[u8],
    budget: u16,
    rom: &mut [u16],
    data: &mut [u16],
    input: &mut [u16],
    output: &mut [u16],
    line: &mut [u8],
) -> usize
    requires bytes_value { is_done (read_answer bytes.now) ≡ true }
    requires budget_value { budget ≡ (read_contents bytes.now).budget }
    requires fresh_slices { FreshSlices bytes.now rom.old «data».old input.old output.old }
    ensures { (result ≡ length_in (replay_line bytes.now) line.old) × (line.new ≡ line_in (replay_line bytes.now) line.old) }
{
    // it cannot refuse: these slices fit an accepted file
    let _ = set_up(bytes, rom, data, input);
    let ran = run(Machine::reset(), rom, data, input, output, budget);
    run_line(ran.m, ran.answer, ran.steps, output, line)
}

// An accepted file, with memories and ports of its own.
fn replay_accepted(bytes: &[u8], head: Head, line: &mut [u8]) -> usize
    requires accepted { is_done (read_answer bytes.now) ≡ true }
    requires counts { head ≡ head_of (read_contents bytes.now) }
    ensures { (result ≡ length_in (replay_line bytes.now) line.old) × (line.new ≡ line_in (replay_line bytes.now) line.old) }
{
    let count = usize::from(head.input_count);
    let mut rom = [0; 4096];
    let mut data = [0; 4096];
    let mut input = [0; 1024];
    let mut output = [0; 1024];
    replay_in(
        bytes,
        head.budget,
        &mut rom,
        &mut data,
        &mut input[..count],
        &mut output,
        line,
    )
}

// What `replay` prints of a file, at the start of lent bytes that hold every line, and its length.
fn put_line(bytes: &[u8], line: &mut [u8]) -> usize
    requires { longest_line ≤ length line.old }
    ensures { (result ≡ length (replay_line bytes.now)) × (line.new ≡ replay_line bytes.now ++ drop (length (replay_line bytes.now)) line.old) }
{
    match read(bytes) {
        Ok(numbers) => replay_accepted(bytes, Head::from(numbers), line),
        Err(refusal) => refused_line(Err(refusal), line),
    }
}

// What `replay` prints of the file whose first bytes these are, `count` of them read: the line, and its length. The sizes are in the types, so
// that no program can lend less; there is no heap here, so that `count` stands beside the file.
pub fn replayed(file: &[u8; FILE_BYTES], count: usize, line: &mut [u8; LINE_BYTES]) -> usize
    ensures { (result ≡ length (replay_line (take count file.now))) × (line.new ≡ replay_line (take count file.now) ++ drop (length (replay_line (take count file.now))) line.old) }
{
    put_line(&file[..count.min(FILE_BYTES)], line)
}
