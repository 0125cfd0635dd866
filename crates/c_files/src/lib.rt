// Run files in numbers: reading, setting up.
#![tactic(auto)]

ghost use Rattle.std.specs.Prelude.{◌≡◌, length};
ghost use Rattle.answers.specs.Numbers.{number_of};
ghost use Rattle.runfile.specs.Files.{read_answer, read_contents};
ghost use Rattle.runfile_setting_up.specs.SetUp.{lent, set_up_answer, set_up};

use answers::number_of;
use runfile::reading::{head_of, read_answer};
use runfile_setting_up::set_up;

// What a run file asks for: the length of its input slice, and its budget. Of a refused file these are those of `head_of`, all 0, and the number is the answer's.
#[tactic(auto, unfolding(runfile::specs::Files::head_of))]
pub fn read_counts(bytes: &[u8], input_count: &mut usize, budget: &mut u16) -> u32
    ensures answered { result ≡ number_of (read_answer bytes.now) }
    ensures input_words { input_count.new ≡ length (read_contents bytes.now).input }
    ensures steps_asked { budget.new ≡ (read_contents bytes.now).budget }
{
    let head = head_of(bytes);
    *input_count = usize::from(head.input_count);
    *budget = head.budget;
    number_of(read_answer(bytes))
}

// The memories and the input slice of a run file, one by one as C lends them.
pub fn set_up_slices(bytes: &[u8], rom: &mut [u16], data: &mut [u16], input: &mut [u16]) -> u32
    ensures answered { result ≡ number_of (set_up_answer bytes.now (lent rom.old «data».old input.old)) }
    ensures slices { lent rom.new «data».new input.new ≡ set_up bytes.now (lent rom.old «data».old input.old) }
{
    number_of(set_up(bytes, rom, data, input))
}
