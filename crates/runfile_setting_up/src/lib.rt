// Setting up lent memories and an input slice from a run file.
#![tactic(auto)]

ghost use Rattle.std.specs.Prelude.{◌≡◌, ◌+◌, ◌*◌, ◌≤◌, length, replicate};
ghost use Rattle.answers.specs.Answers.{where_done};
ghost use Rattle.runfile.specs.Files.{numbers_of, words_at, sections_of};
ghost use Rattle.runfile_setting_up.specs.SetUp.{lent, set_up_answer, memory_with, loaded, set_up};
ghost use Rattle.runfile_setting_up.specs.SetUpFacts.{SetUpDone};

use answers::{Answer, Refusal};
use runfile::numbers::{EightNumbers, word_at};
use runfile::reading::read;
use slices::memories_fit;

// "Data go to 0400h onward"
const DATA_START: u16 = 0x400;

// The numbers of a file that these slices can be set up from, or why not: a file's 20, 21 and 22, then 2.
#[tactic(auto, using(crate::specs::SetUpLaws::set_up_refused))]
fn fitting(bytes: &[u8], rom: &[u16], data: &[u16], input: &[u16]) -> Result<EightNumbers, Refusal>
    ensures { result ≡ where_done (set_up_answer bytes.now (lent rom.now «data».now input.now)) (numbers_of bytes.now) }
{
    let n = read(bytes)?;
    if memories_fit(rom, data) & (input.len() == usize::from(n.input_count)) {
        Ok(n)
    } else {
        Err(Refusal::SlicesUnfit)
    }
}

// What setting up answers.
pub fn set_up_answer(bytes: &[u8], rom: &[u16], data: &[u16], input: &[u16]) -> Answer
    ensures { result ≡ set_up_answer bytes.now (lent rom.now «data».now input.now) }
{
    fitting(bytes, rom, data, input)?;
    Ok(())
}

// The run of words of a file from a place on, as many as the slice has.
fn load_words(bytes: &[u8], at: u16, words: &mut [u16])
    requires { at + 2 * length words.old ≤ length bytes.now }
    ensures { words.new ≡ words_at bytes.now at (length words.old) }
{
    for (k, word) in words.iter_mut().enumerate() {
        *word = word_at(bytes, usize::from(at) + 2 * k);
    }
}

// Every word of a memory becomes 0.
fn clear(memory: &mut [u16])
    requires { length memory.old ≡ 4096 }
    ensures { memory.new ≡ replicate (length memory.old) 0 }
{
    memory.fill(0);
}

// A memory that holds 0 but for a run of words of a file, from an address on.
fn fill_memory(bytes: &[u8], at: u16, count: u16, memory: &mut [u16], address: u16)
    requires { (at + 2 * count ≤ length bytes.now) × (address + count ≤ 4096) × (length memory.old ≡ 4096) }
    ensures { memory.new ≡ memory_with address (words_at bytes.now at count) }
{
    clear(memory);
    let from = usize::from(address);
    load_words(bytes, at, &mut memory[from..from + usize::from(count)]);
}

// The sections of an accepted file, into slices that fit it.
fn load_file(bytes: &[u8], n: EightNumbers, rom: &mut [u16], data: &mut [u16], input: &mut [u16])
    requires done { SetUpDone bytes.now (lent rom.old «data».old input.old) }
    requires numbers { n ≡ numbers_of bytes.now }
    ensures { lent rom.new «data».new input.new ≡ loaded (sections_of bytes.now) }
{
    fill_memory(bytes, n.program_offset, n.program_count, rom, 0);
    fill_memory(bytes, n.data_offset, n.data_count, data, DATA_START);
    load_words(bytes, n.input_offset, input);
}

// Both memories and the input slice from a file. A refusal changes none of them. The slices come one by one, as the C interface lends them.
#[tactic(auto, using(crate::specs::SetUpLaws::set_up_kept, crate::specs::SetUpLaws::set_up_stored, runfile::specs::FileLaws::given_done, runfile::specs::FileLaws::given_refused))]
pub fn set_up(bytes: &[u8], rom: &mut [u16], data: &mut [u16], input: &mut [u16]) -> Answer
    ensures answered { result ≡ set_up_answer bytes.now (lent rom.old «data».old input.old) }
    ensures program_memory { rom.new ≡ (set_up bytes.now (lent rom.old «data».old input.old)).rom }
    ensures data_memory { «data».new ≡ (set_up bytes.now (lent rom.old «data».old input.old)).data_memory }
    ensures input_slice { input.new ≡ (set_up bytes.now (lent rom.old «data».old input.old)).input }
{
    let n = fitting(bytes, rom, data, input)?;
    load_file(bytes, n, rom, data, input);
    Ok(())
}
