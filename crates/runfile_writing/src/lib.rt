// Writing a run file into lent bytes.
#![tactic(auto)]

ghost use Rattle.std.specs.Prelude.{◌≡◌, true, [], ◌∷◌, ◌+◌, ◌*◌, ◌≤◌, ◌<◌, length};
ghost use Rattle.std.proofs.lemmas.List.Edits.{sets};
ghost use Rattle.runfile.specs.Files.{bytes_of, contents_fit, file_of, file_length};
ghost use Rattle.runfile_writing.specs.Writing.{contents, write_answer, written};

use answers::{Answer, Refusal};
use runfile::numbers::{HEAD_BYTES, VERSION, counts_kept};
use std::marker::Model;

// How many bytes a file with these counts has. Three numbers and no Head: its callers, one of them C's writer, have three slices and no budget to pass.
#[tactic(auto, unfolding(runfile::specs::Files::file_length))]
pub fn file_length(program_count: u16, data_count: u16, input_count: u16) -> usize
    ensures { result ≡ file_length program_count data_count input_count }
{
    HEAD_BYTES
        + 2 * usize::from(program_count)
        + 2 * usize::from(data_count)
        + 2 * usize::from(input_count)
}

// A word, low byte first.
#[tactic(auto, using(crate::specs::WritingLaws::word_stored))]
fn put_word(bytes: &mut [u8], at: usize, word: u16)
    requires { at + 1 < length bytes.old }
    ensures { bytes.new ≡ sets bytes.old at (bytes_of (word ∷ [])) }
{
    let [low, high] = word.to_le_bytes();
    bytes[at] = low;
    bytes[at + 1] = high;
}

// A run of words, from a place on.
fn put_words(bytes: &mut [u8], at: usize, words: &[u16])
    requires { at + 2 * length words.now ≤ length bytes.old }
    ensures { bytes.new ≡ sets bytes.old at (bytes_of words.now) }
{
    for (k, word) in words.iter().enumerate() {
        put_word(bytes, at + 2 * k, *word);
    }
}

// A file's contents. In a clause they are the record of document 01.
#[derive(Drop)]
struct Contents<'a> {
    program: &'a [u16],
    data: &'a [u16],
    input: &'a [u16],
    budget: u16,
}

impl<'a> Model for Contents<'a> {
    ghost use Rattle.runfile.specs.Files.{Contents};
    ghost use Rattle.runfile_writing.specs.Writing.{contents};

    ghost Value = { Contents };

    ghost view = { λ c. contents c.program.now c.«data».now c.input.now c.budget };
}

impl<'a> Contents<'a> {
    // Each list is within its limit.
    #[tactic(auto, unfolding(runfile::specs::Files::contents_fit))]
    fn fit(&self) -> bool
        ensures { result ≡ contents_fit self.now }
    {
        counts_kept(self.program.len(), self.data.len(), self.input.len())
    }

    // How many bytes their file has.
    fn file_length(&self) -> usize
        requires { contents_fit self.now ≡ true }
        ensures { result ≡ length (file_of self.now) }
    {
        let program_count = self.program.len() as u16;
        let data_count = self.data.len() as u16;
        let input_count = self.input.len() as u16;
        file_length(program_count, data_count, input_count)
    }

    // The head, and the three sections one after another.
    fn put(&self, bytes: &mut [u8])
        requires within { contents_fit self.now ≡ true }
        requires room { length (file_of self.now) ≤ length bytes.old }
        ensures { bytes.new ≡ sets bytes.old 0 (file_of self.now) }
    {
        let data_offset = HEAD_BYTES + 2 * self.program.len();
        let input_offset = data_offset + 2 * self.data.len();
        let head = [
            VERSION,
            self.program.len() as u16,
            HEAD_BYTES as u16,
            self.data.len() as u16,
            data_offset as u16,
            self.input.len() as u16,
            input_offset as u16,
            self.budget,
        ];
        put_words(bytes, 0, &head);
        put_words(bytes, HEAD_BYTES, self.program);
        put_words(bytes, data_offset, self.data);
        put_words(bytes, input_offset, self.input);
    }
}

// Three word lists and a budget, as a file at the start of lent bytes: 22, then 23. A refusal puts down no byte. The parameters are those of
// the C interface.
pub fn write_file(
    program: &[u16],
    data: &[u16],
    input: &[u16],
    budget: u16,
    bytes: &mut [u8],
) -> Answer
    ensures answered { result ≡ write_answer (contents program.now «data».now input.now budget) bytes.old }
    ensures lent_bytes { bytes.new ≡ written (contents program.now «data».now input.now budget) bytes.old }
{
    let contents = Contents {
        program,
        data,
        input,
        budget,
    };
    if !contents.fit() {
        return Err(Refusal::FileRules);
    }
    if bytes.len() < contents.file_length() {
        return Err(Refusal::FileNoRoom);
    }
    contents.put(bytes);
    Ok(())
}
