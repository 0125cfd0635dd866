// The lent slices: their sizes, words and parts read from them, stores into them.
#![tactic(auto)]

ghost use Rattle.std.specs.Prelude.{◌≡◌, get_or, set};
ghost use Rattle.std.proofs.Math.Seq.{slice};
ghost use Rattle.board.specs.Slices.{memories_fit, port_fits, port_spent, slices_fit, part_start, data_page_stored};

use board::Lent;
use machine::Machine;

const MEMORY_WORDS: usize = 4096;

const PORT_WORDS_MAX: usize = 1024;

const DATA_PAGE_WORDS: usize = 128;

// Each of the two memories is of its size; by themselves, as whoever asks was lent them.
#[tactic(auto, unfolding(board::specs::Slices::memories_fit))]
pub fn memories_fit(rom: &[u16], data: &[u16]) -> bool
    ensures { result ≡ memories_fit rom.now «data».now }
{
    (rom.len() == MEMORY_WORDS) & (data.len() == MEMORY_WORDS)
}

// A port's slice is not over its size, and its cursor not past it.
#[tactic(auto, unfolding(board::specs::Slices::port_fits))]
pub fn port_fits(size: usize, cursor: u16) -> bool
    ensures { result ≡ port_fits size cursor }
{
    (size <= PORT_WORDS_MAX) & (usize::from(cursor) <= size)
}

// Whether nothing is left of a port's slice: an input run dry, an output that is full.
#[tactic(auto, unfolding(board::specs::Slices::port_spent))]
pub fn port_spent(size: usize, cursor: u16) -> bool
    ensures { result ≡ port_spent size cursor }
{
    size <= usize::from(cursor)
}

// Check 2 of a step or a run.
#[tactic(auto, unfolding(board::specs::Slices::slices_fit))]
pub fn slices_fit(m: Machine, lent: &Lent<'_>) -> bool
    ensures { result ≡ slices_fit m lent.now.given.rom lent.now.«data» lent.now.given.input lent.now.output_length }
{
    let memories = memories_fit(lent.rom(), lent.data());
    let reads = port_fits(lent.input().len(), m.input_cursor);
    let sends = port_fits(lent.output_length(), m.output_cursor);
    memories & reads & sends
}

// The words at `from` up to, not including, `to`. The bounds are cut to the slice, so that every caller is answered.
pub fn part<'a>(words: &'a [u16], from: usize, to: usize) -> &'a [u16]
    ensures result_value { result.now ≡ slice from to words.now }
    ensures ref_ptr_value { result.ref_ptr ≡ part_start from to words.entry }
{
    let end = to.min(words.len());
    let start = from.min(end);
    &words[start..end]
}

// The word that an IN finds. A dry port refuses the step before (11), so that nothing stores the 0 that stands for no word. By an index: on a step's path `get`
// takes more instructions (addressing, `register_of`).
pub fn input_word(input: &[u16], cursor: u16) -> u16
    ensures { result ≡ get_or input.now cursor 0 }
{
    let i = usize::from(cursor);
    if i < input.len() { input[i] } else { 0 }
}

// A store that changes nothing where the slice has no such word. By an index: of a slice whose `get_mut` gives nothing the check does not know that it is unchanged.
pub fn store_at(words: &mut [u16], at: u16, word: u16)
    ensures { words.new ≡ set words.old at word }
{
    let i = usize::from(at);
    if i < words.len() {
        words[i] = word;
    }
}

// A direct store: the part of the data slice that is the data page is lent on for the write.
#[tactic(auto, using(board::specs::SliceLaws::data_page_put, board::specs::SliceLaws::data_page_missing))]
pub fn store_word(data: &mut [u16], dp: u16, offset: u16, word: u16)
    ensures { «data».new ≡ data_page_stored «data».old dp offset word }
{
    let base = DATA_PAGE_WORDS * usize::from(dp);
    let end = base + DATA_PAGE_WORDS;
    if end <= data.len() {
        store_at(&mut data[base..end], offset, word);
    }
}
