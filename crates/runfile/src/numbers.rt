// The numbers that a run file begins with, and their rules.
ghost use Rattle.std.specs.Prelude.{◌≡◌, get_or};
ghost use Rattle.runfile.specs.Files.{word_at, numbers_of, counts_kept, rules_kept};

pub const HEAD_BYTES: usize = 16;

pub const VERSION: u16 = 1;

const PROGRAM_WORDS_MAX: usize = 4096;

const DATA_WORDS_MAX: usize = 3072;

const INPUT_WORDS_MAX: usize = 1024;

// The numbers that a file begins with, in their order.
#[derive(Clone, Copy, Debug, PartialEq, Eq)]
pub struct EightNumbers {
    pub version: u16,
    pub program_count: u16,
    pub program_offset: u16,
    pub data_count: u16,
    pub data_offset: u16,
    pub input_count: u16,
    pub input_offset: u16,
    pub budget: u16,
}

// A byte of a slice, 0 where there is none, as std says it in one line; so has the decoder of its table.
fn byte_at(bytes: &[u8], at: usize) -> u8
    ensures { result ≡ get_or bytes.now at 0 }
{
    bytes.get(at).copied().unwrap_or(0)
}

// The little-endian word at a place; a byte that is not there counts as 0.
pub fn word_at(bytes: &[u8], at: usize) -> u16
    ensures { result ≡ word_at bytes.now at }
{
    if bytes.len() <= at {
        return 0;
    }
    // The two cases apart: the compiler then jumps once less for each word of a file that is set up.
    let low = byte_at(bytes, at);
    match bytes.get(at + 1) {
        Some(&high) => u16::from_le_bytes([low, high]),
        None => u16::from(low),
    }
}

// The eight numbers at the start of some bytes.
#[tactic(auto, unfolding(crate::specs::Files::numbers_of))]
pub fn numbers_of(bytes: &[u8]) -> EightNumbers
    ensures { result ≡ numbers_of bytes.now }
{
    EightNumbers {
        version: word_at(bytes, 0),
        program_count: word_at(bytes, 2),
        program_offset: word_at(bytes, 4),
        data_count: word_at(bytes, 6),
        data_offset: word_at(bytes, 8),
        input_count: word_at(bytes, 10),
        input_offset: word_at(bytes, 12),
        budget: word_at(bytes, 14),
    }
}

// Each count is at most its limit. Three numbers and no Head: the writer passes the lengths of its slices, which 16 bits may not hold.
#[tactic(auto, unfolding(crate::specs::Files::counts_kept))]
pub fn counts_kept(program_count: usize, data_count: usize, input_count: usize) -> bool
    ensures { result ≡ counts_kept program_count data_count input_count }
{
    (program_count <= PROGRAM_WORDS_MAX)
        & (data_count <= DATA_WORDS_MAX)
        & (input_count <= INPUT_WORDS_MAX)
}

// The rules for a file's counts and offsets, and for its length.
#[tactic(auto, unfolding(crate::specs::Files::rules_kept))]
pub fn rules_kept(n: EightNumbers, length: usize) -> bool
    ensures { result ≡ rules_kept n length }
{
    let program_count = usize::from(n.program_count);
    let program_offset = usize::from(n.program_offset);
    let data_count = usize::from(n.data_count);
    let data_offset = usize::from(n.data_offset);
    let input_count = usize::from(n.input_count);
    let input_offset = usize::from(n.input_offset);
    counts_kept(program_count, data_count, input_count)
        & (program_offset == HEAD_BYTES)
        & (data_offset == program_offset + 2 * program_count)
        & (input_offset == data_offset + 2 * data_count)
        & (length == input_offset + 2 * input_count)
}
