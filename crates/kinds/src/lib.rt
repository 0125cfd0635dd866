// What the decoder asks of a word's bytes: the table of the upper ones' kinds, and whether a low one is an operand as printed.
// The table is stated in specs/Table.antt, its agreement with the encodings beside it; specs/Sieve.antt is the test of every byte that
// both this crate and `pages_apart` compute.
#![tactic(auto)]

ghost use Rattle.std.specs.Prelude.{◌≡◌};
ghost use Rattle.instructions.specs.Encoding.{low_fits};
ghost use Rattle.kinds.specs.Table.{kind_table};

// The kind of each upper byte: the place of its page in the list of section 4.3's pages, which is its number for good, or the decoder's
// CONTROL, LONG or LONG + 1 where more than one page has the byte.
const KINDS: [u8; 256] = [
    0, 0, 0, 0, 0, 0, 0, 0, 0, 0, 0, 0, 0, 0, 0, 0, 1, 1, 1, 1, 1, 1, 1, 1, 1, 1, 1, 1, 1, 1, 1, 1,
    2, 2, 2, 2, 2, 2, 2, 2, 2, 2, 2, 2, 2, 2, 2, 2, 42, 42, 42, 42, 42, 42, 42, 42, 28, 31, 29, 30,
    23, 24, 25, 26, 8, 9, 77, 75, 5, 6, 79, 7, 3, 4, 76, 65, 12, 11, 10, 78, 89, 90, 45, 81, 92,
    44, 62, 88, 85, 86, 32, 27, 34, 33, 97, 99, 13, 13, 13, 13, 13, 13, 13, 13, 14, 14, 14, 14, 14,
    14, 14, 14, 43, 43, 43, 43, 43, 43, 43, 43, 93, 94, 91, 80, 35, 36, 47, 48, 63, 63, 63, 63, 63,
    63, 63, 63, 63, 63, 63, 63, 63, 63, 63, 63, 87, 87, 87, 87, 87, 87, 87, 87, 87, 87, 87, 87, 87,
    87, 87, 87, 37, 37, 37, 37, 37, 37, 37, 37, 37, 37, 37, 37, 37, 37, 37, 37, 37, 37, 37, 37, 37,
    37, 37, 37, 37, 37, 37, 37, 37, 37, 37, 37, 46, 46, 46, 46, 46, 46, 46, 46, 49, 49, 15, 66, 16,
    17, 200, 82, 201, 201, 201, 201, 201, 201, 201, 201, 202, 202, 202, 202, 202, 202, 202, 202,
    64, 64, 64, 64, 64, 64, 64, 64, 64, 64, 64, 64, 64, 64, 64, 64, 58, 54, 57, 56, 55, 53, 52, 59,
    96, 95, 98, 51, 84, 83, 60, 50,
];

// The table, for callers that decode more than one word: made once, it is lent to each `decode_by`.
#[tactic(auto, unfolding(crate::specs::Table::kind_table))]
pub fn kinds() -> [u8; 256]
    ensures { result ≡ kind_table }
{
    KINDS
}

// A low byte is IDDD DDDD where its modification is not the reserved one.
#[tactic(auto, unfolding(instructions::specs::Encoding::low_fits))]
pub fn is_operand(low: u8) -> bool
    ensures { result ≡ low_fits "IDDD DDDD" low }
{
    low / 16 != 11
}

#[tactic(auto, unfolding(instructions::specs::Encoding::low_fits))]
pub fn is_indirect(low: u8) -> bool
    ensures { result ≡ low_fits "1DDD DDDD" low }
{
    low >= 128 && low / 16 != 11
}
