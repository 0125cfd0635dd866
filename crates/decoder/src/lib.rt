// The decoder: a table of the 256 upper bytes gives the kind, and the low byte the page. Kinds and places are numbers and no enums: `decode_by`
// promises its answer for every table of bytes, and a place is the number that the definition `meaning_at` counts the pages by.
#![tactic(auto)]

ghost use Rattle.std.specs.Prelude.{◌≡◌, get_or};
ghost use Rattle.instructions.specs.Decode.{decode_of};
ghost use Rattle.instructions.specs.Places.{lower_in};
ghost use Rattle.kinds.specs.Kinds.{is_addressed, is_branch, place_of_kind, group_of};
ghost use Rattle.kinds.specs.Groups.{control_place, controls, long_place};
ghost use Rattle.decoder.specs.ByTable.{decode_by};

use instructions::Decoded;

// The pages with the upper byte CEh.
const CONTROL: u8 = 200;
// The long immediates, D0h to D7h; from D8h on they are without LRLK.
const LONG: u8 = 201;
// The place that says that no page has the word.
const NO_PAGE: u8 = 133;

// The places of CEh's pages, for the low bytes below 64.
const CONTROLS: [u8; 64] = [
    104, 103, 68, 67, 71, 72, 70, 69, 41, 41, 41, 41, 114, 120, 105, 105, 133, 133, 133, 133, 38,
    39, 40, 133, 21, 22, 133, 20, 73, 74, 121, 106, 113, 119, 133, 19, 101, 100, 61, 18, 133, 133,
    133, 133, 133, 133, 133, 133, 107, 115, 112, 118, 110, 111, 108, 116, 109, 117, 133, 133, 133,
    133, 133, 133,
];

fn kind_of(kinds: &[u8], upper: u8) -> u8
    ensures { result ≡ get_or kinds.now upper 0 }
{
    kinds.get(usize::from(upper)).copied().unwrap_or(0)
}

// CEh and a low byte: above 63 there are CMPR (0101 00KK) and NORM (1MMM 0010).
#[tactic(auto, unfolding(kinds::specs::Groups::control_place, kinds::specs::Groups::controls))]
fn control_of(low: u8) -> u8
    ensures { result ≡ control_place controls low }
{
    if low < 64 {
        CONTROLS[usize::from(low)]
    } else if low / 4 == 20 {
        102
    } else if low >= 128 && low % 16 == 2 && low / 16 != 11 {
        122
    } else {
        NO_PAGE
    }
}

// A long immediate's low byte: 0 (LRLK) or 1 to 6.
#[tactic(auto, unfolding(kinds::specs::Groups::long_place))]
fn long_of(least: u8, low: u8) -> u8
    ensures { result ≡ long_place least low }
{
    if least <= low && low < 7 {
        123 + low
    } else {
        NO_PAGE
    }
}

#[tactic(auto, using(kinds::specs::Groups::control_place_lem, kinds::specs::Groups::long_place_lem, kinds::specs::Groups::long_place_1, kinds::specs::Groups::group_else))]
fn group_page(kind: u8, low: u8) -> u8
    ensures { result ≡ lower_in 133 (group_of kind) low }
{
    match kind {
        CONTROL => control_of(low),
        LONG => long_of(0, low),
        _ => long_of(1, low),
    }
}

// The kinds with a low byte IDDD DDDD.
#[tactic(auto, unfolding(kinds::specs::Kinds::is_addressed))]
fn is_addressed(kind: u8) -> bool
    ensures { result ≡ is_addressed kind }
{
    matches!(kind, 0..=14 | 23..=36 | 42..=45 | 62..=65 | 75..=94)
}

// The kinds with a low byte 1DDD DDDD.
#[tactic(auto, unfolding(kinds::specs::Kinds::is_branch))]
fn is_branch(kind: u8) -> bool
    ensures { result ≡ is_branch kind }
{
    matches!(kind, 50..=60 | 95..=99)
}

// The place of the page of a kind and a low byte.
#[tactic(auto, unfolding(kinds::specs::Kinds::place_of_kind))]
fn page_of(kind: u8, low: u8) -> u8
    ensures { result ≡ place_of_kind kind low }
{
    let fits = if is_addressed(kind) {
        kinds::is_operand(low)
    } else if is_branch(kind) {
        kinds::is_indirect(low)
    } else if kind < CONTROL {
        true
    } else {
        return group_page(kind, low);
    };
    if fits { kind } else { NO_PAGE }
}

// What a word is by a table of kinds.
#[tactic(auto, unfolding(crate::specs::ByTable::decode_by))]
pub fn decode_by(kinds: &[u8], w: u16) -> Decoded
    ensures { result ≡ decode_by kinds.now w }
{
    let kind = kind_of(kinds, (w / 256) as u8);
    meanings::meaning(page_of(kind, (w % 256) as u8), w)
}

// What a word is.
#[tactic(auto, using(crate::specs::TableLaws::decode_by_kinds))]
pub fn decode(w: u16) -> Decoded
    ensures { result ≡ decode_of w }
{
    let table = kinds::kinds();
    decode_by(&table, w)
}
