// What is shown of the lent slices: the fetch window and the words sent.
#![tactic(auto)]

ghost use Rattle.std.specs.Prelude.{◌≡◌};
ghost use Rattle.board.specs.Windows.{window_of, window_start, window_answer, window_shown, window_shown_start, words_sent_answer, words_sent};

use answers::{Answer, Refusal};
use machine::Machine;
use regions::{in_program_b0, in_rom, program_present};
use slices::{memories_fit, part, port_fits};

// The run of words from a program address to the end of its region, in whichever of the two memories holds it. Both are parameters, and no struct, since the
// contract says where in which of the two a window begins.
#[tactic(auto, unfolding(board::specs::Windows::window_of, board::specs::Windows::window_start), using(board::specs::RegionLaws::program_b0))]
pub fn region_window<'a>(cnf: u8, at: u16, rom: &'a [u16], data: &'a [u16]) -> &'a [u16]
    ensures result_value { result.now ≡ window_of cnf at rom.now «data».now }
    ensures ref_ptr_value { result.ref_ptr ≡ window_start cnf at rom.entry «data».entry }
{
    let from = usize::from(at);
    if in_rom(at) {
        return part(rom, from, 0x1000);
    }
    if in_program_b0(cnf, at) {
        return part(data, from - 0xFF00 + 0x200, 0x300);
    }
    &rom[..0]
}

// The answer to asking for a fetch window.
#[tactic(auto, unfolding(board::specs::Windows::window_answer))]
pub fn window_answer(m: Machine, at: u16, rom: &[u16], data: &[u16]) -> Answer
    ensures { result ≡ window_answer m at rom.now «data».now }
{
    if !m.in_range() {
        return Err(Refusal::CellOutOfRange);
    }
    if !memories_fit(rom, data) {
        return Err(Refusal::SlicesUnfit);
    }
    if !program_present(m.cnf, at) {
        return Err(Refusal::ProgramAbsent);
    }
    Ok(())
}

// The fetch window, empty on a refusal: a function that could not fail still cannot, and `window_answer` says why it is empty.
#[tactic(auto, unfolding(board::specs::Windows::window_shown, board::specs::Windows::window_shown_start))]
pub fn window<'a>(m: Machine, at: u16, rom: &'a [u16], data: &'a [u16]) -> &'a [u16]
    ensures result_value { result.now ≡ window_shown m at rom.now «data».now }
    ensures ref_ptr_value { result.ref_ptr ≡ window_shown_start m at rom.entry «data».entry }
{
    if window_answer(m, at, rom, data).is_ok() {
        return region_window(m.cnf, at, rom, data);
    }
    &rom[..0]
}

// The answer to asking for the words sent.
#[tactic(auto, unfolding(board::specs::Windows::words_sent_answer))]
pub fn words_sent_answer(m: Machine, output: &[u16]) -> Answer
    ensures { result ≡ words_sent_answer m output.now }
{
    if !m.in_range() {
        return Err(Refusal::CellOutOfRange);
    }
    if !port_fits(output.len(), m.output_cursor) {
        return Err(Refusal::SlicesUnfit);
    }
    Ok(())
}

// The words sent on port 1: the first part of the output slice, up to the cursor; empty on a refusal, as `window`.
#[tactic(auto, unfolding(board::specs::Windows::words_sent))]
pub fn words_sent<'a>(m: Machine, output: &'a [u16]) -> &'a [u16]
    ensures result_value { result.now ≡ words_sent m output.now }
    ensures ref_ptr_value { result.ref_ptr ≡ output.entry.ref_ptr }
{
    if words_sent_answer(m, output).is_ok() {
        let sent = usize::from(m.output_cursor);
        return &output[..sent];
    }
    &output[..0]
}
