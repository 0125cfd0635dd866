// The words sent of a machine in numbers.
#![tactic(auto)]

ghost use Rattle.std.specs.Prelude.{◌≡◌};
ghost use Rattle.c_words_sent.specs.Sent.{counted, sent_called};
ghost use Rattle.c_words_sent.specs.CallLaws.{counted_by};

use answers::{Refusal, number_of};
use c_cells::reading::checked_machine;
use windows::{words_sent, words_sent_answer};

// How many words were sent, or why none are shown.
#[tactic(auto, unfolding(crate::specs::Sent::sent_called, c_cells::specs::Checks::checked_machine, board::specs::Windows::words_sent))]
fn sent_count(cells: &[u32], output: &[u16]) -> Result<usize, Refusal>
    ensures { counted_by result ≡ sent_called cells.now output.now }
{
    let m = checked_machine(cells)?;
    words_sent_answer(m, output)?;
    Ok(words_sent(m, output).len())
}

// How many words were sent: they are the first of the output slice.
pub fn count_sent(cells: &[u32], output: &[u16], count: &mut usize) -> u32
    ensures { counted result count.new ≡ sent_called cells.now output.now }
{
    match sent_count(cells, output) {
        Ok(sent) => {
            *count = sent;
            0
        }
        Err(refusal) => {
            *count = 0;
            number_of(Err(refusal))
        }
    }
}
