// A summary of the stores into the data slice, by data page (document 02, request 12): what a step adds to it, and a fresh one.
#![tactic(auto)]

ghost use Rattle.std.specs.Prelude.{◌≡◌, ◌+◌, min};
ghost use Rattle.steps.specs.Summary.{summary_fits, summary_answer, reset_summary, word_counted, store_counted};

use answers::{Answer, Refusal};
use steps::Write;

// The numbers of a summary.
pub const SUMMARY: usize = 64;

// The first of those with OV at 1.
const CLIPPED: usize = 32;

const DATA_PAGE_WORDS: u32 = 128;

const DATA_WORDS: u32 = 4096;

// A length and a definition of its own, as `results_fit` of the library for C has.
#[tactic(auto, unfolding(steps::specs::Summary::summary_fits))]
pub fn summary_fits(summary: &[u16]) -> bool
    ensures { result ≡ summary_fits summary.now }
{
    summary.len() == SUMMARY
}

// A fresh summary, whatever it held. A slice of another length is refused and left as it is.
#[tactic(auto, unfolding(steps::specs::Summary::summary_answer, steps::specs::Summary::reset_summary, steps::specs::Summary::summary_fits))]
pub fn reset_summary(summary: &mut [u16]) -> Answer
    ensures answered { result ≡ summary_answer summary.old }
    ensures fresh { summary.new ≡ reset_summary summary.old }
{
    if !summary_fits(summary) {
        return Err(Refusal::SummaryUnfit);
    }
    summary.fill(0);
    Ok(())
}

// "Both stop at 65,535."
fn one_more(count: u16) -> u16
    ensures { result ≡ min 65535 (count + 1) }
{
    count.saturating_add(1)
}

// The two numbers of a page. Whether both places are there is asked once, of the summary's length and the address: asked of each place by itself it takes
// more instructions, also of steps that store nothing (docs/PERFORMANCE.md).
#[tactic(auto, unfolding(steps::specs::Summary::word_counted, steps::specs::Summary::page_counted, steps::specs::Summary::counted_at, steps::specs::Summary::summary_fits))]
fn count_word(summary: &mut [u16], address: u32, ov: u8)
    ensures { summary.new ≡ word_counted address ov summary.old }
{
    let page = (address / DATA_PAGE_WORDS) as usize;
    if (summary.len() == SUMMARY) & (address < DATA_WORDS) {
        summary[page] = one_more(summary[page]);
        if ov == 1 {
            summary[CLIPPED + page] = one_more(summary[CLIPPED + page]);
        }
    }
}

// What a step's store adds, with OV as the step leaves it.
#[tactic(auto, unfolding(steps::specs::Summary::store_counted))]
pub fn count_store(summary: &mut [u16], write: Write, ov: u8)
    ensures { summary.new ≡ store_counted write ov summary.old }
{
    match write {
        Write::Nothing => {}
        Write::Data(address, word) => count_word(summary, address, ov),
        Write::Sent(at, word) => {}
    }
}
