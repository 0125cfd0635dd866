// What a run hands out beside the machine, by its places in a slice of numbers.
#![tactic(auto)]

ghost use Rattle.std.specs.Prelude.{◌≡◌};
ghost use Rattle.c_results.specs.Results.{results_fit, results_after};

use steps::Outside;

// How many numbers the results are: CROWMITTEN_RESULTS of the header.
pub const RESULTS: usize = 3;

// As `summary_fits` of a summary: a length and a definition of its own.
#[tactic(auto, unfolding(crate::specs::Results::results_fit))]
pub fn results_fit(results: &[u32]) -> bool
    ensures { result ≡ results_fit results.now }
{
    results.len() == RESULTS
}

// Into a slice of their number; any other is left as it is.
#[tactic(auto, unfolding(crate::specs::Results::results_after, crate::specs::Results::results_fit))]
pub fn put_results(results: &mut [u32], steps: u16, outside: Outside)
    ensures { results.new ≡ results_after results.old steps outside }
{
    if results_fit(results) {
        results.copy_from_slice(&[
            u32::from(steps),
            u32::from(outside.reads),
            u32::from(outside.writes),
        ]);
    }
}
