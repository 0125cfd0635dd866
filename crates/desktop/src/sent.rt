// The words sent; passed on, as run files are.
ghost use Rattle.std.specs.Prelude.{◌≡◌};
ghost use Rattle.c_words_sent.specs.Sent.{counted, sent_called};

use c_words_sent::count_sent;

// How many words were sent: they are the first of the output slice.
pub fn crowmitten_words_sent(cells: &[u32], output: &[u16], count: &mut usize) -> u32
    ensures { counted result count.new ≡ sent_called cells.now output.now }
{
    count_sent(cells, output, count)
}
