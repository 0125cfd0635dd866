// Numbers as text, put down in lent bytes. Not by `write!`: std's `fmt::Write` promises the text where it answers Ok and does not say when it does, and
// `fit_line` promises its bytes for every line that fits.
ghost use Rattle.std.specs.Prelude.{[], ◌∷◌};
ghost use Rattle.line_digits.specs.Digits.{hexadecimal, decimal};

use line_digits::digit;

// Lent bytes, and where the next byte goes.
#[derive(Drop)]
pub struct Writer<'a> {
    pub bytes: &'a mut [u8],
    pub at: usize,
}

impl<'a> Writer<'a> {
    ghost use Rattle.line_fields.specs.Writing.{Fits, Wrote};

    // One byte.
    pub fn byte(&mut self, byte: u8)
        requires { Fits self.old (byte ∷ []) }
        ensures { Wrote self.old (byte ∷ []) self.new }
    {
        self.bytes[self.at] = byte;
        self.at += 1;
    }

    // The last four hexadecimal digits of a number.
    pub fn four(&mut self, n: u32)
        requires { Fits self.old (hexadecimal 4 n) }
        ensures { Wrote self.old (hexadecimal 4 n) self.new }
    {
        let without_last = n / 16;
        let without_two = without_last / 16;
        self.byte(digit(without_two / 16));
        self.byte(digit(without_two));
        self.byte(digit(without_last));
        self.byte(digit(n));
    }

    // A number in decimal.
    #[tactic(auto, using(crate::specs::Writing::more_fits))]
    pub fn decimal(&mut self, n: u32)
        requires { Fits self.old (decimal n) }
        ensures { Wrote self.old (decimal n) self.new }
    {
        if n < 10 {
            self.byte(digit(n));
            return;
        }
        self.decimal(n / 10);
        self.byte(digit(n % 10));
    }
}
