// A line's fields, each with its space in front.
ghost use Rattle.std.specs.Prelude.{◌∷◌};
ghost use Rattle.line_digits.specs.Digits.{hexadecimal, decimal};
ghost use Rattle.line_fields.specs.Placing.{space};
ghost use Rattle.line_fields.specs.Facts.{word_fields};

use crate::numbers::Writer;

impl<'a> Writer<'a> {
    ghost use Rattle.line_fields.specs.Writing.{Fits, Wrote};

    // A space and a number in decimal. One function for it and the next would take the digits' method as a closure with a contract of its own: no plainer.
    #[tactic(auto, using(crate::specs::Writing::wrote_then))]
    pub fn decimal_field(&mut self, n: u32)
        requires { Fits self.old (space ∷ decimal n) }
        ensures { Wrote self.old (space ∷ decimal n) self.new }
    {
        self.byte(b' ');
        self.decimal(n);
    }

    // A space and four hexadecimal digits.
    #[tactic(auto, using(crate::specs::Writing::wrote_then))]
    pub fn word_field(&mut self, n: u32)
        requires { Fits self.old (space ∷ hexadecimal 4 n) }
        ensures { Wrote self.old (space ∷ hexadecimal 4 n) self.new }
    {
        self.byte(b' ');
        self.four(n);
    }

    // A space and eight hexadecimal digits.
    pub fn long_field(&mut self, n: u32)
        requires { Fits self.old (space ∷ hexadecimal 8 n) }
        ensures { Wrote self.old (space ∷ hexadecimal 8 n) self.new }
    {
        self.word_field(n / 65536);
        self.four(n);
    }

    // The words sent.
    #[tactic(auto, using(crate::specs::Writing::word_fits))]
    pub fn word_fields(&mut self, words: &[u16])
        requires { Fits self.old (word_fields words.now) }
        ensures { Wrote self.old (word_fields words.now) self.new }
    {
        for word in words {
            self.word_field(u32::from(*word));
        }
    }
}
