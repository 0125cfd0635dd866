// The two kinds of line where they fit the lent bytes.
ghost use Rattle.std.specs.Prelude.{◌≡◌, [], ◌∷◌, ◌++◌, ◌+◌, length};
ghost use Rattle.line_digits.specs.Digits.{decimal};
ghost use Rattle.line_fields.specs.Placing.{line_in, length_in};
ghost use Rattle.line_fields.specs.Facts.{cells_of, line_of_fields};

use crate::numbers::Writer;
use line_digits::decimal_length;
use std::marker::Model;

// A line's fields, by name. In a clause a value is the record of specs/Facts.antt.
#[derive(Drop)]
pub struct Fields<'a> {
    pub answer: u32,
    pub steps: u32,
    pub pc: u32,
    pub acc: u32,
    pub ov: u32,
    pub words: &'a [u16],
}

impl<'a> Model for Fields<'a> {
    ghost use Rattle.line_fields.specs.Facts.{Fields};

    ghost Value = { Fields };

    ghost view = { λ f. record { answer = f.answer; steps = f.steps; pc = f.pc; acc = f.acc; ov = f.ov; words = f.words.now } };
}

impl<'a> Fields<'a> {
    ghost use Rattle.line_fields.specs.Writing.{Fits, Wrote};

    // How many bytes a line has beside its words: the decimal fields, and 17 for PC, ACC, the spaces and the newline.
    #[tactic(auto, using(line_digits::specs::DigitLaws::decimal_most))]
    fn cells_length(&self) -> usize
        ensures { result ≡ length (decimal self.now.answer) + length (decimal self.now.steps) + length (decimal self.now.ov) + 17 }
    {
        decimal_length(self.answer) + decimal_length(self.steps) + decimal_length(self.ov) + 17
    }

    // The answer and the cells.
    #[tactic(auto, using(crate::proofs::Cells::answer_room, crate::proofs::Cells::steps_room, crate::proofs::Cells::pc_room, crate::proofs::Cells::acc_room, crate::proofs::Cells::ov_room))]
    fn put_cells(&self, writer: &mut Writer<'_>)
        requires { Fits writer.old (cells_of self.now) }
        ensures { Wrote writer.old (cells_of self.now) writer.new }
    {
        writer.decimal(self.answer);
        writer.decimal_field(self.steps);
        writer.word_field(self.pc);
        writer.long_field(self.acc);
        writer.decimal_field(self.ov);
    }

    // The fields and the newline.
    #[tactic(auto, using(crate::proofs::Cells::cells_room, crate::proofs::Cells::sent_room, crate::proofs::Cells::newline_room))]
    fn put_line(&self, writer: &mut Writer<'_>)
        requires { Fits writer.old (line_of_fields self.now) }
        ensures { Wrote writer.old (line_of_fields self.now) writer.new }
    {
        self.put_cells(writer);
        writer.word_fields(self.words);
        writer.byte(b'\n');
    }

    // The line at the start of lent bytes, and its length; where it does not fit, 0 and no byte is put down.
    pub fn fit_line(&self, bytes: &mut [u8]) -> usize
        ensures { (result ≡ length_in (line_of_fields self.now) bytes.old) × (bytes.new ≡ line_in (line_of_fields self.now) bytes.old) }
    {
        // the words first, five bytes each, so that no sum of lengths passes 64 bits
        if bytes.len() / 5 < self.words.len() {
            return 0;
        }
        if bytes.len() - 5 * self.words.len() < self.cells_length() {
            return 0;
        }
        let mut writer = Writer { bytes, at: 0 };
        self.put_line(&mut writer);
        writer.at
    }
}

// A number in decimal and the byte that ends its line, in the same way.
pub fn fit_number(bytes: &mut [u8], n: u32, end: u8) -> usize
    ensures { (result ≡ length_in (decimal n ++ (end ∷ [])) bytes.old) × (bytes.new ≡ line_in (decimal n ++ (end ∷ [])) bytes.old) }
{
    if bytes.len() < decimal_length(n) + 1 {
        return 0;
    }
    let mut writer = Writer { bytes, at: 0 };
    writer.decimal(n);
    writer.byte(end);
    writer.at
}
