// What is on the board, what is lent for it and what is shown of it: the definitions in specs/, and here the types of a region, of a word that was found, and
// of what a step is lent. The functions of a step stand above.
#![tactic(auto)]

ghost use Rattle.std.specs.Prelude.{◌≡◌};
ghost use Rattle.board.specs.Given.{given};
ghost use Rattle.board.specs.Lent.{LentWords};

use std::marker::Model;

// Where a data address lies. One function, data_region, knows the ranges, and asks first for the one that frames lie in. Absent is a case of that definition beside
// the four: an `Option` round them would nest each test.
#[derive(Clone, Copy, Debug, PartialEq, Eq)]
pub enum Region {
    Absent,
    B2,
    B0,
    B1,
    External,
}

// What the routine that finds a data word answers with: the word, 0 where there is none (`found_at`), and where it lies (document 02, request 7).
#[derive(Clone, Copy, Debug, PartialEq, Eq)]
pub struct Found {
    pub word: u16,
    pub region: Region,
}

// The slices that a step is lent, as its plan reads them: the program memory, the data memory, the input, and how long the output is.
#[derive(Drop)]
pub struct Lent<'a> {
    rom: &'a [u16],
    data: &'a [u16],
    input: &'a [u16],
    output_length: usize,
}

impl<'a> Model for Lent<'a> {
    ghost Value = { LentWords };

    ghost view = { λ l. record { given = given l.rom.now l.input.now; «data» = l.«data».now; output_length = l.output_length; rom_start = l.rom.ref_ptr; data_start = l.«data».ref_ptr; input_start = l.input.ref_ptr } };
}

impl<'a> Lent<'a> {
    #[inline(always)]
    pub fn new(rom: &'a [u16], data: &'a [u16], input: &'a [u16], output_length: usize) -> Lent<'a>
        ensures { result ≡ record { given = given rom.now input.now; «data» = «data».now; output_length = output_length; rom_start = rom.entry.ref_ptr; data_start = «data».entry.ref_ptr; input_start = input.entry.ref_ptr } }
    {
        Lent {
            rom,
            data,
            input,
            output_length,
        }
    }

    #[inline(always)]
    pub fn rom(&self) -> &'a [u16]
        ensures words { result.now ≡ self.now.given.rom }
        ensures place { result.ref_ptr ≡ self.now.rom_start }
    {
        self.rom
    }

    #[inline(always)]
    pub fn data(&self) -> &'a [u16]
        ensures words { result.now ≡ self.now.«data» }
        ensures place { result.ref_ptr ≡ self.now.data_start }
    {
        self.data
    }

    #[inline(always)]
    pub fn input(&self) -> &'a [u16]
        ensures words { result.now ≡ self.now.given.input }
        ensures place { result.ref_ptr ≡ self.now.input_start }
    {
        self.input
    }

    #[inline(always)]
    pub fn output_length(&self) -> usize
        ensures { result ≡ self.now.output_length }
    {
        self.output_length
    }
}
