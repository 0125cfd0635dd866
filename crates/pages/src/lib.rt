// What the pages say, in specs/ alone: the functions that do it stand above, a crate for each family. Here are only the types that they share.
#![tactic(auto)]

use machine::Machine;
use operands::Address;

// Whether the addressed data word is read, written, or not touched. Not an `Option`: `find_operand` and `outside_by` ask for the three cases side by side.
#[derive(Clone, Copy, Debug, PartialEq, Eq)]
pub enum Access {
    None,
    Reads,
    Writes,
}

// The port that an instruction takes a word from or sends one to; three cases side by side, as `is_wrong_port` and `is_port_spent` ask.
#[derive(Clone, Copy, Debug, PartialEq, Eq)]
pub enum Port {
    None,
    Input(u8),
    Output(u8),
}

#[derive(Clone, Copy, Debug, PartialEq, Eq)]
pub struct Traits {
    pub words: u16,
    pub port: Port,
    pub repeatable: bool,
    pub access: Access,
    // A MAC or MACD reads a program word besides.
    pub table: bool,
    // What the address field asks for; None where there is none.
    pub operand: Option<Address>,
}

// The words that a pass reads. What the instruction does not use is not looked at.
#[derive(Clone, Copy, Debug, PartialEq, Eq)]
pub struct Words {
    // The data word at the operand's address.
    pub operand: u16,
    // The instruction's second word.
    pub second: u16,
    // The program word of a MAC or MACD, and the address that it was read at.
    pub table: u16,
    pub at: u16,
    // The next word of the input, 0 where there is none: an IN is refused then.
    pub next: u16,
}

// What a pass stores besides the machine's cells. Nothing is one of four cases, and no `Option`: each match asks for all of them.
#[derive(Clone, Copy, Debug, PartialEq, Eq)]
pub enum Store {
    Nothing,
    // A data word, at the operand's address.
    Word(u16),
    // The operand's word, copied to the next address by a data move where one is allowed there.
    Move(u16),
    // A word sent on port 1.
    Sent(u16),
}

// The machine after a page's rule, RPTC, MID and PC not yet moved on, and what is to be stored.
#[derive(Clone, Copy, Debug, PartialEq, Eq)]
pub struct Effect {
    pub m: Machine,
    pub store: Store,
    // Where the instruction sends PC; where it sends it nowhere, PC moves past the instruction's words.
    pub jump: Option<u16>,
}
