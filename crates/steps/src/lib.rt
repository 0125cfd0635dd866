// A pass, a step and a run as definitions, in specs/ alone: the functions that do them stand above. Here are only the types of a store, of what is counted
// in external RAM, and of a pass.
#![tactic(auto)]

use machine::Machine;

// The one store of a step; nothing is a case beside the others, as in pages' `Store`. An address is that of document 01, before it is known to be on the board.
#[derive(Clone, Copy, Debug, PartialEq, Eq)]
pub enum Write {
    Nothing,
    Data(u32, u16),
    Sent(u16, u16),
}

// Data reads from external RAM, and data writes to it (document 02, request 7).
#[derive(Clone, Copy, Debug, PartialEq, Eq)]
pub struct Outside {
    pub reads: u16,
    pub writes: u16,
}

impl Outside {
    pub const NONE: Outside = Outside {
        reads: 0,
        writes: 0,
    };
}

// What a pass that is not refused makes of the machine, what it stores and what it counts. A refusal has none of it.
#[derive(Clone, Copy, Debug, PartialEq, Eq)]
pub struct Pass {
    pub m: Machine,
    pub write: Write,
    pub outside: Outside,
}
