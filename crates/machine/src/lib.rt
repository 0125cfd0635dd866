#![tactic(auto)]

ghost use Rattle.std.specs.Prelude.{◌≡◌};
ghost use Rattle.machine.specs.Reset.{reset_machine};
ghost use Rattle.machine.specs.Range.{in_range};
ghost use Rattle.machine.specs.Stack.{push_on, pop_on};

use hardware_stack::Stack;

// The cells of document 01, "The cells of the machine". Flags and pointers are numbers, so that check 1, `in_range`, can find one out of its range.
#[derive(Clone, Copy, Debug, PartialEq, Eq)]
pub struct Machine {
    pub stack: Stack,
    pub acc: u32,
    pub p: u32,
    pub t: u16,
    pub pc: u16,
    pub pfc: u16,
    pub ar: [u16; 8],
    pub arp: u8,
    pub arb: u8,
    pub dp: u16,
    pub pm: u8,
    pub ov: u8,
    pub ovm: u8,
    pub sxm: u8,
    pub c: u8,
    pub cnf: u8,
    // 16 bits, so that the cells fill the struct: a byte between them would be written by nobody and read along with RPTC.
    pub mid: u16,
    pub rptc: u16,
    pub input_cursor: u16,
    pub output_cursor: u16,
}

// A machine after a pop, and the word that was popped.
#[derive(Clone, Copy, Debug, PartialEq, Eq)]
pub struct AfterPop {
    pub m: Machine,
    pub word: u16,
}

impl Machine {
    // The largest number that each cell may hold; FLAG_MAX is that of OV, OVM, SXM, C and CNF.
    pub const ARP_MAX: u8 = 7;

    pub const ARB_MAX: u8 = 7;

    pub const DP_MAX: u16 = 511;

    pub const PM_MAX: u8 = 3;

    pub const FLAG_MAX: u8 = 1;

    pub const MID_MAX: u16 = 1;

    pub const RPTC_MAX: u16 = 255;

    pub const CURSOR_MAX: u16 = 1024;

    // The machine after reset (guide, section 3.6.3).
    #[tactic(auto, unfolding(crate::specs::Reset::reset_machine))]
    pub fn reset() -> Machine
        ensures { result ≡ reset_machine }
    {
        Machine {
            stack: Stack { words: [0; 8] },
            acc: 0,
            p: 0,
            t: 0,
            pc: 0,
            pfc: 0,
            ar: [0; 8],
            arp: 0,
            arb: 0,
            dp: 0,
            pm: 0,
            ov: 0,
            ovm: 0,
            sxm: 1,
            c: 1,
            cnf: 0,
            mid: 0,
            rptc: 0,
            input_cursor: 0,
            output_cursor: 0,
        }
    }

    // Check 1: every cell is within its stated range.
    pub fn in_range(self) -> bool
        ensures { result ≡ in_range self }
    {
        (self.arp <= Machine::ARP_MAX)
            & (self.arb <= Machine::ARB_MAX)
            & (self.dp <= Machine::DP_MAX)
            & (self.pm <= Machine::PM_MAX)
            & (self.ov <= Machine::FLAG_MAX)
            & (self.ovm <= Machine::FLAG_MAX)
            & (self.sxm <= Machine::FLAG_MAX)
            & (self.c <= Machine::FLAG_MAX)
            & (self.cnf <= Machine::FLAG_MAX)
            & (self.mid <= Machine::MID_MAX)
            & (self.rptc <= Machine::RPTC_MAX)
            & (self.input_cursor <= Machine::CURSOR_MAX)
            & (self.output_cursor <= Machine::CURSOR_MAX)
    }
}

// The machine with a word pushed, in the place where it holds its stack: document 01 says so, and no struct update does.
pub fn push_on(m: Machine, word: u16) -> Machine
    ensures { result ≡ push_on m word }
{
    let mut n = m;
    n.stack.push(word);
    n
}

// The machine with a word popped, in the place where it holds its stack, and the word.
pub fn pop_on(m: Machine) -> AfterPop
    ensures { result ≡ pop_on m }
{
    let mut n = m;
    let word = n.stack.pop();
    AfterPop { m: n, word }
}
