// The one line that a run file gives.
#![tactic(auto)]

ghost use Rattle.std.specs.Prelude.{◌≡◌};
ghost use Rattle.line_fields.specs.Placing.{line_in, length_in};
ghost use Rattle.line.specs.Lines.{line_of, refused_line};

use answers::{Answer, number};
use line_fields::fitting::{Fields, fit_number};
use machine::Machine;
use windows::words_sent;

// The line of a run, from the answer, the steps and the machine that it left: at the start of lent bytes, and its length; where it does not
// fit, 0 and no byte is put down.
pub fn run_line(m: Machine, answer: Answer, steps: u16, output: &[u16], bytes: &mut [u8]) -> usize
    ensures { (result ≡ length_in (line_of answer steps m output.now) bytes.old) × (bytes.new ≡ line_in (line_of answer steps m output.now) bytes.old) }
{
    let fields = Fields {
        answer: u32::from(number(answer)),
        steps: u32::from(steps),
        pc: u32::from(m.pc),
        acc: m.acc,
        ov: u32::from(m.ov),
        words: words_sent(m, output),
    };
    fields.fit_line(bytes)
}

// The line of a refused file, in the same way.
pub fn refused_line(answer: Answer, bytes: &mut [u8]) -> usize
    ensures { (result ≡ length_in (refused_line answer) bytes.old) × (bytes.new ≡ line_in (refused_line answer) bytes.old) }
{
    let refused = number(answer);
    fit_number(bytes, u32::from(refused), b'\n')
}
