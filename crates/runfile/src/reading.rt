// Reading a run file: its answer, its counts and its budget.
ghost use Rattle.std.specs.Prelude.{◌≡◌};
ghost use Rattle.answers.specs.Answers.{where_done};
ghost use Rattle.runfile.specs.Files.{read_answer, read_contents, numbers_of, counts_of, head_of};

use crate::numbers::{EightNumbers, HEAD_BYTES, VERSION, numbers_of, rules_kept};
use answers::{Answer, Refusal};

// How many words each of a file's lists has, and its budget.
#[derive(Clone, Copy, Debug, PartialEq, Eq)]
pub struct Head {
    pub program_count: u16,
    pub data_count: u16,
    pub input_count: u16,
    pub budget: u16,
}

impl From<EightNumbers> for Head {
    ghost from_gives = { λ n head. head ≡ counts_of n };

    fn from(n: EightNumbers) -> Head {
        Head {
            program_count: n.program_count,
            data_count: n.data_count,
            input_count: n.input_count,
            budget: n.budget,
        }
    }
}

const NO_CONTENTS: Head = Head {
    program_count: 0,
    data_count: 0,
    input_count: 0,
    budget: 0,
};

// A file's eight numbers, or why it is refused: 20, 21 and 22 in order.
#[tactic(auto, unfolding(crate::specs::Files::read_answer))]
pub fn read(bytes: &[u8]) -> Result<EightNumbers, Refusal>
    ensures { result ≡ where_done (read_answer bytes.now) (numbers_of bytes.now) }
{
    if bytes.len() < HEAD_BYTES {
        return Err(Refusal::FileShort);
    }
    let n = numbers_of(bytes);
    if n.version != VERSION {
        return Err(Refusal::FileVersion);
    }
    if !rules_kept(n, bytes.len()) {
        return Err(Refusal::FileRules);
    }
    Ok(n)
}

// What reading a file answers.
pub fn read_answer(bytes: &[u8]) -> Answer
    ensures { result ≡ read_answer bytes.now }
{
    read(bytes)?;
    Ok(())
}

// The counts and the budget of a file; 0 each where it is refused, and no `Result`: it could not fail before `read` stood beside it.
pub fn head_of(bytes: &[u8]) -> Head
    ensures { result ≡ head_of (read_contents bytes.now) }
{
    read(bytes).map_or(NO_CONTENTS, Head::from)
}
