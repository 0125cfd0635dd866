#![tactic(auto)]

ghost use Rattle.std.specs.Prelude.{◌≡◌, Err};
ghost use Rattle.answers.specs.Numbers.{number_of};

// The refusals of document 01, "Numbers that come back", and those that document 02 adds; specs/Numbers.antt has when each is given.
#[derive(Clone, Copy, Debug, PartialEq, Eq)]
pub enum Refusal {
    CellOutOfRange,
    SlicesUnfit,
    NoEncoding,
    NotBuilt,
    ProgramAbsent,
    DataAbsent,
    NotRepeatable,
    WrongPort,
    OutputFull,
    InputDry,
    SummaryUnfit,
    FileShort,
    FileVersion,
    FileRules,
    FileNoRoom,
}

// What a call answers that gives nothing else: done, or why not.
pub type Answer = Result<(), Refusal>;

// The number that the paper gives to a refusal.
impl From<Refusal> for u8 {
    ghost from_gives = { λ refusal n. n ≡ number_of (Err refusal) };

    fn from(refusal: Refusal) -> u8 {
        match refusal {
            Refusal::CellOutOfRange => 1,
            Refusal::SlicesUnfit => 2,
            Refusal::NoEncoding => 3,
            Refusal::NotBuilt => 4,
            Refusal::ProgramAbsent => 5,
            Refusal::DataAbsent => 6,
            Refusal::NotRepeatable => 7,
            Refusal::WrongPort => 9,
            Refusal::OutputFull => 10,
            Refusal::InputDry => 11,
            Refusal::SummaryUnfit => 14,
            Refusal::FileShort => 20,
            Refusal::FileVersion => 21,
            Refusal::FileRules => 22,
            Refusal::FileNoRoom => 23,
        }
    }
}

// The number that the paper gives to an answer: 0 where no refusal is given. No `From`, since `Result` is std's.
pub fn number(answer: Answer) -> u8
    ensures { result ≡ number_of answer }
{
    match answer {
        Ok(()) => 0,
        Err(refusal) => u8::from(refusal),
    }
}

// The number of an answer in 32 bits, as the library for C gives it.
pub fn number_of(answer: Answer) -> u32
    ensures { result ≡ number_of answer }
{
    u32::from(number(answer))
}
