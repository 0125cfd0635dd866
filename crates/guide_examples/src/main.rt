// Runs the cases of cases.txt through the library for C and prints the cells and words that each case names. make.py turns that text into
// the lines read here, one act a line of 32 bytes, and into the file that the output is compared with.
//
// A line is `KIND PLACE VALUE LABEL`: N begins a case and prints its label, S puts the value into the place, T does one step, R runs with
// the value as its budget, W does so by the call with results, P prints its label and the place in hexadecimal, E ends the case.
#![tactic(auto)]

ghost use Rattle.std.specs.Prelude.{◌<◌};

use desktop::running::{crowmitten_reset, crowmitten_run, crowmitten_run_with, crowmitten_step};
use desktop::{CELLS, RESULTS};
use filling::fill;
use std::io;
use std::io::Read;

// A case has at most so many lines.
const LINES_MAX: u32 = 1000;

// Each case that is not there takes its time too.
const CASES_MAX: u32 = 600;

#[derive(Clone, Copy, Debug, PartialEq, Eq)]
enum Kind {
    Name,
    Store,
    Step,
    Run,
    RunWithResults,
    Print,
    End,
}

impl Kind {
    // None of any other letter: nothing is done.
    fn of(letter: u8) -> Option<Kind> {
        match letter {
            b'N' => Some(Kind::Name),
            b'S' => Some(Kind::Store),
            b'T' => Some(Kind::Step),
            b'R' => Some(Kind::Run),
            b'W' => Some(Kind::RunWithResults),
            b'P' => Some(Kind::Print),
            b'E' => Some(Kind::End),
            _ => None,
        }
    }
}

// What a place lies in: a memory, the input words, the words sent, the cells; the last answer, and what the last run counted.
#[derive(Clone, Copy, Debug, PartialEq, Eq)]
enum Bank {
    Data,
    Rom,
    Input,
    Output,
    Cells,
    Answer,
    Steps,
    Reads,
    Writes,
}

// A place as make.py numbers it: the first digit is its bank, the others the index in it.
#[derive(Clone, Copy, Debug)]
struct Place {
    bank: Bank,
    at: usize,
}

impl From<u32> for Place {
    fn from(number: u32) -> Place {
        let bank = match number / 0x1000 {
            0 => Bank::Data,
            1 => Bank::Rom,
            2 => Bank::Input,
            3 => Bank::Output,
            4 => Bank::Cells,
            5 => Bank::Answer,
            6 => Bank::Steps,
            7 => Bank::Reads,
            _ => Bank::Writes,
        };
        Place {
            bank,
            at: (number % 0x1000) as usize,
        }
    }
}

// What one line asks for.
#[derive(Clone, Copy, Debug)]
struct Line {
    kind: Option<Kind>,
    place: Place,
    value: u32,
}

impl From<&[u8; 32]> for Line {
    fn from(text: &[u8; 32]) -> Line {
        Line {
            kind: Kind::of(text[0]),
            place: Place::from(number(&text[2..6])),
            value: number(&text[7..15]),
        }
    }
}

// By hand, since what is no hexadecimal digit counts as some digit: every line is read. board_examples has one of 16 bits.
fn digit(byte: u8) -> u32
    ensures { result < 16 }
{
    let low = u32::from(byte % 16);
    if byte < 58 { low } else { (low + 9) % 16 }
}

// The number that hexadecimal digits spell.
fn number(digits: &[u8]) -> u32 {
    digits
        .iter()
        .fold(0, |n, &byte| n % 0x10000000 * 16 + digit(byte))
}

fn low_word(value: u32) -> u16 {
    (value % 65536) as u16
}

fn put<T: Copy>(items: &mut [T], at: usize, item: T) {
    if let Some(slot) = items.get_mut(at) {
        *slot = item;
    }
}

fn word_at(words: &[u16], at: usize) -> u32 {
    u32::from(words.get(at).copied().unwrap_or(0))
}

// How a step or a run ended; only a run counts its steps, and only one with results its external reads and writes.
#[derive(Clone, Copy, Debug, Default)]
struct Run {
    answer: u32,
    steps: u32,
    reads: u32,
    writes: u32,
}

// A machine's cells, what it is lent, and how its last step or run ended.
#[derive(Drop)]
struct Board {
    cells: [u32; CELLS],
    rom: [u16; 4096],
    data: [u16; 4096],
    input: [u16; 4],
    output: [u16; 4],
    last: Run,
}

impl Board {
    fn step(&mut self) {
        let answer = crowmitten_step(
            &mut self.cells,
            &self.rom,
            &mut self.data,
            &self.input,
            &mut self.output,
        );
        self.last = Run {
            answer,
            ..Run::default()
        };
    }

    fn run(&mut self, budget: u16) {
        let mut steps = 0;
        let answer = crowmitten_run(
            &mut self.cells,
            &self.rom,
            &mut self.data,
            &self.input,
            &mut self.output,
            budget,
            &mut steps,
        );
        self.last = Run {
            answer,
            steps,
            ..Run::default()
        };
    }

    // The results hold other numbers before, so that those of a refusal are seen to be written.
    fn run_with_results(&mut self, budget: u16) {
        let mut results = [7; RESULTS];
        let answer = crowmitten_run_with(
            &mut self.cells,
            &self.rom,
            &mut self.data,
            &self.input,
            &mut self.output,
            budget,
            &mut results,
        );
        self.last = Run {
            answer,
            steps: results[0],
            reads: results[1],
            writes: results[2],
        };
    }

    // What is put in a place that is only shown goes to the cells.
    fn store(&mut self, place: Place, value: u32) {
        let word = low_word(value);
        match place.bank {
            Bank::Data => put(&mut self.data, place.at, word),
            Bank::Rom => put(&mut self.rom, place.at, word),
            Bank::Input => put(&mut self.input, place.at, word),
            Bank::Output => put(&mut self.output, place.at, word),
            Bank::Cells | Bank::Answer | Bank::Steps | Bank::Reads | Bank::Writes => {
                put(&mut self.cells, place.at, value)
            }
        }
    }

    // A place of the input words shows the writes.
    fn shown(&self, place: Place) -> u32 {
        match place.bank {
            Bank::Data => word_at(&self.data, place.at),
            Bank::Rom => word_at(&self.rom, place.at),
            Bank::Output => word_at(&self.output, place.at),
            Bank::Cells => self.cells.get(place.at).copied().unwrap_or(0),
            Bank::Answer => self.last.answer,
            Bank::Steps => self.last.steps,
            Bank::Reads => self.last.reads,
            Bank::Input | Bank::Writes => self.last.writes,
        }
    }
}

// A number in hexadecimal, with zeros in front up to a width of 1 to 16 digits.
fn print_hex(rt: &impl Print, n: u32, width: u32) -> io::Result<()> {
    let width = width.clamp(1, 16) as usize;
    print!(rt; "{n:0width$x}")
}

fn act(rt: &impl Print, board: &mut Board, line: Line) -> io::Result<()> {
    match line.kind {
        Some(Kind::Store) => board.store(line.place, line.value),
        Some(Kind::Step) => board.step(),
        Some(Kind::Run) => board.run(low_word(line.value)),
        Some(Kind::RunWithResults) => board.run_with_results(low_word(line.value)),
        Some(Kind::Print) => print_hex(rt, board.shown(line.place), line.value)?,
        Some(Kind::Name | Kind::End) | None => {}
    }
    Ok(())
}

// The line's label: a case's name, or a cell's.
fn print_label(rt: &impl Print, kind: Option<Kind>, text: &[u8; 32]) -> io::Result<()> {
    match kind {
        Some(Kind::Name) => rt.write_all(&text[16..31]),
        Some(Kind::Print) => rt.write_all(&text[16..23]),
        Some(Kind::End) => rt.write_all(b"\n"),
        _ => Ok(()),
    }
}

// The next line, its label printed; None where there is none.
fn next_line(rt: &impl Print, reader: &mut impl Read) -> io::Result<Option<Line>> {
    let mut text = [0; 32];
    if fill(reader, &mut text)? < text.len() {
        return Ok(None);
    }
    let line = Line::from(&text);
    print_label(rt, line.kind, &text)?;
    Ok(Some(line))
}

// One case, on a board of its own: up to its end, or where no line follows. The board is made here, and by no function that would give it back: its memories
// would be copied twice for each case.
fn case(rt: &impl Print, reader: &mut impl Read) -> io::Result<()> {
    let mut board = Board {
        cells: [0; CELLS],
        rom: [0; 4096],
        data: [0; 4096],
        input: [0; 4],
        output: [0; 4],
        last: Run::default(),
    };
    crowmitten_reset(&mut board.cells);
    for _ in 0..LINES_MAX {
        match next_line(rt, reader)? {
            Some(line) if line.kind != Some(Kind::End) => act(rt, &mut board, line)?,
            _ => break,
        }
    }
    Ok(())
}

fn main(rt: HostRuntime) -> io::Result<()> {
    let mut stdin = rt.stdin();
    for _ in 0..CASES_MAX {
        case(&rt, &mut stdin)?;
    }
    Ok(())
}
