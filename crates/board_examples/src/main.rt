// Cases of rulings R32 to R34: the fetch window, the words sent, writing and setting up. Each line of the file `stdout` names its case and
// says what must come back: the answer, and the numbers that the case names. They were worked out by hand from document 01 and the rulings.
//
// A line of the file `stdin` is `KIND LENGTH LABEL: NUMBERS`, each part with one byte behind it; LENGTH counts the label's bytes up to the
// first number. Numbers have four hexadecimal digits. The kinds and their numbers:
//   W  a fetch window: CNF, ARP, the address, the words of ROM that are lent; shows the window's length and its first word
//   S  the words sent: output cursor, input cursor; shows their count and the last of them
//   F  writing a file: the bytes that are lent, two places among them; shows what they hold
//   U  setting up: the bytes of the file, the words of the input slice, two places; shows what they hold. A place's first digit is its
//      slice: 0 data memory, 1 ROM, 2 input; 3 shows 0
#![tactic(auto)]

ghost use Rattle.std.specs.Prelude.{◌<◌, ◌≤◌, IfOk};

use answers::number;
use filling::fill;
use machine::Machine;
use std::io::Read;
use std::{fmt, io};

const CASES_MAX: u32 = 100;

// What a word is shown as that is not there, and a byte.
const NO_WORD: u64 = 65536;

const NO_BYTE: u64 = 256;

#[derive(Clone, Copy, Debug, PartialEq, Eq)]
enum Kind {
    Window,
    Sent,
    WriteFile,
    SetUp,
}

impl Kind {
    // None where no line follows: the letter is then 0. A letter of no kind is read as U.
    fn of(letter: u8) -> Option<Kind> {
        match letter {
            0 => None,
            b'W' => Some(Kind::Window),
            b'S' => Some(Kind::Sent),
            b'F' => Some(Kind::WriteFile),
            _ => Some(Kind::SetUp),
        }
    }
}

// What a case shows.
#[derive(Clone, Copy, Debug)]
struct Shown {
    answer: u8,
    first: u64,
    second: u64,
}

impl fmt::Display for Shown {
    fn fmt<W: fmt::Write>(&self, f: &mut fmt::Formatter<W>) -> fmt::Result {
        write!(f, "{} {} {}", self.answer, self.first, self.second)
    }
}

// A place in the slices that a file is set up in: the first digit of its number is its slice, the others its word. Here and in `Kind` no `TryFrom`, since None is
// no error.
#[derive(Clone, Copy, Debug)]
enum Place {
    Data(usize),
    Rom(usize),
    Input(usize),
}

impl Place {
    // None of any other first digit.
    fn of(number: u16) -> Option<Place> {
        let at = usize::from(number % 0x1000);
        match number / 0x1000 {
            0 => Some(Place::Data(at)),
            1 => Some(Place::Rom(at)),
            2 => Some(Place::Input(at)),
            _ => None,
        }
    }
}

// Those slices.
#[derive(Clone, Copy, Debug)]
struct Slices<'a> {
    rom: &'a [u16],
    data: &'a [u16],
    input: &'a [u16],
}

impl Slices<'_> {
    // The word of a place; no place shows 0.
    fn word(&self, place: Option<Place>) -> u64 {
        match place {
            Some(Place::Data(at)) => word_at(self.data, at),
            Some(Place::Rom(at)) => word_at(self.rom, at),
            Some(Place::Input(at)) => word_at(self.input, at),
            None => 0,
        }
    }
}

fn word_at(words: &[u16], at: usize) -> u64 {
    words.get(at).map_or(NO_WORD, |&word| u64::from(word))
}

// By hand, since what is no hexadecimal digit counts as some digit: every line is read. guide_examples has it at another type: a crate to share these
// three lines, with a definition and edits of its own, would be no plainer.
fn digit(byte: u8) -> u16
    ensures { result < 16 }
{
    let low = u16::from(byte % 16);
    if byte < 58 { low } else { (low + 9) % 16 }
}

fn next_number(reader: &mut impl Read) -> io::Result<u16> {
    let mut text = [0; 5];
    fill(reader, &mut text)?;
    Ok(
        text[..4]
            .iter()
            .fold(0, |n, &byte| n % 0x1000 * 16 + digit(byte)),
    )
}

fn next_place(reader: &mut impl Read) -> io::Result<Option<Place>> {
    Ok(Place::of(next_number(reader)?))
}

fn next_flag(reader: &mut impl Read) -> io::Result<u8> {
    Ok((next_number(reader)? % 256) as u8)
}

fn next_count(reader: &mut impl Read, most: usize) -> io::Result<usize>
    ensures { IfOk result (λ n. n ≤ most) }
{
    Ok(usize::from(next_number(reader)?).min(most))
}

fn next_kind(reader: &mut impl Read) -> io::Result<Option<Kind>> {
    let mut text = [0; 2];
    fill(reader, &mut text)?;
    Ok(Kind::of(text[0]))
}

// The byte that the next number names.
fn next_byte_of(reader: &mut impl Read, bytes: &[u8]) -> io::Result<u64> {
    let at = usize::from(next_number(reader)?);
    Ok(bytes.get(at).map_or(NO_BYTE, |&byte| u64::from(byte)))
}

fn print_label(rt: &impl Print, reader: &mut impl Read) -> io::Result<()> {
    let mut text = [0; 64];
    let count = next_count(reader, text.len())?;
    fill(reader, &mut text[..count])?;
    rt.write_all(&text[..count])
}

// The words at both ends of ROM are 11 and 12, of B0 13 and 14. Here and below the memories come first: after a line is read they would be filled twice.
fn window_case(reader: &mut impl Read) -> io::Result<Shown> {
    let mut rom = [0; 4096];
    let mut data = [0; 4096];
    let mut m = Machine::reset();
    m.cnf = next_flag(reader)?;
    m.arp = next_flag(reader)?;
    let at = next_number(reader)?;
    rom[0] = 11;
    rom[4095] = 12;
    data[0x200] = 13;
    data[0x2FF] = 14;
    let lent = next_count(reader, 4096)?;
    let rom = &rom[..lent];
    let window = windows::window(m, at, rom, &data);
    Ok(Shown {
        answer: number(windows::window_answer(m, at, rom, &data)),
        first: window.len() as u64,
        second: word_at(window, 0),
    })
}

// Where no word was sent, the last is shown as 0.
fn sent_case(reader: &mut impl Read) -> io::Result<Shown> {
    let output = [21, 22, 23, 24];
    let mut m = Machine::reset();
    m.output_cursor = next_number(reader)?;
    m.input_cursor = next_number(reader)?;
    let sent = windows::words_sent(m, &output);
    Ok(Shown {
        answer: number(windows::words_sent_answer(m, &output)),
        first: sent.len() as u64,
        second: sent.last().map_or(0, |&word| u64::from(word)),
    })
}

// A run file of two program words, one data word, one input word and budget 7.
fn put_file(bytes: &mut [u8]) -> u8 {
    number(runfile_writing::write_file(&[0xCA05, 0xCC07], &[0x1234], &[0x0042], 7, bytes))
}

fn write_case(reader: &mut impl Read) -> io::Result<Shown> {
    let mut bytes = [255; 25];
    let lent = next_count(reader, bytes.len())?;
    Ok(Shown {
        answer: put_file(&mut bytes[..lent]),
        first: next_byte_of(reader, &bytes)?,
        second: next_byte_of(reader, &bytes)?,
    })
}

// Memories and input hold 65,535 everywhere before.
fn set_up_case(reader: &mut impl Read) -> io::Result<Shown> {
    let mut rom = [65535; 4096];
    let mut data = [65535; 4096];
    let mut input = [65535; 2];
    let mut file = [0; 24];
    put_file(&mut file);
    let count = next_count(reader, file.len())?;
    let lent = next_count(reader, input.len())?;
    let input = &mut input[..lent];
    let answer = runfile_setting_up::set_up(&file[..count], &mut rom, &mut data, input);
    let slices = Slices {
        rom: &rom,
        data: &data,
        input,
    };
    Ok(Shown {
        answer: number(answer),
        first: slices.word(next_place(reader)?),
        second: slices.word(next_place(reader)?),
    })
}

fn shown_of(reader: &mut impl Read, kind: Kind) -> io::Result<Shown> {
    match kind {
        Kind::Window => window_case(reader),
        Kind::Sent => sent_case(reader),
        Kind::WriteFile => write_case(reader),
        Kind::SetUp => set_up_case(reader),
    }
}

fn case(rt: &impl Print, reader: &mut impl Read) -> io::Result<()> {
    if let Some(kind) = next_kind(reader)? {
        print_label(rt, reader)?;
        rt.println(shown_of(reader, kind)?)?;
    }
    Ok(())
}

fn main(rt: HostRuntime) -> io::Result<()> {
    let mut stdin = rt.stdin();
    for _ in 0..CASES_MAX {
        case(&rt, &mut stdin)?;
    }
    Ok(())
}
