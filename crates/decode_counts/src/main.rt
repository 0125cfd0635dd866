// Decodes every word and prints, for each upper byte, how many of its 256 words are built, published and not built, and in no
// encoding; and last the three totals. The expected output was worked out from the prints of Table 4-4 and the rulings R1 to R5 by a
// program of its own in another language, which shares no table with the decoder.
#![tactic(auto)]

use instructions::Decoded;
use std::ops::AddAssign;
use std::{fmt, io};

#[derive(Clone, Copy, Default)]
struct Counts {
    built: u64,
    unbuilt: u64,
    nothing: u64,
}

impl Counts {
    // One word more.
    fn with(self, d: Decoded) -> Counts {
        match d {
            Decoded::Built(_) => Counts {
                built: self.built.wrapping_add(1),
                ..self
            },
            Decoded::Unbuilt => Counts {
                unbuilt: self.unbuilt.wrapping_add(1),
                ..self
            },
            Decoded::Nothing => Counts {
                nothing: self.nothing.wrapping_add(1),
                ..self
            },
        }
    }
}

impl AddAssign for Counts {
    fn add_assign(&mut self, more: Counts) {
        self.built = self.built.wrapping_add(more.built);
        self.unbuilt = self.unbuilt.wrapping_add(more.unbuilt);
        self.nothing = self.nothing.wrapping_add(more.nothing);
    }
}

// The three counts, with one space between.
impl fmt::Display for Counts {
    fn fmt<W: fmt::Write>(&self, f: &mut fmt::Formatter<W>) -> fmt::Result {
        write!(f, "{} {} {}", self.built, self.unbuilt, self.nothing)
    }
}

fn counts_of(upper: u8) -> Counts {
    (0..=u8::MAX)
        .map(|low| decoder::decode(u16::from_be_bytes([upper, low])))
        .fold(Counts::default(), |counts, d| counts.with(d))
}

fn main(rt: HostRuntime) -> io::Result<()> {
    let mut total = Counts::default();
    for upper in 0..=u8::MAX {
        let counts = counts_of(upper);
        println!(rt; "{upper:02x} {counts}")?;
        total += counts;
    }
    println!(rt; "{total}")
}
