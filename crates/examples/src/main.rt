// Prints the name and the line of each example file.
#![tactic(auto)]

use printing::print_replay;
use std::fs::File;
use std::io;
use std::rt::Files;

// Document 01's own file, and stacks of 127 and 128 frames with holding and without.
const STACKS: [&str; 5] = [
    "first",
    "frames-127-held",
    "frames-127-free",
    "frames-128-held",
    "frames-128-free",
];

const PROGRAMS: [&str; 4] = ["convolution", "division", "copy", "copy-whole"];

// The largest file, and one whose line is the longest.
const LIMITS: [&str; 2] = ["largest", "longest"];

// One for each refusal of a step that a file can reach.
const REFUSED_STEPS: [&str; 7] = [
    "refused-3",
    "refused-4",
    "refused-5",
    "refused-6",
    "refused-7",
    "refused-9",
    "refused-10",
];

const REFUSED_FILES: [&str; 5] = [
    "refused-20",
    "refused-21",
    "refused-22",
    "refused-22-largest",
    "refused-22-long",
];

fn show(rt: &(impl Files + Print), names: &[&str]) -> io::Result<()> {
    for name in names {
        print!(rt; "{name}: ")?;
        let mut file = File::open(rt, name)?;
        print_replay(&mut file, &mut io::writer(rt))?;
    }
    Ok(())
}

fn main(rt: HostRuntime) -> io::Result<()> {
    show(&rt, &STACKS)?;
    show(&rt, &PROGRAMS)?;
    show(&rt, &LIMITS)?;
    show(&rt, &REFUSED_STEPS)?;
    show(&rt, &REFUSED_FILES)
}
