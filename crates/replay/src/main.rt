// The program `replay`: reads one run file from standard input and prints its line. Only reading and writing are assumed.
#![tactic(auto)]

use printing::print_replay;
use std::io;

fn main(rt: HostRuntime) -> io::Result<()> {
    print_replay(&mut rt.stdin(), &mut io::writer(&rt))
}
