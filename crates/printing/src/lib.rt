// From a reader of a run file to a writer of its line: all of `replay` but the two streams.
#![tactic(auto)]

ghost use Rattle.std.specs.Prelude.{◌≡◌, Some, OnOk, IfSome, drop};
ghost use Rattle.std.specs.Io.KnownBytes.{Appends};
ghost use Rattle.replay_line.specs.Replay.{replay_line};

use replaying::{FILE_BYTES, LINE_BYTES};
use std::io;
use std::io::{Read, Write};

// Reads one run file, at most 16,401 bytes, which decide the line of every file, and writes its line. What is read and written is said of a reader
// and a writer whose bytes are known; nothing is said of them after an Err, which is one of theirs.
pub fn print_replay<R: Read, W: Write>(reader: &mut R, writer: &mut W) -> io::Result<()>
    ensures read { OnOk result (IfSome (R.remaining reader.old) (λ bytes. R.remaining reader.new ≡ Some (drop 16401 bytes))) }
    ensures written { OnOk result (IfSome (R.remaining reader.old) (λ bytes. Appends (W.contents writer.old) (W.contents writer.new) (replay_line bytes))) }
{
    let mut file = [0; FILE_BYTES];
    let count = filling::fill(reader, &mut file)?;
    let mut line = [0; LINE_BYTES];
    let end = replaying::replayed(&file, count, &mut line);
    writer.write_all(&line[..end])
}
