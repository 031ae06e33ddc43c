//! One read of anything that is read.
ghost use Rattle.std.specs.Io.{ReadsAtMost};

use std::io::{self, ErrorKind, Read};

// How often a read that was interrupted is tried again.
const TRIES: u32 = 1_000_000;

/// One read; a read that a signal interrupted is tried again.
pub fn read_once<R: Read>(reader: &mut R, buf: &mut [u8]) -> io::Result<usize>
    ensures { ReadsAtMost result buf.new }
{
    for _ in 0..TRIES {
        match reader.read(buf) {
            Err(error) if error.kind() == ErrorKind::Interrupted => {}
            answer => return answer,
        }
    }
    reader.read(buf)
}
