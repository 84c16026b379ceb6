// The rim file on standard input.
ghost use Rattle.std.specs.Io.{ReadsAtMost};

use std::io;
use std::io::Read;

// The longest rim file of either edition is one of edition 2 with 256 records: 10 + 22 * 256 bytes (rules 1.4, 1.12).
pub const LONGEST: usize = 5642;

// One byte more: an input that fills a buffer of this length is too long, and is refused for its length.
pub const BUFFER: usize = LONGEST + 1;

// Places of a chunk of the input that is read past.
const CHUNK: usize = 65536;

// How often more input is read: 4 GiB in all. A program that is proved to end cannot read without a limit.
const CHUNKS: u32 = 65536;

// Reads the input into the buffer, and says how many bytes are there; fails at the first read that fails.
pub fn read<R: Read>(reader: &mut R, file: &mut [u8]) -> io::Result<usize>
    ensures { ReadsAtMost result file.new }
{
    let length = read_full(reader, file)?;
    if length == file.len() {
        discard_rest(reader)?;
    }
    Ok(length)
}

// Reads until the buffer is full or the input ends, and says how many bytes are there; fails at the first read that fails.
pub fn read_full<R: Read>(reader: &mut R, buf: &mut [u8]) -> io::Result<usize>
    ensures { ReadsAtMost result buf.new }
{
    let mut done = 0;
    while done < buf.len() {
        let n = reader.read(&mut buf[done..])?;
        if n == 0 {
            break;
        }
        done += n;
    }
    Ok(done)
}

// Reads on to the end of the input, so that whoever writes it to a pipe is not stopped half way. It changes no answer.
fn discard_rest<R: Read>(reader: &mut R) -> io::Result<()> {
    for _ in 0..CHUNKS {
        if discard_chunk(reader)? == 0 {
            return Ok(());
        }
    }
    Ok(())
}

// Reads up to 65,536 bytes; answers how many there were.
fn discard_chunk<R: Read>(reader: &mut R) -> io::Result<usize> {
    let mut chunk = [0u8; CHUNK];
    read_full(reader, &mut chunk)
}
