// Files of a folder, read and written whole.
#![tactic(auto)]

ghost use Rattle.std.specs.Prelude.{◌≡◌, ◌<◌, ◌≤◌, IfOk, length, take};
ghost use Rattle.std.specs.Io.{ReadsAtMost};
ghost use Rattle.std.specs.Io.KnownBytes.{Consumes, IsAtEnd};
ghost use Rattle.io.specs.Counts.{IsPrefixLen};

use std::fs::{File, OpenFile, OpenOptions};
use std::io::{Read, Write};
use std::rt::Files;
use std::{fs, io};

// Reads until the buffer is full or the reader ends, and answers how many bytes it put to the front of the buffer. They are the next that the reader had.
// Each read says its own number of bytes: no iterator goes over them, and the library's `read_exact` fails where the reader ends before.
pub fn fill<R: Read>(reader: &mut R, buf: &mut [u8]) -> io::Result<usize>
    ensures bound { ReadsAtMost result buf.new }
    ensures len { length buf.new ≡ length buf.old }
    ensures bytes { IfOk result (λ n. Consumes (R.remaining reader.old) (R.remaining reader.new) (take n buf.new)) }
    ensures end { IfOk result (λ n. n < length buf.old → IsAtEnd (R.remaining reader.new)) }
{
    let mut done = 0;
    while done < buf.len() {
        let n = reader.read(&mut buf[done..])?;
        if n == 0 {
            return Ok(done);
        }
        done += n;
    }
    Ok(done)
}

// As `read_file`, but that it tells a failure.
fn try_read<R: Files>(rt: &R, path: &str, buf: &mut [u8]) -> io::Result<usize>
    ensures { ReadsAtMost result buf.new }
{
    fill(&mut File::open(rt, path)?, buf)
}

// Reads the file of that name to the front of the buffer, and answers how many bytes; 0 where it cannot be opened or read.
// No `Option`: a file that cannot be read counts as an empty one, so that each caller would only put the 0 in its place.
pub fn read_file<R: Files>(rt: &R, path: &str, buf: &mut [u8]) -> usize
    ensures { IsPrefixLen result buf.new }
{
    try_read(rt, path, buf).unwrap_or(0)
}

// How many bytes a reader still has, but for multiples of 4. A read that fails counts as its end.
fn left_over<R: Read>(reader: &mut R) -> usize
    ensures { result ≤ 3 }
{
    let mut over = 0;
    // Of a fixed size, since the libraries take no memory.
    let mut chunk = [0u8; 4096];
    for _ in 0..u64::MAX {
        let n = reader.read(&mut chunk).unwrap_or(0);
        if n == 0 {
            break;
        }
        over = (over + n % 4) % 4;
    }
    over
}

// As `read_records`, but that it tells a failure.
fn try_records<R: Files>(rt: &R, path: &str, buf: &mut [u8; 65540]) -> io::Result<usize>
    ensures { ReadsAtMost result buf.new }
{
    let mut file = File::open(rt, path)?;
    let n = fill(&mut file, buf)?;
    if n < buf.len() {
        return Ok(n);
    }
    Ok(65536 + left_over(&mut file))
}

// As `read_file`, to a buffer of 65,540 bytes. Of a longer file the front is there, and the answer is from 65,536 to 65,539: the file's length, but for multiples of 4.
pub fn read_records<R: Files>(rt: &R, path: &str, buf: &mut [u8; 65540]) -> usize
    ensures { IsPrefixLen result buf.new }
{
    try_records(rt, path, buf).unwrap_or(0)
}

// Reads the file of that name to the front of the buffer, and lends what was read: nothing where it cannot be opened or read.
pub fn read_into<'a, R: Files>(rt: &R, path: &str, buf: &'a mut [u8]) -> &'a [u8]
    ensures { length result.now ≤ length buf.old }
{
    let n = read_file(rt, path, buf);
    &buf[..n]
}

// As `read_into`, but that of a longer file so many bytes are lent as `read_records` answers.
pub fn records_into<'a, R: Files>(rt: &R, path: &str, buf: &'a mut [u8; 65540]) -> &'a [u8]
    ensures { length result.now ≤ 65540 }
{
    let n = read_records(rt, path, buf);
    &buf[..n]
}

// Writes these bytes to an open file, waits until they are on the disk, and closes it.
fn write_whole<F: Write + OpenFile + Drop>(file: F, bytes: &[u8]) -> io::Result<()> {
    let mut file = file;
    file.write_all(bytes)?;
    file.sync_all()
}

// Makes these bytes the whole of the file of that name. They are written to a new file, `part`, which then takes the name: whatever fails, the name stands for what it
// stood for before. A file or a link that has the name `part` already is removed, and nothing behind a link is touched.
pub fn write_file<R: Files>(rt: &R, path: &str, part: &str, bytes: &[u8]) -> io::Result<()> {
    let _ = fs::remove_file(rt, part);
    let file = OpenOptions::new()
        .write(true)
        .create_new(true)
        .open(rt, part)?;
    let made = write_whole(file, bytes).and_then(|_| fs::rename(rt, part, path));
    if made.is_err() {
        let _ = fs::remove_file(rt, part);
    }
    made
}
