// What the program `find` does in a folder. Its line is made whole in a buffer, by the proved entry; the rest reads and writes.
// A day file may have any length. It is read in pieces of whole frames, and each search goes on where the one before it ended.
#![tactic(auto)]

ghost use Rattle.std.specs.Prelude.{[], ◌≡◌, ◌+◌, ◌*◌, ◌^◌, ◌≤◌, ◌<◌, IfOk, IfSome, length, take};
ghost use Rattle.model.specs.Calls.{Search};
ghost use Rattle.day_files.specs.Pieces.{Frames};
ghost use Rattle.reply.specs.Numbers.{number_of, found_at};
ghost use Rattle.structural.specs.Writing.{Wrote};
ghost use Rattle.io.specs.Counts.{IsPrefixLen};
ghost use Rattle.finder.specs.Says.{said, Tells, GoesOn, Sized, ReadOn, Answers};

use files::{fill, read_file, read_records};
use niegluk::{room, search};
use reply::Refusal;
use std::fs::File;
use std::io;
use std::io::{ErrorKind, Read};
use std::rt::Files;
use text::{write_found, write_none, write_refused};

// The bytes of the buffer that a day file is read to, piece by piece.
const PIECE: usize = 65536;

// The most bytes of a value file that `find` takes.
const MOST_VALUE: usize = 1048576;

// No file has so many frames.
const MOST_FRAMES: usize = 1 << 63;

// What is found up to the end of a piece, and the bytes of the piece.
#[derive(Clone, Copy)]
struct Further {
    found: Result<Option<usize>, Refusal>,
    len: usize,
}

// Writes the line of what a search found over the front of `out`, and answers its length.
pub fn say(found: Result<Option<usize>, Refusal>, out: &mut [u8]) -> usize
    requires { 27 ≤ length out.old }
    ensures wrote { Wrote (said (number_of found) (found_at found)) out.old out.new result }
    ensures prefix_len { IsPrefixLen result out.new }
{
    match found {
        Ok(Some(i)) => write_found(i, out),
        Ok(None) => write_none(out),
        Err(x) => write_refused(x, out),
    }
}

// Writes what `find` prints of four files over the front of `out`, and answers its length.
pub fn make(ty: &[u8], day: &[u8], path: &[u8], value: &[u8], out: &mut [u8]) -> usize
    requires { 27 ≤ length out.old }
    ensures tells { Tells ty.now day.now path.now value.now (take result out.new) }
    ensures prefix_len { IsPrefixLen result out.new }
{
    say(search(ty, day, path, value), out)
}

// What is found in a front of `before` frames and the piece behind it, where `so_far` is found in the front.
pub fn go_on(
    ty: &[u8],
    piece: &[u8],
    path: &[u8],
    value: &[u8],
    before: usize,
    so_far: Result<Option<usize>, Refusal>,
) -> Result<Option<usize>, Refusal>
    requires { before + length piece.now < 2 ^ 64 }
    ensures { GoesOn ty.now piece.now path.now value.now before so_far result }
{
    match search(ty, piece, path, value)? {
        None => so_far,
        Some(j) => Ok(so_far.unwrap_or(None).or(Some(before + j))),
    }
}

// The bytes of a frame of the type; 0 where it does not lower.
fn frame_size(ty: &[u8]) -> usize
    ensures { Sized ty.now result }
{
    room(ty).unwrap_or_default().bits.div_ceil(8)
}

// How many frames are read at a time: as many as `most` bytes hold, but one at least, and no more than a buffer of `len` bytes has room for.
fn frames_at_once(size: usize, most: usize, len: usize) -> usize
    requires { (1 ≤ size) × (size ≤ len) }
    ensures { (1 ≤ result) × (result * size ≤ len) }
{
    (most.min(len) / size).max(1)
}

// Reads the next piece of a day file, as long as `piece` or what is left, and answers what is found up to its end.
fn read_on<R: Read>(
    reader: &mut R,
    ty: &[u8],
    path: &[u8],
    value: &[u8],
    before: usize,
    so_far: Result<Option<usize>, Refusal>,
    piece: &mut [u8],
) -> io::Result<Further>
    requires { before < 2 ^ 63 }
    ensures read_on { IfOk result (λ further. ReadOn (R.remaining reader.old) (R.remaining reader.new) (length piece.old) ty.now path.now value.now before so_far further.len further.found) }
    ensures len { length piece.new ≡ length piece.old }
{
    let n = fill(reader, piece)?;
    let found = go_on(ty, &piece[..n], path, value, before, so_far);
    Ok(Further { found, len: n })
}

// Reads a day file to its end in pieces of `count` frames, and answers what is found in it, where `first` is found in no frame at all.
// What a file gives no contract can say: of one the answer is that of some day file. Of a reader whose bytes are known it is the answer of those bytes.
fn search_open<R: Read>(
    reader: &mut R,
    ty: &[u8],
    path: &[u8],
    value: &[u8],
    count: usize,
    first: Result<Option<usize>, Refusal>,
    piece: &mut [u8],
) -> io::Result<Result<Option<usize>, Refusal>>
    requires le_count { (1 ≤ count) × (count ≤ length piece.old) }
    requires frames { Frames ty.now count piece.old }
    requires search { Search ty.now [] path.now value.now (number_of first) (found_at first) }
    ensures answers { IfOk result (Answers (R.remaining reader.old) (R.remaining reader.new) ty.now path.now value.now) }
    ensures known { IfSome (R.remaining reader.old) (λ day. IfOk result (λ found. Search ty.now day path.now value.now (number_of found) (found_at found))) }
{
    let mut found = first;
    for before in (0..MOST_FRAMES).step_by(count) {
        let further = read_on(reader, ty, path, value, before, found, piece)?;
        found = further.found;
        if further.len != piece.len() {
            return Ok(found);
        }
    }
    Err(io::Error::from(ErrorKind::FileTooLarge))
}

// Searches the day file of that name; an error where it is not opened or not read to its end.
fn search_file(
    rt: &impl Files,
    name: &str,
    ty: &[u8],
    path: &[u8],
    value: &[u8],
    most: usize,
) -> io::Result<Result<Option<usize>, Refusal>> {
    let first = search(ty, b"", path, value);
    let size = frame_size(ty);
    if size == 0 {
        return Ok(first);
    }
    let mut file = File::open(rt, name)?;
    let mut buf = [0u8; PIECE];
    let count = frames_at_once(size, most, PIECE);
    let whole = count * size;
    search_open(&mut file, ty, path, value, count, first, &mut buf[..whole])
}

// Zeros for the longest value file that `find` takes, and for one byte more, so that a longer file shows.
fn value_buffer() -> [u8; 1048577]
    ensures { 1048577 ≡ length result }
{
    [0; 1048577]
}

// Prints the line of what a search found.
fn print(rt: &impl Print, found: Result<Option<usize>, Refusal>) -> io::Result<()> {
    let mut out = [0u8; 27];
    let n = say(found, &mut out);
    rt.write_all(&out[..n])
}

// Can the file of that name be opened?
fn opens(rt: &impl Files, name: &str) -> bool {
    File::open(rt, name).is_ok()
}

// Reads the type file, the path and the value file of these names, and prints what is found in the day file, which is read in pieces of `most` bytes, or of one frame where that is more.
// A type file that is missing is empty, and refused. Of a type file or a path that is longer than its buffer the front is read, and the length but for multiples of 4, so that
// the answer is the whole file's: 1 or 2 for a type, and 13 or nowhere for a path. Where one of the other three is missing, the value file is longer, or the day file
// is not read to its end, there is no answer: that is said to standard error, and nothing is printed. Only printing can fail.
pub fn find_files(
    rt: &(impl Files + Print + Eprint),
    type_name: &str,
    day_name: &str,
    path_name: &str,
    value_name: &str,
    most: usize,
) -> io::Result<()> {
    let mut ty = [0u8; 65540];
    let mut path = [0u8; 65540];
    let mut value = value_buffer();
    let n = read_records(rt, type_name, &mut ty);
    if !opens(rt, path_name) {
        return eprintln!(rt; "{path_name}: not opened");
    }
    let m = read_records(rt, path_name, &mut path);
    if !opens(rt, value_name) {
        return eprintln!(rt; "{value_name}: not opened");
    }
    let k = read_file(rt, value_name, &mut value);
    if MOST_VALUE < k {
        return eprintln!(rt; "{value_name}: more than 1,048,576 bytes");
    }
    match search_file(rt, day_name, &ty[..n], &path[..m], &value[..k], most) {
        Ok(found) => print(rt, found),
        Err(_) => eprintln!(rt; "{day_name}: not opened, or not read to its end"),
    }
}

// What the program `find` does, in the current folder.
pub fn find_here(rt: &(impl Files + Print + Eprint)) -> io::Result<()> {
    find_files(rt, "day.typ", "day.frames", "day.path", "day.val", PIECE)
}
