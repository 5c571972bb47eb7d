// Puts folders through the function that the program `find` is, one after the other: a frame in each place among the pieces, several, none, a damaged one before the one that matches, frames that are longer than a piece, refusals, and files that are long or missing.
// A day file is read in pieces of 8 bytes, mostly four frames, so that the indexes are those of the file only if the pieces go on rightly. Its line is printed, and then the one that `make` gives of the same files, the day file in one piece.
#![tactic(auto)]

use files::{read_file, read_records};
use finder::{find_files, make};
use std::io;
use std::rt::Files;

// The bytes of a day file that are read at a time.
const FEW: usize = 8;

fn show(
    rt: &(impl Files + Print + Eprint),
    name: &str,
    type_name: &str,
    day_name: &str,
    path_name: &str,
    value_name: &str,
) -> io::Result<()> {
    let mut ty = [0u8; 65540];
    let mut day = [0u8; 65540];
    let mut path = [0u8; 65540];
    let mut value = [0u8; 65540];
    let mut line = [0u8; 27];
    println!(rt; "{name}")?;
    find_files(rt, type_name, day_name, path_name, value_name, FEW)?;
    let n = read_records(rt, type_name, &mut ty);
    let m = read_file(rt, day_name, &mut day);
    let p = read_records(rt, path_name, &mut path);
    let v = read_file(rt, value_name, &mut value);
    let k = make(&ty[..n], &day[..m], &path[..p], &value[..v], &mut line);
    rt.write_all(&line[..k])
}

// What `show` does of the folder of that name.
macro_rules! folder {
    ($rt:expr, $name:literal) => {
        show(
            $rt,
            $name,
            concat!($name, "/day.typ"),
            concat!($name, "/day.frames"),
            concat!($name, "/day.path"),
            concat!($name, "/day.val"),
        )
    };
}

// A frame in the first piece, in the last, and at the end of a whole one.
fn finds(rt: &(impl Files + Print + Eprint)) -> io::Result<()> {
    folder!(rt, "first")?;
    folder!(rt, "second")?;
    folder!(rt, "last-piece")?;
    folder!(rt, "whole-pieces")
}

// Two frames that match, a match of the whole frame, and frames that are longer than a piece.
fn more_finds(rt: &(impl Files + Print + Eprint)) -> io::Result<()> {
    folder!(rt, "two")?;
    folder!(rt, "whole-frame")?;
    folder!(rt, "long-frames")
}

// A damaged frame before the one that matches, in its piece and in the one before; only damaged ones.
fn damaged(rt: &(impl Files + Print + Eprint)) -> io::Result<()> {
    folder!(rt, "damaged")?;
    folder!(rt, "damaged-piece")?;
    folder!(rt, "only-damaged")
}

// No frame that matches, a path that leads nowhere, a value of another type, and no frame at all.
fn finds_none(rt: &(impl Files + Print + Eprint)) -> io::Result<()> {
    folder!(rt, "none")?;
    folder!(rt, "nowhere")?;
    folder!(rt, "other-value")?;
    folder!(rt, "no-frame")
}

// Types that are refused, and one whose frames have no bytes.
fn refuses_types(rt: &(impl Files + Print + Eprint)) -> io::Result<()> {
    folder!(rt, "bad-type")?;
    folder!(rt, "never")?;
    folder!(rt, "no-bytes")
}

// A day file and a path that are cut, each behind frames that match; the day file's length goes first.
fn refuses_lengths(rt: &(impl Files + Print + Eprint)) -> io::Result<()> {
    folder!(rt, "day-length")?;
    folder!(rt, "odd-both")?;
    folder!(rt, "odd-path")
}

// A path that is longer than its buffer, of an even and of an odd length.
fn long_paths(rt: &(impl Files + Print + Eprint)) -> io::Result<()> {
    folder!(rt, "long-path")?;
    folder!(rt, "longer-path")
}

// A type file that is missing counts as empty. Of any other `find` says it to standard error and prints no line, so that `make`'s stands alone: to it such a file is empty, and an empty path leads to the whole frame.
fn no_file(rt: &(impl Files + Print + Eprint)) -> io::Result<()> {
    folder!(rt, "no-type")?;
    folder!(rt, "no-day")?;
    folder!(rt, "no-path")?;
    folder!(rt, "no-value")
}

// All of them are.
fn no_files(rt: &(impl Files + Print + Eprint)) -> io::Result<()> {
    folder!(rt, "nothing")
}

fn main(rt: HostRuntime) -> io::Result<()> {
    finds(&rt)?;
    more_finds(&rt)?;
    damaged(&rt)?;
    finds_none(&rt)?;
    refuses_types(&rt)?;
    refuses_lengths(&rt)?;
    long_paths(&rt)?;
    no_file(&rt)?;
    no_files(&rt)
}
