// The program `replay`: puts the recorded cases of the file `cases` through the ten public entries, and prints for each entry how many cases there are
// and how many differ. Of each case the number, the length and every lent byte are compared; of `room` and `shape_records`, which write nothing, all numbers.
//
// The file is the number of its cases, in three bytes, and the cases. A case is a head of 20 bytes and a body of five files:
//   entry, number: a byte each
//   room, and the lengths of the five files: three bytes each, the highest first
//   type; value, shape or frame; path; value of an edit; result
// The files that an entry does not take are empty. So many bytes are lent as the room tells: the frame of an edit, otherwise all 0xA5.
// The result of `room` and of `shape_records` are the numbers that they tell, three bytes each.
#![tactic(auto)]

ghost use Rattle.std.specs.Prelude.{◌+◌, ◌≤◌, ◌<◌, IfSome, length};
ghost use Rattle.replay.specs.Cases.{Stands};

use niegluk::{
    clean_shape, lower, part_edit, part_read, read_frame, reconstruct, shape_records, write_frame,
    write_shape,
};
use reply::{Refusal, TypeRoom};
use std::fs::File;
use std::io::Read;
use std::rt::Files;
use std::{fmt, io};

// The bytes of a head.
const HEAD: usize = 20;

// No body is longer.
const BODY: usize = 70000;

// No buffer is longer.
const ROOM: usize = 65536;

// The entries.
#[derive(Clone, Copy, PartialEq, Eq)]
enum Entry {
    Lower,
    WriteShape,
    Reconstruct,
    WriteFrame,
    ReadFrame,
    PartRead,
    PartEdit,
    CleanShape,
    Room,
    ShapeRecords,
}

// By its number in the file.
impl TryFrom<u8> for Entry {
    type Error = ();

    fn try_from(b: u8) -> Result<Entry, ()> {
        match b {
            1 => Ok(Entry::Lower),
            2 => Ok(Entry::WriteShape),
            3 => Ok(Entry::Reconstruct),
            4 => Ok(Entry::WriteFrame),
            5 => Ok(Entry::ReadFrame),
            6 => Ok(Entry::PartRead),
            7 => Ok(Entry::PartEdit),
            8 => Ok(Entry::CleanShape),
            9 => Ok(Entry::Room),
            10 => Ok(Entry::ShapeRecords),
            _ => Err(()),
        }
    }
}

impl fmt::Display for Entry {
    fn fmt<W: fmt::Write>(&self, f: &mut fmt::Formatter<W>) -> fmt::Result {
        f.write_str(match self {
            Entry::Lower => "lower",
            Entry::WriteShape => "write_shape",
            Entry::Reconstruct => "reconstruct",
            Entry::WriteFrame => "write_frame",
            Entry::ReadFrame => "read_frame",
            Entry::PartRead => "part_read",
            Entry::PartEdit => "part_edit",
            Entry::CleanShape => "clean_shape",
            Entry::Room => "room",
            Entry::ShapeRecords => "shape_records",
        })
    }
}

// A case: what its head tells, and its five files.
#[derive(Clone, Copy)]
struct Case<'a> {
    entry: Entry,
    number: u8,
    room: usize,
    ty: &'a [u8],
    file: &'a [u8],
    path: &'a [u8],
    value: &'a [u8],
    result: &'a [u8],
}

// How many cases an entry has, and how many of them differ.
#[derive(Clone, Copy)]
struct Tally {
    cases: u64,
    differ: u64,
}

// The number of three bytes, the highest first.
fn number_at(s: &[u8], at: usize) -> usize
    requires { at + 3 ≤ length s.now }
    ensures { result < 16777216 }
{
    u32::from_be_bytes([0, s[at], s[at + 1], s[at + 2]]) as usize
}

// How many cases the file tells to have; none where it cannot be read.
fn read_count<R: Read>(reader: &mut R) -> Option<usize>
    ensures { IfSome result (λ n. n < 16777216) }
{
    let mut n = [0u8; 3];
    reader.read_exact(&mut n).ok()?;
    Some(number_at(&n, 0))
}

// Reads the next case, with its files in `body`. None where it cannot be read: the file ends before it does, its body is too long, or it is of no entry.
// What follows a body that is too long is misread.
fn read_case<'a, R: Read>(reader: &mut R, body: &'a mut [u8; BODY]) -> Option<Case<'a>>
    ensures { IfSome result (λ c. Stands c 70000) }
{
    let mut head = [0u8; HEAD];
    reader.read_exact(&mut head).ok()?;
    let ty = number_at(&head, 5);
    let file = number_at(&head, 8);
    let path = number_at(&head, 11);
    let value = number_at(&head, 14);
    let result = number_at(&head, 17);
    let len = ty + file + path + value + result;
    if BODY < len {
        return None;
    }
    let files = &mut body[..len];
    reader.read_exact(files).ok()?;
    let (ty, rest) = files.split_at_checked(ty)?;
    let (file, rest) = rest.split_at_checked(file)?;
    let (path, rest) = rest.split_at_checked(path)?;
    let (value, result) = rest.split_at_checked(value)?;
    Some(Case {
        entry: Entry::try_from(head[0]).ok()?,
        number: head[1],
        room: number_at(&head, 2),
        ty,
        file,
        path,
        value,
        result,
    })
}

// Puts the bytes over the front of `out`, where it has room for them.
fn put(s: &[u8], out: &mut [u8]) {
    if s.len() <= out.len() {
        out[..s.len()].copy_from_slice(s);
    }
}

// What the case's entry answers to its files; of what `room` tells, the first number.
fn answer(c: Case<'_>, out: &mut [u8]) -> Result<usize, Refusal> {
    match c.entry {
        Entry::Lower => lower(c.ty, out),
        Entry::WriteShape => write_shape(c.ty, c.file, out),
        Entry::Reconstruct => reconstruct(c.ty, c.file, out),
        Entry::WriteFrame => write_frame(c.ty, c.file, out),
        Entry::ReadFrame => read_frame(c.ty, c.file, out),
        Entry::PartRead => part_read(c.ty, c.file, c.path, out),
        Entry::PartEdit => part_edit(c.ty, out, c.path, c.value),
        Entry::CleanShape => clean_shape(c.ty, c.file, out),
        Entry::Room => niegluk::room(c.ty).map(|told| told.lowered),
        Entry::ShapeRecords => shape_records(c.ty, c.file),
    }
}

// Does the entry answer this number, and what is told here? What a refusal tells counts as 0, as a number that the case leaves out does.
fn tells<T: PartialEq + Default + Copy + Drop>(
    answer: Result<T, Refusal>,
    number: u8,
    told: T,
) -> bool {
    reply::number(answer) == u32::from(number) && answer.unwrap_or_default() == told
}

// The lent bytes of an edit are its frame; all others are left as they are.
fn lend(c: Case<'_>, out: &mut [u8]) {
    if c.entry == Entry::PartEdit {
        put(c.file, out);
    }
}

// Does the entry answer the case's number and its result's length, and leave the result, and behind it what was lent?
// Both buffers are lent alike: the entry writes to the one, the recorded result goes to the other.
fn agrees(c: Case<'_>, out: &mut [u8], told: &mut [u8]) -> bool {
    lend(c, out);
    lend(c, told);
    put(c.result, told);
    let r = answer(c, out);
    tells(r, c.number, c.result.len()) && &*out == &*told
}

// Does an entry that writes agree? Not where more bytes are to be lent than there are.
// The buffers are on the stack, as all memory of ours (README, Limits).
fn writer_agrees(c: Case<'_>) -> bool {
    if ROOM < c.room {
        return false;
    }
    let mut out = [0xA5; ROOM];
    let mut told = [0xA5; ROOM];
    agrees(c, &mut out[..c.room], &mut told[..c.room])
}

// The number of three bytes at a place of a result; none where the result ends before it, as that of a refusal does.
fn told_at(res: &[u8], at: usize) -> Option<usize>
    requires { at ≤ 6 }
{
    if res.len() < at + 3 {
        return None;
    }
    Some(number_at(res, at))
}

// The three numbers of a result of `room`; 0 for one that is not there.
fn told_room(res: &[u8]) -> TypeRoom {
    TypeRoom {
        lowered: told_at(res, 0).unwrap_or(0),
        bits: told_at(res, 3).unwrap_or(0),
        shape: told_at(res, 6).unwrap_or(0),
    }
}

// Does the case end as it is recorded?
fn holds(c: Case<'_>) -> bool {
    match c.entry {
        Entry::Room => tells(niegluk::room(c.ty), c.number, told_room(c.result)),
        Entry::ShapeRecords => tells(
            shape_records(c.ty, c.file),
            c.number,
            told_at(c.result, 0).unwrap_or(0),
        ),
        _ => writer_agrees(c),
    }
}

// Counts the cases of an entry, and those that differ; of none, the cases that cannot be read.
fn count(rt: &impl Files, entry: Option<Entry>) -> io::Result<Tally> {
    let mut file = File::open(rt, "cases")?;
    let n = read_count(&mut file).unwrap_or_default();
    let mut body = [0u8; BODY];
    let mut cases = 0;
    let mut differ = 0;
    for i in 0..n {
        let case = read_case(&mut file, &mut body);
        if case.map(|c| c.entry) == entry {
            cases += 1;
            if let Some(c) = case
                && !holds(c)
            {
                differ += 1;
            }
        }
    }
    Ok(Tally { cases, differ })
}

// Prints the line of an entry.
fn show(rt: &(impl Files + Print), entry: Entry) -> io::Result<()> {
    let Tally { cases, differ } = count(rt, Some(entry))?;
    println!(rt; "{entry} {cases} cases, {differ} differ")
}

// Prints how many cases cannot be read.
fn show_unreadable(rt: &(impl Files + Print)) -> io::Result<()> {
    let Tally { cases, .. } = count(rt, None)?;
    println!(rt; "unreadable {cases}")
}

fn main(rt: HostRuntime) -> io::Result<()> {
    for entry in [
        Entry::Lower,
        Entry::WriteShape,
        Entry::Reconstruct,
        Entry::WriteFrame,
        Entry::ReadFrame,
        Entry::PartRead,
        Entry::PartEdit,
        Entry::CleanShape,
        Entry::Room,
        Entry::ShapeRecords,
    ] {
        show(&rt, entry)?;
    }
    show_unreadable(&rt)
}
