// The lowered type of a type file, after types/structural.rs: one byte a record, parent first.
// The right side of a tree is written into the rest of the buffer after its left, so that each byte is written once; a right side that is the same as the left is copied from it.
#![tactic(auto)]

ghost use Rattle.std.specs.Prelude.{◌≡◌, false, ◌++◌, ◌+◌, ◌≤◌, length, take};
ghost use Rattle.model.specs.Structural.{𝟙, ◌⊕◌, type_records};
ghost use Rattle.types.specs.Steps.{Given};
ghost use Rattle.types.specs.Lows.{low};
ghost use Rattle.structural.specs.Writing.{Wrote};
ghost use Rattle.structural.specs.Forms.{most_parts, Room, form_of, joint_of, all_same, standing, Stands, part, after, skip, balanced, GivenPart, GivenParts, Placed, block_of, listed};
ghost use Rattle.types.specs.Entries.{ends};

use array::btree_split_index;
use num::NonZeroPow2Usize;
use types::{Head, Table};

// The records of a lowered type. They are bytes and no enum: they are written here, and nothing reads them as records again.
const UNIT: u8 = 0;

const SUM: u8 = 1;

const PRODUCT: u8 = 2;

// What the parts of a balanced tree are, and where they stand in the type file.
// They are `types::Parts` and two more: a value has no bits and no choices side by side, and its lowered type has.
#[derive(Clone, Copy)]
pub enum Parts {
    // the bits of an integer, all of them told by its one record
    Bits,
    // the parts of an array, all of them told by the one type below it
    Copies,
    // the types of a tuple or a Variant, one after the other
    Types,
    // the types of an Either or the Variants of an Enum, one after the other
    Choices,
}

// What a record's lowered type is: a balanced tree of so many parts, or a list.
// It is no `types::Form`: bits, products, sums and payloads are all one tree here, and one function writes it.
#[derive(Clone, Copy)]
pub enum Form {
    Tree(Parts, usize),
    List(NonZeroPow2Usize),
}

// The place after what was written, in the file it was read from, and the number of bytes.
#[derive(Clone, Copy)]
pub struct Written {
    pub next: usize,
    pub len: usize,
}

// The form of what a record says; a unit, the tree of no parts, for a Never and where there is no type.
#[tactic(auto, unfolding(crate::specs::Forms::form_of))]
pub fn form_of(h: Head) -> Form
    ensures { result ≡ form_of h }
{
    match h.form() {
        types::Form::Nothing => Form::Tree(Parts::Types, 0),
        types::Form::Bit => Form::Tree(Parts::Bits, 1),
        types::Form::Integer(n) => Form::Tree(Parts::Bits, n),
        types::Form::Product(types::Parts::Copies, n) => Form::Tree(Parts::Copies, n),
        types::Form::Product(types::Parts::Types, n) | types::Form::Payload(n) => Form::Tree(
            Parts::Types,
            n,
        ),
        types::Form::Sum(n) => Form::Tree(Parts::Choices, n),
        types::Form::List(bound) => Form::List(bound),
    }
}

impl Parts {
    // The record that joins the two sides of a tree.
    fn joint(self) -> u8
        ensures { result ≡ joint_of self }
    {
        match self {
            Parts::Bits | Parts::Copies | Parts::Types => PRODUCT,
            Parts::Choices => SUM,
        }
    }

    // Are the parts all the same?
    pub fn are_same(self) -> bool
        ensures { result ≡ all_same self }
    {
        matches!(self, Parts::Bits | Parts::Copies)
    }
}

// Writes the first `len` bytes once more behind them, and answers the length of both.
// Byte by byte, since the library's copy would want `memmove` from outside, where the static library wants `memset` alone.
fn repeat(out: &mut [u8], len: usize) -> usize
    requires { len + len ≤ length out.old }
    ensures { Wrote (take len out.old ++ take len out.old) out.old out.new result }
{
    for i in 0..len {
        out[len + i] = out[i];
    }
    len + len
}

// Writes a bit, a sum of two units, and answers its three bytes.
#[tactic(auto, unfolding(model::specs::Structural::type_records))]
fn write_bit(out: &mut [u8]) -> usize
    requires { Room (𝟙 ⊕ 𝟙) out.old }
    ensures { Wrote (type_records (𝟙 ⊕ 𝟙)) out.old out.new result }
{
    out[0] = SUM;
    out[1] = UNIT;
    out[2] = UNIT;
    3
}

// Writes what stands at record `at`, a type or a Variant's payload, with `level` levels from there on, and answers the length.
// One walk for this and `room`'s over a trait was tried as far as its clauses and measures: a trait of six methods, four ghost members and at least five laws, and two impls of it, are more than the four functions that `room` saves, and `room` would look at a list's element once for each block, where it looks once.
// `Stands`, `GivenPart`, `GivenParts` and `Room` are asked at another place, or of another type, at each call, so a struct that carries them would be built, and its field proved, anew each time (`at` and `level` in a struct: docs/DECISIONS.md).
#[cycle(write_block_write_list_write_part_write_record_write_tree)]
fn write_record(table: &Table<'_>, at: usize, level: usize, out: &mut [u8]) -> usize
    requires stands { Stands level table.now.ty.now (ends table.now.entries.now) at }
    requires room { Room (standing level table.now.ty.now at) out.old }
    ensures { Wrote (type_records (standing level table.now.ty.now at)) out.old out.new result }
{
    match form_of(table.head(at)) {
        Form::Tree(parts, n) => write_tree(table, at + 1, level - 1, n, parts, out).len,
        Form::List(bound) => write_list(table, at + 1, level - 1, bound, out),
    }
}

// Writes the part at record `at`, and answers its length and the record of the part after it.
#[cycle(write_block_write_list_write_part_write_record_write_tree)]
fn write_part(table: &Table<'_>, at: usize, level: usize, parts: Parts, out: &mut [u8]) -> Written
    requires given_part { GivenPart parts level table.now.ty.now (ends table.now.entries.now) at }
    requires room { Room (part parts level table.now.ty.now at) out.old }
    ensures { Placed (part parts level table.now.ty.now at) (after parts level table.now.ty.now at) out.old out.new result }
{
    match parts {
        Parts::Bits => Written {
            next: at,
            len: write_bit(out),
        },
        Parts::Copies => Written {
            next: at,
            len: write_record(table, at, level, out),
        },
        Parts::Types | Parts::Choices => Written {
            next: table.end(at),
            len: write_record(table, at, level, out),
        },
    }
}

// Writes the balanced tree of the n parts from record `at` on, a unit for none, and answers its length and the record after the parts.
#[cycle(write_block_write_list_write_part_write_record_write_tree)]
fn write_tree(
    table: &Table<'_>,
    at: usize,
    level: usize,
    n: usize,
    parts: Parts,
    out: &mut [u8],
) -> Written
    requires n_le_most_parts { n ≤ most_parts }
    requires given_parts { GivenParts parts level table.now.ty.now (ends table.now.entries.now) n at }
    requires room { Room (balanced parts level table.now.ty.now n at) out.old }
    ensures { Placed (balanced parts level table.now.ty.now n at) (skip parts level table.now.ty.now n at) out.old out.new result }
{
    // `if`, not `match`: none and one leave early, and what is left, most of the body, stands unindented.
    if n == 0 {
        out[0] = UNIT;
        return Written { next: at, len: 1 };
    }
    if n == 1 {
        return write_part(table, at, level, parts, out);
    }
    out[0] = parts.joint();
    let few = btree_split_index(n);
    let others = n - few;
    let left = write_tree(table, at, level, few, parts, &mut out[1..]);
    if few == others && parts.are_same() {
        return Written {
            next: at,
            len: repeat(&mut out[1..], left.len) + 1,
        };
    }
    let k = left.len + 1;
    let right = write_tree(table, left.next, level, others, parts, &mut out[k..]);
    Written {
        next: right.next,
        len: right.len + k,
    }
}

// Writes a block of n parts of the type at record `at`, a unit or all of them, and answers its length.
#[cycle(write_block_write_list_write_part_write_record_write_tree)]
fn write_block(table: &Table<'_>, at: usize, level: usize, n: usize, out: &mut [u8]) -> usize
    requires n_le_most_parts { n ≤ most_parts }
    requires stands { Stands level table.now.ty.now (ends table.now.entries.now) at }
    requires room { Room (block_of level table.now.ty.now n at) out.old }
    ensures { Wrote (type_records (block_of level table.now.ty.now n at)) out.old out.new result }
{
    out[0] = SUM;
    out[1] = UNIT;
    write_tree(table, at, level, n, Parts::Copies, &mut out[2..]).len + 2
}

// Writes the list with the bound of the type at record `at`, and answers its length: with the bound 2 a block of 1, else a block of half the bound and the list with that bound.
#[cycle(write_block_write_list_write_part_write_record_write_tree)]
fn write_list(
    table: &Table<'_>,
    at: usize,
    level: usize,
    bound: NonZeroPow2Usize,
    out: &mut [u8],
) -> usize
    requires stands { Stands level table.now.ty.now (ends table.now.entries.now) at }
    requires room { Room (listed level table.now.ty.now bound at) out.old }
    ensures { Wrote (type_records (listed level table.now.ty.now bound at)) out.old out.new result }
{
    match bound.checked_div2() {
        None => write_block(table, at, level, 1, out),
        Some(half) => {
            out[0] = PRODUCT;
            let k = write_block(table, at, level, half.get(), &mut out[1..]) + 1;
            write_list(table, at, level, half, &mut out[k..]) + k
        }
    }
}

// Writes the lowered type of the type at record `at`, with `level` levels from there on, and answers its length; the bytes behind it stay.
// A Never, which has no lowered type, is written as a unit.
pub fn write_lowered(table: &Table<'_>, at: usize, level: usize, out: &mut [u8]) -> usize
    requires given { Given level false table.now.ty.now (ends table.now.entries.now) at }
    requires room { Room (low level false table.now.ty.now at) out.old }
    ensures { Wrote (type_records (low level false table.now.ty.now at)) out.old out.new result }
{
    write_record(table, at, level, out)
}
