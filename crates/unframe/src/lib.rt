// The reader of a frame into a value file (01, 'Frame'; ported from no Rust file): a type and a frame are walked together, and the value's records are written.
// The frame was accepted before, so nothing is tested again.
// The clauses `Inside`, `Ready` and `ReadyNumbered` speak of what stands at the bit of one call as what that call takes it for, so no value that the walk hands on could carry them.
// Frame and bit are handed on apart: the bit alone moves, and a struct of both would be made anew at each call.
#![tactic(auto)]

ghost use Rattle.std.specs.Prelude.{◌≡◌, false, ◌≤◌};
ghost use Rattle.model.specs.Balanced.{btree};
ghost use Rattle.model.specs.Structural.{block_type};
ghost use Rattle.model.specs.Frames.{width};
ghost use Rattle.types.specs.Steps.{Given};
ghost use Rattle.structural.specs.Forms.{Stands};
ghost use Rattle.structural.specs.Forms as structural;
ghost use Rattle.bits.specs.Bits.{Inside};
ghost use Rattle.told.specs.Forms.{GivenParts, Hops};
ghost use Rattle.accept.specs.Forms.{choice_in, row_width};
ghost use Rattle.told.specs.Widths.{Wide};
ghost use Rattle.unframe.specs.Forms.{standing, row, block, listed, height, Chosen, Ready, ReadyNumbered, Placed, PlacedNumbered};
ghost use Rattle.types.specs.Entries.{ends, widths};

use array::btree_split_index;
use num::NonZeroPow2Usize;
use reader::{bit_at, uint_at};
use record::write_mark;
use told::{after_part, hop};
use types::{Form, LEVELS, Parts, Table};
use value::RECORD;

// The number of a choice, the type's record of it, and the bit at which it begins: three numbers of three kinds, so each has its name.
#[derive(Clone, Copy)]
pub struct Choice {
    pub number: usize,
    pub at: usize,
    pub bit: usize,
}

// How many elements were written, and in how many bytes: two counts, which a pair would let a caller exchange.
#[derive(Clone, Copy)]
struct Numbered {
    number: usize,
    len: usize,
}

// The one of the n choices from record `at` on that the tags from `bit` on lead to.
pub fn find_choice(table: &Table<'_>, at: usize, n: usize, frame: &[u8], bit: usize) -> Choice
    requires le_n { (1 ≤ n) × (n ≤ 65536) }
    requires hops { Hops (ends table.now.entries.now) n at }
    requires inside { Inside frame.now bit (height (btree n)) }
    ensures { Chosen (ends table.now.entries.now) at (choice_in n frame.now bit) result }
{
    if n == 1 {
        return Choice { number: 0, at, bit };
    }
    let few = btree_split_index(n);
    if bit_at(frame, bit) {
        let others = n - few;
        let other = find_choice(table, hop(table, at, few), others, frame, bit + 1);
        return Choice {
            number: few + other.number,
            ..other
        };
    }
    find_choice(table, at, few, frame, bit + 1)
}

// Writes the value that stands in the frame from `bit` on as one of what stands at record `at`, a type or a Variant's payload, with `level` levels from there on, and answers the bytes written.
// Of the walks by a type's form this one reads bits of a frame and writes records; the widths tell where each part begins, so a product is a loop and no step answers the bit after it.
// What stands behind a record is written before its mark, which may need the number found there. Each arm that does so marks by itself: a function for these two lines would take the buffer, the head, the number and the length.
#[cycle(write_block_write_list_write_record_write_row)]
pub fn write_record(
    table: &Table<'_>,
    at: usize,
    level: usize,
    frame: &[u8],
    bit: usize,
    out: &mut [u8],
) -> usize
    requires stands { Stands level table.now.ty.now (ends table.now.entries.now) at }
    requires wide { Wide table.now.ty.now (ends table.now.entries.now) (widths table.now.entries.now) }
    requires inside { Inside frame.now bit (width (structural.standing level table.now.ty.now at)) }
    requires ready { Ready (standing level table.now.ty.now at frame.now bit) out.old }
    ensures { Placed (standing level table.now.ty.now at frame.now bit) out.old out.new result }
{
    let h = table.head(at);
    match h.form() {
        Form::Nothing => 0,
        Form::Bit => {
            write_mark(out, h, usize::from(bit_at(frame, bit)));
            RECORD
        }
        Form::Integer(w) => {
            write_mark(out, h, 0);
            uint_at(frame, bit, &mut out[4..RECORD], w);
            RECORD
        }
        Form::Product(parts, n) => {
            let k = write_row(
                table,
                at + 1,
                level - 1,
                n,
                parts,
                frame,
                bit,
                &mut out[RECORD..],
            );
            write_mark(out, h, n);
            k + RECORD
        }
        Form::Sum(n) => {
            let choice = find_choice(table, at + 1, n, frame, bit);
            let k = write_record(
                table,
                choice.at,
                level - 1,
                frame,
                choice.bit,
                &mut out[RECORD..],
            );
            write_mark(out, h, choice.number);
            k + RECORD
        }
        Form::List(bound) => {
            let list = write_list(
                table,
                at + 1,
                level - 1,
                bound,
                frame,
                bit,
                &mut out[RECORD..],
            );
            write_mark(out, h, list.number);
            list.len + RECORD
        }
        Form::Payload(n) => write_row(table, at + 1, level - 1, n, Parts::Types, frame, bit, out),
    }
}

// Writes the n parts from record `at` on, which stand one behind the other in the frame from `bit` on.
#[cycle(write_block_write_list_write_record_write_row)]
fn write_row(
    table: &Table<'_>,
    at: usize,
    level: usize,
    n: usize,
    parts: Parts,
    frame: &[u8],
    bit: usize,
    out: &mut [u8],
) -> usize
    requires given_parts { GivenParts parts level table.now.ty.now (ends table.now.entries.now) n at }
    requires wide { Wide table.now.ty.now (ends table.now.entries.now) (widths table.now.entries.now) }
    requires inside { Inside frame.now bit (row_width parts level table.now.ty.now n at) }
    requires ready { Ready (row parts level table.now.ty.now n at frame.now bit) out.old }
    ensures { Placed (row parts level table.now.ty.now n at frame.now bit) out.old out.new result }
{
    let mut place = at;
    let mut here = bit;
    let mut k = 0;
    for _ in 0..n {
        k += write_record(table, place, level, frame, here, &mut out[k..]);
        here += table.width(place);
        place = after_part(table, place, parts);
    }
    k
}

// Writes the elements of a block of n of what stands at record `at`, none or all of them.
#[cycle(write_block_write_list_write_record_write_row)]
fn write_block(
    table: &Table<'_>,
    at: usize,
    level: usize,
    n: usize,
    frame: &[u8],
    bit: usize,
    out: &mut [u8],
) -> Numbered
    requires stands { Stands level table.now.ty.now (ends table.now.entries.now) at }
    requires wide { Wide table.now.ty.now (ends table.now.entries.now) (widths table.now.entries.now) }
    requires inside { Inside frame.now bit (width (block_type n (structural.standing level table.now.ty.now at))) }
    requires ready_numbered { ReadyNumbered (block level table.now.ty.now n at frame.now bit) out.old }
    ensures { PlacedNumbered (block level table.now.ty.now n at frame.now bit) out.old out.new result }
{
    if !bit_at(frame, bit) {
        return Numbered { number: 0, len: 0 };
    }
    Numbered {
        number: n,
        len: write_row(table, at, level, n, Parts::Copies, frame, bit + 1, out),
    }
}

// Writes the elements of a list with the bound: with the bound 2 none or one, else a block of half the bound and a list with that bound.
// The bound 2 has arms of its own, and no block of one: the largest frame's `read_frame` takes 6 % less so.
#[cycle(write_block_write_list_write_record_write_row)]
fn write_list(
    table: &Table<'_>,
    at: usize,
    level: usize,
    bound: NonZeroPow2Usize,
    frame: &[u8],
    bit: usize,
    out: &mut [u8],
) -> Numbered
    requires stands { Stands level table.now.ty.now (ends table.now.entries.now) at }
    requires wide { Wide table.now.ty.now (ends table.now.entries.now) (widths table.now.entries.now) }
    requires inside { Inside frame.now bit (width (structural.listed level table.now.ty.now bound at)) }
    requires ready_numbered { ReadyNumbered (listed level table.now.ty.now bound at frame.now bit) out.old }
    ensures { PlacedNumbered (listed level table.now.ty.now bound at frame.now bit) out.old out.new result }
{
    match bound.checked_div2() {
        None if !bit_at(frame, bit) => Numbered { number: 0, len: 0 },
        None => Numbered {
            number: 1,
            len: write_record(table, at, level, frame, bit + 1, out),
        },
        Some(half) => {
            let n = half.get();
            let block = write_block(table, at, level, n, frame, bit, out);
            let next = bit + 1 + n * table.width(at);
            let others = write_list(table, at, level, half, frame, next, &mut out[block.len..]);
            Numbered {
                number: block.number + others.number,
                len: block.len + others.len,
            }
        }
    }
}

// Writes the value file that a frame says, and answers its length; the bytes behind it stay.
pub fn write_value(table: &Table<'_>, frame: &[u8], out: &mut [u8]) -> usize
    requires given { Given 32 false table.now.ty.now (ends table.now.entries.now) 0 }
    requires wide { Wide table.now.ty.now (ends table.now.entries.now) (widths table.now.entries.now) }
    requires inside { Inside frame.now 0 (width (structural.standing 32 table.now.ty.now 0)) }
    requires ready { Ready (standing 32 table.now.ty.now 0 frame.now 0) out.old }
    ensures { Placed (standing 32 table.now.ty.now 0 frame.now 0) out.old out.new result }
{
    write_record(table, 0, LEVELS, frame, 0, out)
}
