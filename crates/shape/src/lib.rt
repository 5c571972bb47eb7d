// The shape of a value, after value.rs: one byte a record, parent first, from its value file and its type file, which were checked before.
// The right side of a pair is written into the rest of the buffer after its left, so that each byte is written once.
#![tactic(auto)]

ghost use Rattle.std.specs.Prelude.{◌≡◌, false, ◌≤◌, ◌<◌};
ghost use Rattle.model.specs.Structural.{shape_records};
ghost use Rattle.types.specs.Steps.{Given};
ghost use Rattle.structural.specs.Writing.{Wrote};
ghost use Rattle.structural.specs.Forms.{most_parts, Stands};
ghost use Rattle.told.specs.Forms.{standing, skip, GivenParts, bits_told, balanced, chosen, listed};
ghost use Rattle.told.specs.Laws.Lists.{record_bit, block_told};
ghost use Rattle.shape.specs.Forms.{tag_of, Room, BitsThere, Ready, Placed, Shaped};
ghost use Rattle.types.specs.Entries.{ends};

use array::{LEFT, PAIR, RIGHT, UNIT, btree_split_index};
use bits::get_bit;
use num::NonZeroPow2Usize;
use structural::Written;
use told::{Form, after_part, form_of, hop, share};
use types::{LEVELS, Parts, Table};
use value::RECORD;

// The type's record after the parts that were written, and what was written of their values.
#[derive(Clone, Copy)]
struct Row {
    at: usize,
    written: Written,
}

// The tag of bit j of record v.
fn tag(val: &[u8], v: usize, j: usize) -> u8
    requires { BitsThere val.now v j 1 }
    ensures { result ≡ tag_of (record_bit val.now v j) }
{
    let start = v * RECORD;
    let end = start + RECORD;
    if get_bit(&val[start..end], j) {
        RIGHT
    } else {
        LEFT
    }
}

// Writes the balanced product of the n bits from bit j of record v on, each a tag and a unit, and answers its length.
// `restore::write_bits` goes the other way: it reads these records and sets the bits.
fn write_bits(val: &[u8], v: usize, j: usize, n: usize, out: &mut [u8]) -> usize
    requires bits_there { BitsThere val.now v j n }
    requires room { Room (bits_told val.now v j n) out.old }
    ensures { Wrote (shape_records (bits_told val.now v j n)) out.old out.new result }
{
    if n == 1 {
        out[0] = tag(val, v, j);
        out[1] = UNIT;
        return 2;
    }
    out[0] = PAIR;
    let few = btree_split_index(n);
    let others = n - few;
    let k = write_bits(val, v, j, few, &mut out[1..]) + 1;
    write_bits(val, v, j + few, others, &mut out[k..]) + k
}

// Writes the value at record v of what stands at record `at` of the type, with `level` levels from there on, and answers the record after the value and the length.
// The walks of `frame` and `unframe`, `rebuild` and `shape_clean`, `restore` and `accept` over a type read or write other files at each step: bits at any place, or a shape's records. What is the same of them is in `types::Form`, `told` and `array`.
#[cycle(write_block_write_list_write_record_write_sum_write_tree)]
fn write_record(
    table: &Table<'_>,
    at: usize,
    level: usize,
    val: &[u8],
    v: usize,
    out: &mut [u8],
) -> Written
    requires stands { Stands level table.now.ty.now (ends table.now.entries.now) at }
    requires ready { Ready (standing level table.now.ty.now val.now at v) out.old }
    ensures { Placed (standing level table.now.ty.now val.now at v) out.old out.new result.next result.len }
{
    match form_of(table.head(at), val, v) {
        Form::Bits(j, n) => Written {
            next: v + 1,
            len: write_bits(val, v, j, n, out),
        },
        Form::Product(parts, n) => {
            write_tree(table, at + 1, level - 1, n, parts, val, v + 1, out).written
        }
        Form::Sum(n, i) => {
            let place = hop(table, at + 1, i);
            write_sum(table, place, level - 1, n, i, val, v + 1, out)
        }
        Form::List(bound, m) => write_list(table, at + 1, level - 1, bound, m, val, v + 1, out),
        Form::Payload(n) => {
            write_tree(table, at + 1, level - 1, n, Parts::Types, val, v, out).written
        }
    }
}

// Writes the balanced product of the values from record v on, of the n parts from record `at` of the type on, a unit for none.
#[cycle(write_block_write_list_write_record_write_sum_write_tree)]
fn write_tree(
    table: &Table<'_>,
    at: usize,
    level: usize,
    n: usize,
    parts: Parts,
    val: &[u8],
    v: usize,
    out: &mut [u8],
) -> Row
    requires n_le_most_parts { n ≤ most_parts }
    requires given_parts { GivenParts parts level table.now.ty.now (ends table.now.entries.now) n at }
    requires ready { Ready (balanced parts level table.now.ty.now val.now n at v) out.old }
    ensures { Placed (balanced parts level table.now.ty.now val.now n at v) out.old out.new result.written.next result.written.len × (result.at ≡ skip parts level table.now.ty.now n at) }
{
    if n == 0 {
        out[0] = UNIT;
        let written = Written { next: v, len: 1 };
        return Row { at, written };
    }
    if n == 1 {
        return Row {
            at: after_part(table, at, parts),
            written: write_record(table, at, level, val, v, out),
        };
    }
    out[0] = PAIR;
    let few = btree_split_index(n);
    let others = n - few;
    let left = write_tree(table, at, level, few, parts, val, v, &mut out[1..]);
    let k = left.written.len + 1;
    let right = write_tree(
        table,
        left.at,
        level,
        others,
        parts,
        val,
        left.written.next,
        &mut out[k..],
    );
    let written = Written {
        next: right.written.next,
        len: right.written.len + k,
    };
    Row {
        at: right.at,
        written,
    }
}

// Writes choice i of n, the tags that lead to it and the value at record v of what stands at record `at` of the type.
#[cycle(write_block_write_list_write_record_write_sum_write_tree)]
fn write_sum(
    table: &Table<'_>,
    at: usize,
    level: usize,
    n: usize,
    i: usize,
    val: &[u8],
    v: usize,
    out: &mut [u8],
) -> Written
    requires i_lt_n { (i < n) × (n ≤ most_parts) }
    requires stands { Stands level table.now.ty.now (ends table.now.entries.now) at }
    requires ready { Ready (chosen level table.now.ty.now val.now n i at v) out.old }
    ensures { Placed (chosen level table.now.ty.now val.now n i at v) out.old out.new result.next result.len }
{
    if n == 1 {
        return write_record(table, at, level, val, v, out);
    }
    let few = btree_split_index(n);
    let (side, share, choice) = if i < few {
        (LEFT, few, i)
    } else {
        (RIGHT, n - few, i - few)
    };
    out[0] = side;
    let chosen = write_sum(table, at, level, share, choice, val, v, &mut out[1..]);
    Written {
        next: chosen.next,
        len: chosen.len + 1,
    }
}

// Writes a block of n elements, the values from record v on of what stands at record `at` of the type: LEFT and a unit for none, else RIGHT and their tree.
#[cycle(write_block_write_list_write_record_write_sum_write_tree)]
fn write_block(
    table: &Table<'_>,
    at: usize,
    level: usize,
    n: usize,
    val: &[u8],
    v: usize,
    out: &mut [u8],
) -> Written
    requires n_le_most_parts { n ≤ most_parts }
    requires stands { Stands level table.now.ty.now (ends table.now.entries.now) at }
    requires ready { Ready (block_told level table.now.ty.now val.now n at v) out.old }
    ensures { Placed (block_told level table.now.ty.now val.now n at v) out.old out.new result.next result.len }
{
    if n == 0 {
        out[0] = LEFT;
        out[1] = UNIT;
        return Written { next: v, len: 2 };
    }
    out[0] = RIGHT;
    let elements = write_tree(table, at, level, n, Parts::Copies, val, v, &mut out[1..]).written;
    Written {
        next: elements.next,
        len: elements.len + 1,
    }
}

// Writes the list with the bound and m elements, the values from record v on of what stands at record `at` of the type: with the bound 2 a block of all, else the block of half the bound and the list of the rest with that bound.
#[cycle(write_block_write_list_write_record_write_sum_write_tree)]
fn write_list(
    table: &Table<'_>,
    at: usize,
    level: usize,
    bound: NonZeroPow2Usize,
    m: usize,
    val: &[u8],
    v: usize,
    out: &mut [u8],
) -> Written
    requires few { m < bound.value }
    requires stands { Stands level table.now.ty.now (ends table.now.entries.now) at }
    requires ready { Ready (listed level table.now.ty.now val.now bound m at v) out.old }
    ensures { Placed (listed level table.now.ty.now val.now bound m at v) out.old out.new result.next result.len }
{
    match bound.checked_div2() {
        None => write_block(table, at, level, m, val, v, out),
        Some(half) => {
            out[0] = PAIR;
            let n = share(m, half.get());
            let left = write_block(table, at, level, n, val, v, &mut out[1..]);
            let k = left.len + 1;
            let others = m - n;
            let right = write_list(
                table,
                at,
                level,
                half,
                others,
                val,
                left.next,
                &mut out[k..],
            );
            Written {
                next: right.next,
                len: right.len + k,
            }
        }
    }
}

// Writes the shape of the value file, one of the type file, and answers its length; the bytes behind it stay.
pub fn write_shape(table: &Table<'_>, val: &[u8], out: &mut [u8]) -> usize
    requires given { Given 32 false table.now.ty.now (ends table.now.entries.now) 0 }
    requires ready { Ready (standing 32 table.now.ty.now val.now 0 0) out.old }
    ensures { Shaped (standing 32 table.now.ty.now val.now 0 0) out.old out.new result }
{
    write_record(table, 0, LEVELS, val, 0, out).len
}
