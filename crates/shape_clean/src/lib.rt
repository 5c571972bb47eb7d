// Cleaning a shape (R-6), the second pass: a type and a shape that was read before are walked together, and the shape is copied, with a unit at
// each spot where an empty tuple, an array of 0 or a variant without parts is read.
// The right side of a pair is written into the rest of the buffer after its left, so that each byte is written once.
#![tactic(auto)]

ghost use Rattle.std.specs.Prelude.{◌≡◌, false, ◌≤◌};
ghost use Rattle.types.specs.Trees.{type_in};
ghost use Rattle.types.specs.Steps.{Given};
ghost use Rattle.structural.specs.Forms.{most_parts, Stands};
ghost use Rattle.shape.specs.Forms.{Ready, Placed, Shaped};
ghost use Rattle.types.specs.declared.forms.Parts.TheVariants.{Types};
ghost use Rattle.rebuild.specs.Forms.{GivenParts, standing, bits_of, balanced, chosen, block_of, listed};
ghost use Rattle.rebuild.specs.Places.{bit, passes};
ghost use Rattle.shape_clean.specs.Copies.{copied, copier, copies};
ghost use Rattle.types.specs.Entries.{ends};

use array::{LEFT, PAIR, RIGHT, UNIT, btree_split_index, tree_end};
use num::NonZeroPow2Usize;
use rebuild::after;
use structural::Written;
use told::hop;
use types::{Form, LEVELS, Parts, Table};

// Writes a unit for the tree at place p, whatever it is.
fn copy_spot(shape: &[u8], p: usize, out: &mut [u8]) -> Written
    requires { Ready (passes copied shape.now p) out.old }
    ensures { Placed (passes copied shape.now p) out.old out.new result.next result.len }
{
    out[0] = UNIT;
    Written {
        next: tree_end(shape, p).unwrap_or(p),
        len: 1,
    }
}

// Copies the bit at place p.
fn copy_bit(shape: &[u8], p: usize, out: &mut [u8]) -> Written
    requires { Ready (bit copied shape.now p) out.old }
    ensures { Placed (bit copied shape.now p) out.old out.new result.next result.len }
{
    out[0] = shape[p];
    out[1] = UNIT;
    Written {
        next: p + 2,
        len: 2,
    }
}

// Copies the balanced product of n bits at place p.
fn copy_bits(n: usize, shape: &[u8], p: usize, out: &mut [u8]) -> Written
    requires le_n { (1 ≤ n) × (n ≤ 256) }
    requires ready { Ready (bits_of (copier shape.now) n p) out.old }
    ensures { Placed (bits_of (copier shape.now) n p) out.old out.new result.next result.len }
{
    if n == 1 {
        return copy_bit(shape, p, out);
    }
    out[0] = PAIR;
    let few = btree_split_index(n);
    let left = copy_bits(few, shape, p + 1, &mut out[1..]);
    let k = left.len + 1;
    let right = copy_bits(n - few, shape, left.next, &mut out[k..]);
    Written {
        next: right.next,
        len: right.len + k,
    }
}

// Copies what stands at record `at`, a type or a Variant's payload, with `level` levels from there on.
// The walk goes the way of `rebuild::read_record`, and is no instance of one walk with it: there each record is tested, and what was read is added up or nothing is answered;
// here all is known to stand there, and each record is written into the rest of the buffer behind the last. But for the calls of `hop` and `after` the two do nothing alike.
// A shape with its place, and parts with their number, stay parameters, as there.
#[cycle(copy_block_copy_list_copy_product_copy_record_copy_sum)]
#[tactic(auto, using(crate::proofs::Steps::of_records))]
fn copy_record(
    table: &Table<'_>,
    at: usize,
    level: usize,
    shape: &[u8],
    p: usize,
    out: &mut [u8],
) -> Written
    requires stands { Stands level table.now.ty.now (ends table.now.entries.now) at }
    requires ready { Ready (standing (copier shape.now) level table.now.ty.now at p) out.old }
    ensures { Placed (standing (copier shape.now) level table.now.ty.now at p) out.old out.new result.next result.len }
{
    let first = at + 1;
    let below = level - 1;
    match table.head(at).form() {
        Form::Nothing => Written { next: p, len: 0 },
        Form::Bit => copy_bit(shape, p, out),
        Form::Integer(w) => copy_bits(w, shape, p, out),
        Form::Product(parts, n) => copy_product(table, first, below, n, parts, shape, p, out),
        Form::Sum(n) => copy_sum(table, first, below, n, shape, p, out),
        Form::List(bound) => copy_list(table, first, below, bound, shape, p, out),
        Form::Payload(n) => copy_product(table, first, below, n, Parts::Types, shape, p, out),
    }
}

// Copies the balanced product of the n parts from record `at` on; of none, a unit stands for any tree.
#[cycle(copy_block_copy_list_copy_product_copy_record_copy_sum)]
#[tactic(auto, using(crate::proofs::Steps::of_products))]
fn copy_product(
    table: &Table<'_>,
    at: usize,
    level: usize,
    n: usize,
    parts: Parts,
    shape: &[u8],
    p: usize,
    out: &mut [u8],
) -> Written
    requires n_le_most_parts { n ≤ most_parts }
    requires given_parts { GivenParts parts level table.now.ty.now (ends table.now.entries.now) n at }
    requires ready { Ready (balanced (copier shape.now) parts level table.now.ty.now (ends table.now.entries.now) n at p) out.old }
    ensures { Placed (balanced (copier shape.now) parts level table.now.ty.now (ends table.now.entries.now) n at p) out.old out.new result.next result.len }
{
    match n {
        0 => copy_spot(shape, p, out),
        1 => copy_record(table, at, level, shape, p, out),
        _ => {
            out[0] = PAIR;
            let few = btree_split_index(n);
            let others = n - few;
            // both sides answer into one local, which keeps the stack's frame small
            let mut side = copy_product(table, at, level, few, parts, shape, p + 1, &mut out[1..]);
            let k = side.len + 1;
            let rest = after(table, at, few, parts);
            side = copy_product(
                table,
                rest,
                level,
                others,
                parts,
                shape,
                side.next,
                &mut out[k..],
            );
            Written {
                next: side.next,
                len: side.len + k,
            }
        }
    }
}

// Copies the lefts and rights of a balanced sum of the n records from `at` on, and the one that they lead to.
#[cycle(copy_block_copy_list_copy_product_copy_record_copy_sum)]
#[tactic(auto, using(crate::proofs::Steps::of_sums))]
fn copy_sum(
    table: &Table<'_>,
    at: usize,
    level: usize,
    n: usize,
    shape: &[u8],
    p: usize,
    out: &mut [u8],
) -> Written
    requires le_n { (1 ≤ n) × (n ≤ most_parts) }
    requires given_parts { GivenParts Types level table.now.ty.now (ends table.now.entries.now) n at }
    requires ready { Ready (chosen (copier shape.now) level table.now.ty.now (ends table.now.entries.now) n at p) out.old }
    ensures { Placed (chosen (copier shape.now) level table.now.ty.now (ends table.now.entries.now) n at p) out.old out.new result.next result.len }
{
    if n == 1 {
        return copy_record(table, at, level, shape, p, out);
    }
    let few = btree_split_index(n);
    let tag = shape[p];
    out[0] = tag;
    let (place, count) = if tag == LEFT {
        (at, few)
    } else {
        (hop(table, at, few), n - few)
    };
    let side = copy_sum(table, place, level, count, shape, p + 1, &mut out[1..]);
    Written {
        next: side.next,
        len: side.len + 1,
    }
}

// Copies a block of n of the type at record `at`.
#[cycle(copy_block_copy_list_copy_product_copy_record_copy_sum)]
#[tactic(auto, using(crate::proofs::Steps::of_blocks))]
fn copy_block(
    table: &Table<'_>,
    at: usize,
    level: usize,
    n: usize,
    shape: &[u8],
    p: usize,
    out: &mut [u8],
) -> Written
    requires n_le_most_parts { n ≤ most_parts }
    requires stands { Stands level table.now.ty.now (ends table.now.entries.now) at }
    requires ready { Ready (block_of (copier shape.now) level table.now.ty.now n at p) out.old }
    ensures { Placed (block_of (copier shape.now) level table.now.ty.now n at p) out.old out.new result.next result.len }
{
    if shape[p] == LEFT {
        out[0] = LEFT;
        out[1] = UNIT;
        return Written {
            next: p + 2,
            len: 2,
        };
    }
    out[0] = RIGHT;
    let all = copy_product(
        table,
        at,
        level,
        n,
        Parts::Copies,
        shape,
        p + 1,
        &mut out[1..],
    );
    Written {
        next: all.next,
        len: all.len + 1,
    }
}

// Copies a list with the bound: with the bound 2 a block of 1, else a pair of a block of half the bound and a list with that bound.
#[cycle(copy_block_copy_list_copy_product_copy_record_copy_sum)]
#[tactic(auto, using(crate::proofs::Steps::of_lists))]
fn copy_list(
    table: &Table<'_>,
    at: usize,
    level: usize,
    bound: NonZeroPow2Usize,
    shape: &[u8],
    p: usize,
    out: &mut [u8],
) -> Written
    requires stands { Stands level table.now.ty.now (ends table.now.entries.now) at }
    requires ready { Ready (listed (copier shape.now) level table.now.ty.now bound at p) out.old }
    ensures { Placed (listed (copier shape.now) level table.now.ty.now bound at p) out.old out.new result.next result.len }
{
    match bound.checked_div2() {
        None => copy_block(table, at, level, 1, shape, p, out),
        Some(half) => {
            out[0] = PAIR;
            // the block and the rest answer into one local, too
            let mut block = copy_block(table, at, level, half.get(), shape, p + 1, &mut out[1..]);
            let k = block.len + 1;
            block = copy_list(table, at, level, half, shape, block.next, &mut out[k..]);
            Written {
                next: block.next,
                len: block.len + k,
            }
        }
    }
}

// Writes the cleaned shape over the front of `out`, and answers its length; the bytes behind it stay.
pub fn write_cleaned(table: &Table<'_>, shape: &[u8], out: &mut [u8]) -> usize
    requires given { Given 32 false table.now.ty.now (ends table.now.entries.now) 0 }
    requires ready { Ready (copies shape.now (type_in table.now.ty.now)) out.old }
    ensures { Shaped (copies shape.now (type_in table.now.ty.now)) out.old out.new result }
{
    copy_record(table, 0, LEVELS, shape, 0, out).len
}
