// The second pass of `reconstruct`, after value.rs: a type and a shape are walked together, and the value file is written.
// The shape was read before and gives a value, so nothing is tested again.
// The clauses `Found`, `Ready` and `ReadyNumbered` speak of what stands at the place of one call as what that call takes it for, so no value that the walk hands on could carry them.
// Shape and place are handed on apart: the place alone moves, and a struct of both would be made anew at each call.
#![tactic(auto)]

ghost use Rattle.std.specs.Prelude.{◌≡◌, false, ◌<◌, ◌≤◌, ◌+◌, length, get_or};
ghost use Rattle.types.specs.Steps.{Given};
ghost use Rattle.structural.specs.Forms.{Stands};
ghost use Rattle.types.specs.declared.forms.Parts.TheVariants.{Types};
ghost use Rattle.told.specs.Forms.{GivenParts, skip};
ghost use Rattle.record.specs.Trees.{bit_row, product, sum, elements};
ghost use Rattle.restore.specs.Forms.{held, tree_at, made_at, standing, Found, Ends, Ready, ReadyNumbered, Placed, PlacedNumbered, Whole, BitsPlaced, IntegerPlaced};
ghost use Rattle.types.specs.Entries.{ends};

use array::{LEFT, RIGHT, btree_split_index, tree_end};
use bits::{INTEGER_BITS, set_bit, write_zeros};
use num::NonZeroPow2Usize;
use record::write_mark;
use structural::Written;
use told::{after_part, hop};
use types::{Form, LEVELS, Parts, Table};
use value::RECORD;

// Writes the balanced product of n bits at place q to bit j of an integer's bytes and on, and answers the place after it.
// It goes the way of shape's `write_bits`, which has the bits and writes the tree; here the tree is read, and tells where its right side begins.
fn write_bits(shape: &[u8], q: usize, n: usize, int: &mut [u8], j: usize) -> usize
    requires le_n { (1 ≤ n) × (n ≤ 256) × (length int.old ≡ 32) × (j + n ≤ 256) }
    requires found { Found (made_at shape.now (bit_row n) q) }
    ensures { BitsPlaced (made_at shape.now (bit_row n) q) int.old j int.new result }
{
    if n == 1 {
        set_bit(int, j, shape[q] == RIGHT);
        return q + 2;
    }
    let few = btree_split_index(n);
    let others = n - few;
    let mid = write_bits(shape, q + 1, few, int, j);
    write_bits(shape, mid, others, int, j + few)
}

// Writes the integer of w bits at place q, and answers the place after it.
fn write_integer(shape: &[u8], q: usize, w: usize, int: &mut [u8]) -> usize
    requires le_w { (1 ≤ w) × (w ≤ 256) × (length int.old ≡ 32) }
    requires found { Found (made_at shape.now (bit_row w) q) }
    ensures { IntegerPlaced (made_at shape.now (bit_row w) q) int.new result }
{
    let lead = INTEGER_BITS - w;
    write_zeros(int, 0, lead);
    write_bits(shape, q, w, int, lead)
}

// The place after the tree at place q, which is there.
#[tactic(auto, using(crate::specs::Laws::Places::passed))]
fn pass(shape: &[u8], q: usize) -> usize
    requires { Found (tree_at shape.now q) }
    ensures { Ends (tree_at shape.now q) result }
{
    tree_end(shape, q).unwrap_or(q)
}

// Writes the value at place q as one of what stands at record `at`, a type or a Variant's payload, with `level` levels from there on.
// Of the walks by a type's form this one reads places of a shape and writes records: the writers of `structural` and `shape` read no shape, and `shape_clean` writes no records.
#[cycle(write_list_write_product_write_record_write_sum)]
fn write_record(
    table: &Table<'_>,
    at: usize,
    level: usize,
    shape: &[u8],
    q: usize,
    out: &mut [u8],
) -> Written
    requires stands { Stands level table.now.ty.now (ends table.now.entries.now) at }
    requires ready { Ready (standing shape.now level table.now.ty.now at q) out.old }
    ensures { Placed (standing shape.now level table.now.ty.now at q) out.old out.new result }
{
    let h = table.head(at);
    match h.form() {
        Form::Nothing => Written { next: q, len: 0 },
        Form::Bit => {
            write_mark(out, h, usize::from(shape[q] == RIGHT));
            Written {
                next: q + 2,
                len: RECORD,
            }
        }
        Form::Integer(w) => {
            write_mark(out, h, 0);
            Written {
                next: write_integer(shape, q, w, &mut out[4..RECORD]),
                len: RECORD,
            }
        }
        Form::Product(parts, n) => {
            let (_, below) = write_product(
                table,
                at + 1,
                level - 1,
                n,
                parts,
                shape,
                q,
                &mut out[RECORD..],
            );
            write_mark(out, h, n);
            Written {
                len: below.len + RECORD,
                ..below
            }
        }
        Form::Sum(n) => {
            let (i, below) = write_sum(
                table,
                at + 1,
                level - 1,
                n,
                0,
                shape,
                q,
                &mut out[RECORD..],
            );
            write_mark(out, h, i);
            Written {
                len: below.len + RECORD,
                ..below
            }
        }
        Form::List(bound) => {
            let (n, below) = write_list(
                table,
                at + 1,
                level - 1,
                bound,
                shape,
                q,
                &mut out[RECORD..],
            );
            write_mark(out, h, n);
            Written {
                len: below.len + RECORD,
                ..below
            }
        }
        Form::Payload(n) => {
            write_product(table, at + 1, level - 1, n, Parts::Types, shape, q, out).1
        }
    }
}

// Writes the n parts from record `at` on, whose balanced product stands at place q, and answers the type's record after them too; of none, any tree is passed over.
#[cycle(write_list_write_product_write_record_write_sum)]
fn write_product(
    table: &Table<'_>,
    at: usize,
    level: usize,
    n: usize,
    parts: Parts,
    shape: &[u8],
    q: usize,
    out: &mut [u8],
) -> (usize, Written)
    requires n_bound { n ≤ 65536 }
    requires given_parts { GivenParts parts level table.now.ty.now (ends table.now.entries.now) n at }
    requires ready { Ready (made_at shape.now (product parts level table.now.ty.now n at) q) out.old }
    ensures { (result.0 ≡ skip parts level table.now.ty.now n at) × Placed (made_at shape.now (product parts level table.now.ty.now n at) q) out.old out.new result.1 }
{
    match n {
        0 => {
            let next = pass(shape, q);
            (at, Written { next, len: 0 })
        }
        1 => {
            let one = write_record(table, at, level, shape, q, out);
            (after_part(table, at, parts), one)
        }
        _ => {
            let few = btree_split_index(n);
            let others = n - few;
            // both sides answer into one local, which keeps the stack's frame small
            let mut side = write_product(table, at, level, few, parts, shape, q + 1, out);
            let k = side.1.len;
            side = write_product(
                table,
                side.0,
                level,
                others,
                parts,
                shape,
                side.1.next,
                &mut out[k..],
            );
            side.1.len += k;
            side
        }
    }
}

// Writes the one of the n records from `at` on that the lefts and rights at place q lead to, and answers its number too; the first one's is i.
#[cycle(write_list_write_product_write_record_write_sum)]
fn write_sum(
    table: &Table<'_>,
    at: usize,
    level: usize,
    n: usize,
    i: usize,
    shape: &[u8],
    q: usize,
    out: &mut [u8],
) -> (usize, Written)
    requires le_n { (1 ≤ n) × (i + n ≤ 65536) }
    requires given_parts { GivenParts Types level table.now.ty.now (ends table.now.entries.now) n at }
    requires ready_numbered { ReadyNumbered (made_at shape.now (sum level table.now.ty.now (ends table.now.entries.now) n at) q) out.old }
    ensures { PlacedNumbered (made_at shape.now (sum level table.now.ty.now (ends table.now.entries.now) n at) q) i out.old out.new result.0 result.1 }
{
    if n == 1 {
        return (i, write_record(table, at, level, shape, q, out));
    }
    let few = btree_split_index(n);
    if shape[q] == LEFT {
        return write_sum(table, at, level, few, i, shape, q + 1, out);
    }
    let others = n - few;
    write_sum(
        table,
        hop(table, at, few),
        level,
        others,
        i + few,
        shape,
        q + 1,
        out,
    )
}

// How many elements the block of n at place q holds: none with a left, else all.
#[tactic(auto, unfolding(crate::specs::Forms::held))]
fn held(shape: &[u8], q: usize, n: usize) -> usize
    requires { q < length shape.now }
    ensures { result ≡ held (get_or shape.now q 0) n }
{
    if shape[q] == LEFT { 0 } else { n }
}

// Writes the elements of a list with the bound, and answers how many too: with the bound 2 none or one, else those of a block of half the bound and of a list with that bound.
#[cycle(write_list_write_product_write_record_write_sum)]
fn write_list(
    table: &Table<'_>,
    at: usize,
    level: usize,
    bound: NonZeroPow2Usize,
    shape: &[u8],
    q: usize,
    out: &mut [u8],
) -> (usize, Written)
    requires stands { Stands level table.now.ty.now (ends table.now.entries.now) at }
    requires ready_numbered { ReadyNumbered (made_at shape.now (elements level table.now.ty.now bound at) q) out.old }
    ensures { PlacedNumbered (made_at shape.now (elements level table.now.ty.now bound at) q) 0 out.old out.new result.0 result.1 }
{
    match bound.checked_div2() {
        None if shape[q] == LEFT => {
            let next = pass(shape, q + 1);
            (0, Written { next, len: 0 })
        }
        None => (1, write_record(table, at, level, shape, q + 1, out)),
        Some(half) => {
            let front = q + 1;
            let n = held(shape, front, half.get());
            // one local for both, as in `write_product`; a block of none passes over its unit
            let mut side = write_product(table, at, level, n, Parts::Copies, shape, front + 1, out);
            let k = side.1.len;
            side = write_list(table, at, level, half, shape, side.1.next, &mut out[k..]);
            side.0 += n;
            side.1.len += k;
            side
        }
    }
}

// Writes the value file that a shape gives, and answers its length; the bytes behind it stay.
pub fn write_value(table: &Table<'_>, shape: &[u8], out: &mut [u8]) -> usize
    requires given { Given 32 false table.now.ty.now (ends table.now.entries.now) 0 }
    requires ready { Ready (standing shape.now 32 table.now.ty.now 0 0) out.old }
    ensures { Whole (standing shape.now 32 table.now.ty.now 0 0) out.old out.new result }
{
    write_record(table, 0, LEVELS, shape, 0, out).len
}
