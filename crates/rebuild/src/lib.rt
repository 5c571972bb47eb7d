// Shape files, and the first pass of `reconstruct`, after value.rs: a type and a shape are walked together, and the records of the value file
// are counted, and the shape's records beyond one where a unit belongs.
#![tactic(auto)]

ghost use Rattle.std.specs.Prelude.{◌≡◌, false, ◌≤◌, get_or, length};
ghost use Rattle.model.specs.Numbers.{most_shape_records};
ghost use Rattle.types.specs.Trees.{type_in};
ghost use Rattle.types.specs.Steps.{Given};
ghost use Rattle.types.specs.declared.forms.Parts.TheVariants.{Types};
ghost use Rattle.rebuild.specs.ShapeRows.{ShapeTold};
ghost use Rattle.rebuild.specs.Places.{units, passes, bit};
ghost use Rattle.rebuild.specs.Reads.{plus, counts, reader, value_records};
ghost use Rattle.structural.specs.Forms.{most_parts, Stands};
ghost use Rattle.rebuild.specs.Forms.{most_records, Few, Limits, count_of, surplus_of, skip, Hopped, GivenParts, standing, balanced, bits_of, chosen, block_of, listed};
ghost use Rattle.types.specs.Entries.{ends};

use array::{LEFT, PAIR, RIGHT, UNIT, btree_split_index, tree_end};
use num::NonZeroPow2Usize;
use reply::Refusal;
use told::hop;
use types::{Form, LEVELS, Parts, Table};

// The byte that answers behind the last record of a shape.
const NO_RECORD: u8 = 4;

// The records that a shape may have.
const RECORDS: usize = 65536;

// What reading gives: the place after the shape that was read, the number of value records and the surplus.
// The surplus is the shape's records beyond one where an empty tuple, an array of 0 or a variant without parts is read.
// The walk alone has all three: `structural::Written` is a place and a length, and has no such numbers.
#[derive(Clone, Copy)]
struct Read {
    next: usize,
    records: usize,
    surplus: usize,
}

// The record at place p of a shape, or no record where the shape has ended.
// It is a byte and no Option: each test asks for one or two records by name, and one more byte that no test asks for needs no arm of its own.
pub fn record_at(shape: &[u8], p: usize) -> u8
    ensures { result ≡ get_or shape.now p 4 }
{
    shape.get(p).copied().unwrap_or(NO_RECORD)
}

// What was read, with n records more and k more of surplus.
fn plus(n: usize, k: usize, r: Option<Read>) -> Option<Read>
    requires n_le_most_records { (n ≤ most_records) × (k ≤ most_records) }
    requires few { Few (count_of r) (surplus_of r) }
    ensures { result ≡ plus n k r }
{
    let r = r?;
    Some(Read {
        next: r.next,
        records: n + r.records,
        surplus: k + r.surplus,
    })
}

// Passes over any tree at place p: all but its first record is surplus.
fn read_any(shape: &[u8], p: usize) -> Option<Read>
    ensures { result ≡ passes counts shape.now p }
{
    let next = tree_end(shape, p)?;
    Some(Read {
        next,
        records: 0,
        surplus: next - (p + 1),
    })
}

// Reads a unit at place p.
fn read_unit(shape: &[u8], p: usize) -> Option<Read>
    ensures { result ≡ units counts shape.now p }
{
    if record_at(shape, p) == UNIT {
        return Some(Read {
            next: p + 1,
            records: 0,
            surplus: 0,
        });
    }
    None
}

// Reads a bit at place p, a left or a right with a unit.
fn read_bit(shape: &[u8], p: usize) -> Option<Read>
    ensures { result ≡ bit counts shape.now p }
{
    match record_at(shape, p) {
        LEFT | RIGHT => read_unit(shape, p + 1),
        _ => None,
    }
}

// Reads the balanced product of n bits at place p.
fn read_bits(n: usize, shape: &[u8], p: usize) -> Option<Read>
    requires le_n { (1 ≤ n) × (n ≤ 256) }
    requires shape_len_bound { length shape.now ≤ most_shape_records }
    ensures { result ≡ bits_of (reader shape.now) n p }
{
    if n == 1 {
        return read_bit(shape, p);
    }
    if record_at(shape, p) != PAIR {
        return None;
    }
    let few = btree_split_index(n);
    let left = read_bits(few, shape, p + 1)?;
    let rest = read_bits(n - few, shape, left.next);
    plus(left.records, left.surplus, rest)
}

// Reads what stands at record `at`, a type or a Variant's payload, with `level` levels from there on.
// The shape with its place, and the parts with their number, stay parameters here and below, though `Limits` and `GivenParts` speak of them in each:
// as a struct they would be made anew for each call, which has another place or number.
#[cycle(read_block_read_list_read_product_read_record_read_sum)]
#[tactic(auto, using(crate::proofs::Steps::reading))]
fn read_record(table: &Table<'_>, at: usize, level: usize, shape: &[u8], p: usize) -> Option<Read>
    requires stands { Stands level table.now.ty.now (ends table.now.entries.now) at }
    requires limits { Limits shape.now level }
    ensures { result ≡ standing (reader shape.now) level table.now.ty.now at p }
{
    let first = at + 1;
    let below = level - 1;
    let read = match table.head(at).form() {
        Form::Nothing => None,
        Form::Bit => read_bit(shape, p),
        Form::Integer(w) => read_bits(w, shape, p),
        Form::Product(parts, n) => read_product(table, first, below, n, parts, shape, p),
        Form::Sum(n) => read_sum(table, first, below, n, shape, p),
        Form::List(bound) => read_list(table, first, below, bound, shape, p),
        Form::Payload(n) => {
            return read_product(table, first, below, n, Parts::Types, shape, p);
        }
    };
    plus(1, 0, read)
}

// The record after n parts from record `at` on.
pub fn after(table: &Table<'_>, at: usize, n: usize, parts: Parts) -> usize
    requires { Hopped parts (ends table.now.entries.now) n at }
    ensures { result ≡ skip parts (ends table.now.entries.now) n at }
{
    match parts {
        Parts::Copies => at,
        Parts::Types => hop(table, at, n),
    }
}

// Reads the balanced product of the n parts from record `at` on, any tree for none.
#[cycle(read_block_read_list_read_product_read_record_read_sum)]
#[tactic(auto, using(crate::proofs::Steps::reading))]
fn read_product(
    table: &Table<'_>,
    at: usize,
    level: usize,
    n: usize,
    parts: Parts,
    shape: &[u8],
    p: usize,
) -> Option<Read>
    requires n_le_most_parts { n ≤ most_parts }
    requires given_parts { GivenParts parts level table.now.ty.now (ends table.now.entries.now) n at }
    requires limits { Limits shape.now level }
    ensures { result ≡ balanced (reader shape.now) parts level table.now.ty.now (ends table.now.entries.now) n at p }
{
    match n {
        0 => read_any(shape, p),
        1 => read_record(table, at, level, shape, p),
        _ => {
            if record_at(shape, p) != PAIR {
                return None;
            }
            let few = btree_split_index(n);
            let others = n - few;
            // both sides answer into one local, which keeps the stack's frame small
            let mut side = read_product(table, at, level, few, parts, shape, p + 1);
            let left = side?;
            let rest = after(table, at, few, parts);
            side = read_product(table, rest, level, others, parts, shape, left.next);
            plus(left.records, left.surplus, side)
        }
    }
}

// Reads the one of the n records from `at` on that the lefts and rights of a balanced sum lead to.
#[cycle(read_block_read_list_read_product_read_record_read_sum)]
#[tactic(auto, using(crate::proofs::Steps::reading))]
fn read_sum(
    table: &Table<'_>,
    at: usize,
    level: usize,
    n: usize,
    shape: &[u8],
    p: usize,
) -> Option<Read>
    requires le_n { (1 ≤ n) × (n ≤ most_parts) }
    requires given_parts { GivenParts Types level table.now.ty.now (ends table.now.entries.now) n at }
    requires limits { Limits shape.now level }
    ensures { result ≡ chosen (reader shape.now) level table.now.ty.now (ends table.now.entries.now) n at p }
{
    if n == 1 {
        return read_record(table, at, level, shape, p);
    }
    let few = btree_split_index(n);
    match record_at(shape, p) {
        LEFT => read_sum(table, at, level, few, shape, p + 1),
        RIGHT => {
            let others = n - few;
            read_sum(table, hop(table, at, few), level, others, shape, p + 1)
        }
        _ => None,
    }
}

// Reads a block of n of the type at record `at`: a left with a unit for none, a right with all of them.
#[cycle(read_block_read_list_read_product_read_record_read_sum)]
#[tactic(auto, using(crate::proofs::Steps::reading))]
fn read_block(
    table: &Table<'_>,
    at: usize,
    level: usize,
    n: usize,
    shape: &[u8],
    p: usize,
) -> Option<Read>
    requires n_le_most_parts { n ≤ most_parts }
    requires stands { Stands level table.now.ty.now (ends table.now.entries.now) at }
    requires limits { Limits shape.now level }
    ensures { result ≡ block_of (reader shape.now) level table.now.ty.now n at p }
{
    match record_at(shape, p) {
        LEFT => read_unit(shape, p + 1),
        RIGHT => read_product(table, at, level, n, Parts::Copies, shape, p + 1),
        _ => None,
    }
}

// Reads a list with the bound: with the bound 2 a block of 1, else a pair of a block of half the bound and a list with that bound.
#[cycle(read_block_read_list_read_product_read_record_read_sum)]
#[tactic(auto, using(crate::proofs::Steps::reading))]
fn read_list(
    table: &Table<'_>,
    at: usize,
    level: usize,
    bound: NonZeroPow2Usize,
    shape: &[u8],
    p: usize,
) -> Option<Read>
    requires stands { Stands level table.now.ty.now (ends table.now.entries.now) at }
    requires limits { Limits shape.now level }
    ensures { result ≡ listed (reader shape.now) level table.now.ty.now bound at p }
{
    match bound.checked_div2() {
        // with nothing more: an answer that is handed on as it is takes 16 bytes more of the stack's frame
        None => plus(0, 0, read_block(table, at, level, 1, shape, p)),
        Some(half) => {
            if record_at(shape, p) != PAIR {
                return None;
            }
            let block = read_block(table, at, level, half.get(), shape, p + 1)?;
            let rest = read_list(table, at, level, half, shape, block.next);
            plus(block.records, block.surplus, rest)
        }
    }
}

// Rows 8 and 9 of a shape file: at most 65,536 records, and exactly one tree.
pub fn check_shape(shape: &[u8]) -> Result<(), Refusal>
    ensures { ShapeTold shape.now result }
{
    let n = shape.len();
    if RECORDS < n {
        return Err(Refusal::ShapeTooLong);
    }
    if tree_end(shape, 0) != Some(n) {
        return Err(Refusal::NotOneTree);
    }
    Ok(())
}

// The number of records of the value file that reading the shape gives, 36 bytes each, and the shape's surplus (row 20, if there is any),
// or that it cannot be read (row 10).
// A pair has no names for the two, but both callers name them where they take it apart.
// The type file is an accepted one with its ends; the shape is looked at from its first record on, up to the end of what the type takes.
pub fn value_records(table: &Table<'_>, shape: &[u8]) -> Option<(usize, usize)>
    requires given { Given 32 false table.now.ty.now (ends table.now.entries.now) 0 }
    requires shape_len_bound { length shape.now ≤ most_shape_records }
    ensures { result ≡ value_records (type_in table.now.ty.now) shape.now }
{
    let read = read_record(table, 0, LEVELS, shape, 0)?;
    Some((read.records, read.surplus))
}
