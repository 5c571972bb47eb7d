// The most records that a shape of a type has (R-1 of 02; ported from no Rust file), in one walk over the type file: each record is looked at once at most, whatever its type lowers to.
// Of parts that are all the same, and of a list's elements, one is looked at, and the others are counted with it.
#![tactic(auto)]

ghost use Rattle.std.specs.Prelude.{◌≡◌, false, ◌+◌, ◌-◌, ◌*◌, ◌≤◌};
ghost use Rattle.model.specs.Numbers.{most_shape_records};
ghost use Rattle.model.specs.Room.{longest_shape};
ghost use Rattle.num.specs.Powers.{bound_log2};
ghost use Rattle.types.specs.Steps.{Given};
ghost use Rattle.types.specs.Lows.{low};
ghost use Rattle.structural.specs.Forms.{most_parts, standing, Stands, part, after, skip, balanced, GivenPart, GivenParts};
ghost use Rattle.room.specs.Counting.{Small, joined, Counted};
ghost use Rattle.types.specs.Entries.{ends};

use array::btree_split_index;
use num::NonZeroPow2Usize;
use structural::{Form, Parts, form_of};
use types::{LEVELS, Table};

// The record after some parts, and the most records of a shape of what they make. It is no `structural::Written`: nothing is written, and `most` is no length.
#[derive(Clone, Copy)]
struct Longest {
    next: usize,
    most: usize,
}

// The most records of two sides that are joined: both of a product, the longer of a sum, and the record that joins them.
fn longest_joint(parts: Parts, left: usize, right: usize) -> usize
    requires { (left ≤ most_shape_records) × (right ≤ most_shape_records) }
    ensures { result ≡ joined parts left right }
{
    match parts {
        Parts::Bits | Parts::Copies | Parts::Types => left + right + 1,
        Parts::Choices => left.max(right) + 1,
    }
}

// The most records of n parts that have `most` each: theirs, and the pairs that join them.
#[tactic(auto, using(crate::specs::Laws::product_small))]
fn longest_same(most: usize, n: usize) -> usize
    requires { (1 ≤ n) × (n ≤ most_parts) × (most ≤ most_shape_records) }
    ensures { result ≡ n * most + (n - 1) }
{
    n * most + (n - 1)
}

// The most records of a list with the bound whose elements have `most` each: as many elements as it can hold, a record for each of them (the pairs of its block and the block's own), and the pairs that join the blocks.
#[tactic(auto, using(types::specs::Heads::admitted_bound, types::specs::Heads::admitted_log, crate::specs::Laws::product_small))]
fn longest_list(most: usize, bound: NonZeroPow2Usize) -> usize
    requires { most ≤ most_shape_records }
    ensures { result ≡ (bound.value - 1) * most + (bound.value - 1) + (bound_log2 bound.value - 1) }
{
    let n = bound.get() - 1;
    n * most + n + (bound.log2() - 1)
}

// The most records of a shape of what stands at record `at`, a type or a Variant's payload, with `level` levels from there on.
// Why it is no one walk with structural's: see `write_record` there. `Small` is asked of another type at each call, as `Room` is there.
#[cycle(longest_part_longest_record_longest_tree)]
fn longest_record(table: &Table<'_>, at: usize, level: usize) -> usize
    requires stands { Stands level table.now.ty.now (ends table.now.entries.now) at }
    requires small { Small (standing level table.now.ty.now at) }
    ensures { result ≡ longest_shape (standing level table.now.ty.now at) }
{
    match form_of(table.head(at)) {
        Form::Tree(parts, n) => longest_tree(table, at + 1, level - 1, n, parts).most,
        Form::List(bound) => {
            let most = longest_record(table, at + 1, level - 1);
            longest_list(most, bound)
        }
    }
}

// Those of the part at record `at`, and the record of the part after it.
#[cycle(longest_part_longest_record_longest_tree)]
fn longest_part(table: &Table<'_>, at: usize, level: usize, parts: Parts) -> Longest
    requires given_part { GivenPart parts level table.now.ty.now (ends table.now.entries.now) at }
    requires small { Small (part parts level table.now.ty.now at) }
    ensures { Counted (part parts level table.now.ty.now at) (after parts level table.now.ty.now at) result }
{
    match parts {
        Parts::Bits => Longest { next: at, most: 2 },
        Parts::Copies => Longest {
            next: at,
            most: longest_record(table, at, level),
        },
        Parts::Types | Parts::Choices => Longest {
            next: table.end(at),
            most: longest_record(table, at, level),
        },
    }
}

// Those of the balanced tree of the n parts from record `at` on, a unit for none, and the record after the parts.
#[cycle(longest_part_longest_record_longest_tree)]
fn longest_tree(table: &Table<'_>, at: usize, level: usize, n: usize, parts: Parts) -> Longest
    requires n_le_most_parts { n ≤ most_parts }
    requires given_parts { GivenParts parts level table.now.ty.now (ends table.now.entries.now) n at }
    requires small { Small (balanced parts level table.now.ty.now n at) }
    ensures { Counted (balanced parts level table.now.ty.now n at) (skip parts level table.now.ty.now n at) result }
{
    if n == 0 {
        return Longest { next: at, most: 1 };
    }
    if n == 1 {
        return longest_part(table, at, level, parts);
    }
    if parts.are_same() {
        let one = longest_part(table, at, level, parts);
        return Longest {
            next: at,
            most: longest_same(one.most, n),
        };
    }
    let few = btree_split_index(n);
    let left = longest_tree(table, at, level, few, parts);
    let right = longest_tree(table, left.next, level, n - few, parts);
    Longest {
        next: right.next,
        most: longest_joint(parts, left.most, right.most),
    }
}

// The most records that a shape of the whole type has, which lowers to at most 65,536.
pub fn longest_shape(table: &Table<'_>) -> usize
    requires given { Given 32 false table.now.ty.now (ends table.now.entries.now) 0 }
    requires small { Small (low 32 false table.now.ty.now 0) }
    ensures { result ≡ longest_shape (low 32 false table.now.ty.now 0) }
{
    longest_record(table, 0, LEVELS)
}
