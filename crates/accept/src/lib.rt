// The acceptance of frames (01, 'Frame'; ported from no Rust file): rows 11 and 12, and how many records the value has that a frame says.
// A type and a frame are walked together, so that it is known before anything is written whether the value file fits.
#![tactic(auto)]

ghost use Rattle.std.specs.Prelude.{◌≡◌, false, ◌≤◌, ◌+◌, ◌*◌};
ghost use Rattle.std.proofs.Math.Option.{some};
ghost use Rattle.model.specs.Frames.{width};
ghost use Rattle.types.specs.Steps.{Given};
ghost use Rattle.types.specs.Trees.{type_in};
ghost use Rattle.structural.specs.Forms.{most_parts, Stands, standing, listed};
ghost use Rattle.bits.specs.Bits.{Inside};
ghost use Rattle.types.specs.declared.forms.Parts.TheVariants.{Types};
ghost use Rattle.told.specs.Forms.{GivenParts};
ghost use Rattle.told.specs.Widths.{Wide};
ghost use Rattle.rebuild.specs.Forms.{most_records};
ghost use Rattle.accept.specs.Forms.{seen, seen_row, row_width, seen_sum, seen_block, seen_list};
ghost use Rattle.accept.specs.Answers.{cut, answer, Plain, Padded, Lowered, Counted, accepted, outcome_of};
ghost use Rattle.types.specs.Entries.{ends, widths};

use array::btree_split_index;
use num::NonZeroPow2Usize;
use reader::{bit_at, zeros_at};
use reply::Refusal;
use told::{after_part, hop};
use types::{Form, LEVELS, Parts, Table};

// No value has more records than this, 33 for each of 65,536 of its shape: counting stops here.
const MOST: usize = 2162688;

// Both, added up, as far as they are counted.
fn both(n: usize, m: usize) -> usize
    requires { (n ≤ most_records) × (m ≤ most_records) }
    ensures { result ≡ cut (n + m) }
{
    (n + m).min(MOST)
}

// Whether the parts from record `at` on are copies of a Boolean or of an integer: no bit of such a part is padding, and each has one record.
fn is_plain(table: &Table<'_>, at: usize, n: usize, parts: Parts) -> bool
    ensures { Plain parts table.now.ty.now at result }
{
    2 <= n
        && matches!(parts, Parts::Copies)
        && matches!(table.head(at).form(), Form::Bit | Form::Integer(_))
}

// Sees what stands at record `at`, a type or a Variant's payload, with `level` levels from there on, in the frame's bits from `bit` on.
// From the other walks over a type this one differs in what it does with a bit, a row, a sum and a block: it counts their records and asks that their padding is zeros.
#[cycle(see_block_see_list_see_record_see_row_see_sum)]
fn see_record(table: &Table<'_>, at: usize, level: usize, frame: &[u8], bit: usize) -> Option<usize>
    requires stands { Stands level table.now.ty.now (ends table.now.entries.now) at }
    requires wide { Wide table.now.ty.now (ends table.now.entries.now) (widths table.now.entries.now) }
    requires inside { Inside frame.now bit (width (standing level table.now.ty.now at)) }
    ensures { result ≡ answer (seen level table.now.ty.now at frame.now bit) }
{
    match table.head(at).form() {
        Form::Nothing => None,
        Form::Bit | Form::Integer(_) => Some(1),
        Form::Product(parts, n) => Some(both(
            1,
            see_row(table, at + 1, level - 1, n, parts, frame, bit)?,
        )),
        Form::Sum(n) => Some(both(
            1,
            see_sum(
                table,
                at + 1,
                level - 1,
                n,
                frame,
                bit,
                bit + table.width(at),
            )?,
        )),
        Form::List(bound) => Some(both(1, see_list(table, at + 1, level - 1, bound, frame, bit)?)),
        Form::Payload(n) => see_row(table, at + 1, level - 1, n, Parts::Types, frame, bit),
    }
}

// Sees the n parts from record `at` on, one after the other; copies of a Boolean or of an integer all at once.
#[cycle(see_block_see_list_see_record_see_row_see_sum)]
fn see_row(
    table: &Table<'_>,
    at: usize,
    level: usize,
    n: usize,
    parts: Parts,
    frame: &[u8],
    bit: usize,
) -> Option<usize>
    requires given_parts { GivenParts parts level table.now.ty.now (ends table.now.entries.now) n at }
    requires wide { Wide table.now.ty.now (ends table.now.entries.now) (widths table.now.entries.now) }
    requires inside { Inside frame.now bit (row_width parts level table.now.ty.now n at) }
    ensures { result ≡ answer (seen_row parts level table.now.ty.now n at frame.now bit) }
{
    if is_plain(table, at, n, parts) {
        return Some(n.min(MOST));
    }
    let mut all = 0;
    let mut place = at;
    let mut here = bit;
    for _ in 0..n {
        all = both(all, see_record(table, place, level, frame, here)?);
        here += table.width(place);
        place = after_part(table, place, parts);
    }
    Some(all)
}

// Sees the one of the n records from `at` on that the tags lead to; behind its bits only zeros stand up to the bit `end`.
#[cycle(see_block_see_list_see_record_see_row_see_sum)]
fn see_sum(
    table: &Table<'_>,
    at: usize,
    level: usize,
    n: usize,
    frame: &[u8],
    bit: usize,
    end: usize,
) -> Option<usize>
    requires le_n { (1 ≤ n) × (n ≤ most_parts) }
    requires given_parts { GivenParts Types level table.now.ty.now (ends table.now.entries.now) n at }
    requires wide { Wide table.now.ty.now (ends table.now.entries.now) (widths table.now.entries.now) }
    requires padded { Padded level table.now.ty.now n at frame.now bit end }
    ensures { result ≡ answer (seen_sum level table.now.ty.now (ends table.now.entries.now) n at frame.now bit end) }
{
    if n == 1 {
        let last = bit + table.width(at);
        if !zeros_at(frame, last, end - last) {
            return None;
        }
        return see_record(table, at, level, frame, bit);
    }
    let few = btree_split_index(n);
    if bit_at(frame, bit) {
        let others = n - few;
        return see_sum(
            table,
            hop(table, at, few),
            level,
            others,
            frame,
            bit + 1,
            end,
        );
    }
    see_sum(table, at, level, few, frame, bit + 1, end)
}

// Sees a block of n of what stands at record `at`: where its tag is 0 it has none, and zeros stand in their place.
#[cycle(see_block_see_list_see_record_see_row_see_sum)]
fn see_block(
    table: &Table<'_>,
    at: usize,
    level: usize,
    n: usize,
    frame: &[u8],
    bit: usize,
) -> Option<usize>
    requires stands { Stands level table.now.ty.now (ends table.now.entries.now) at }
    requires wide { Wide table.now.ty.now (ends table.now.entries.now) (widths table.now.entries.now) }
    requires inside { Inside frame.now bit (1 + n * width (standing level table.now.ty.now at)) }
    ensures { result ≡ answer (seen_block level table.now.ty.now n at frame.now bit) }
{
    if bit_at(frame, bit) {
        return see_row(table, at, level, n, Parts::Copies, frame, bit + 1);
    }
    zeros_at(frame, bit + 1, n * table.width(at)).then_some(0)
}

// Sees a list with the bound: with the bound 2 a block of 1, else a block of half the bound and a list with that bound behind it.
#[cycle(see_block_see_list_see_record_see_row_see_sum)]
fn see_list(
    table: &Table<'_>,
    at: usize,
    level: usize,
    bound: NonZeroPow2Usize,
    frame: &[u8],
    bit: usize,
) -> Option<usize>
    requires stands { Stands level table.now.ty.now (ends table.now.entries.now) at }
    requires wide { Wide table.now.ty.now (ends table.now.entries.now) (widths table.now.entries.now) }
    requires inside { Inside frame.now bit (width (listed level table.now.ty.now bound at)) }
    ensures { result ≡ answer (seen_list level table.now.ty.now bound at frame.now bit) }
{
    let Some(half) = bound.checked_div2() else {
        return see_block(table, at, level, 1, frame, bit);
    };
    let n = half.get();
    let next = bit + 1 + n * table.width(at);
    let first = see_block(table, at, level, n, frame, bit)?;
    let others = see_list(table, at, level, half, frame, next)?;
    Some(both(first, others))
}

// Rows 11 and 12 of a frame: how many records the value file has whose frame it is, 36 bytes each, or why it is refused.
// The type file is one that lowers, with its ends and widths.
pub fn accept(table: &Table<'_>, frame: &[u8]) -> Result<usize, Refusal>
    requires given { Given 32 false table.now.ty.now (ends table.now.entries.now) 0 }
    requires wide { Wide table.now.ty.now (ends table.now.entries.now) (widths table.now.entries.now) }
    requires lowered { Lowered table.now.ty.now }
    ensures { outcome_of result ≡ accepted (type_in table.now.ty.now) frame.now }
{
    let width = table.width(0);
    let size = width.div_ceil(8);
    let len = frame.len();
    if len != size {
        return Err(Refusal::FrameLength);
    }
    if !zeros_at(frame, width, len * 8 - width) {
        return Err(Refusal::StrayBit);
    }
    see_record(table, 0, LEVELS, frame, 0).ok_or(Refusal::StrayBit)
}

// How many records the value has that stands in an accepted frame from `bit` on, as one of the type at record `at`, with `level` levels from there on.
pub fn part_records(table: &Table<'_>, at: usize, level: usize, frame: &[u8], bit: usize) -> usize
    requires stands { Stands level table.now.ty.now (ends table.now.entries.now) at }
    requires wide { Wide table.now.ty.now (ends table.now.entries.now) (widths table.now.entries.now) }
    requires inside { Inside frame.now bit (width (standing level table.now.ty.now at)) }
    requires counted { Counted (seen level table.now.ty.now at frame.now bit) }
    ensures { seen level table.now.ty.now at frame.now bit ≡ some result }
{
    see_record(table, at, level, frame, bit).unwrap()
}
