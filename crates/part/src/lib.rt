// Paths into a frame (01, 'Part read and part edit'; ported from no Rust file): rows 13 and 14, and where a part stands.
// A path is followed in the type and in the frame at once; nothing of the value is read but the tags on the way.
#![tactic(auto)]

ghost use Rattle.std.specs.Prelude.{◌≡◌, ◌+◌, ◌-◌, ◌*◌, ◌^◌, ◌≤◌, ◌<◌, length, get_or};
ghost use Rattle.std.specs.Option.{option_copied};
ghost use Rattle.num.specs.Powers.{bound_log2};
ghost use Rattle.model.specs.Balanced.{btree};
ghost use Rattle.model.specs.Bytes.{two_at};
ghost use Rattle.bits.specs.Bits.{Inside};
ghost use Rattle.told.specs.Forms.{Hops};
ghost use Rattle.told.specs.Widths.{Wide};
ghost use Rattle.unframe.specs.Forms.{height};
ghost use Rattle.part.specs.Forms.{among, copy, wide_list, listed, side, variant, stepped, followed, picks_from, found_in, fixed_in, Rowed, Cased};
ghost use Rattle.part.specs.Holds.{Holds, Held, HoldsIn};
ghost use Rattle.types.specs.Entries.{ends, widths};

use num::NonZeroPow2Usize;
use reader::bit_at;
use reply::Refusal;
use types::{Head, LEVELS, Rec, Table};
use unframe::find_choice;

// Where a part stands: the record of its type, with so many levels from there on, and the part's first bit.
#[derive(Clone, Copy, PartialEq, Eq, Debug)]
pub struct Spot {
    pub at: usize,
    pub level: usize,
    pub bit: usize,
}

// The whole of a frame, where each path starts.
const WHOLE: Spot = Spot {
    at: 0,
    level: LEVELS,
    bit: 0,
};

// Part i of the n types from the place `first` on, which stand one behind the other.
fn part_of(table: &Table<'_>, first: Spot, n: usize, i: usize) -> Option<Spot>
    requires { Rowed (ends table.now.entries.now) (widths table.now.entries.now) n first.at first.bit }
    ensures { result ≡ among first.level (ends table.now.entries.now) (widths table.now.entries.now) n first.at first.bit i }
{
    if n <= i {
        return None;
    }
    let mut here = first;
    for _ in 0..i {
        here.bit += table.width(here.at);
        here.at = table.end(here.at);
    }
    Some(here)
}

// Copy i of n of the one type at the place `first`, which stand one behind the other.
fn copy_of(table: &Table<'_>, first: Spot, n: usize, i: usize) -> Option<Spot>
    requires { (first.at < length (widths table.now.entries.now)) × (first.bit + n * get_or (widths table.now.entries.now) first.at 0 < 2 ^ 64) }
    ensures { result ≡ copy first.level (widths table.now.entries.now) n first.at first.bit i }
{
    if i < n {
        Some(Spot {
            bit: first.bit + i * table.width(first.at),
            ..first
        })
    } else {
        None
    }
}

// Element i of the list with the bound that stands from the place `list` on, through its blocks: with the bound 2 a block of 1, else a block of half the bound and a list with that bound.
// From the other walks over a list this one differs in that it goes into one block and passes over those before it.
fn element_of(
    table: &Table<'_>,
    list: Spot,
    bound: NonZeroPow2Usize,
    frame: &[u8],
    i: usize,
) -> Option<Spot>
    requires at_in_bounds { list.at < length (widths table.now.entries.now) }
    requires inside { Inside frame.now list.bit (wide_list (bound_log2 bound.value - 1) (get_or (widths table.now.entries.now) list.at 0)) }
    ensures { result ≡ listed list.level (widths table.now.entries.now) bound list.at frame.now list.bit i }
{
    let present = bit_at(frame, list.bit);
    let first = Spot {
        bit: list.bit + 1,
        ..list
    };
    let Some(half) = bound.checked_div2() else {
        return copy_of(table, first, usize::from(present), i);
    };
    // a block that is not there has no elements
    let n = half.get();
    let len = if present { n } else { 0 };
    if i < len {
        return copy_of(table, first, n, i);
    }
    let rest = Spot {
        bit: first.bit + n * table.width(list.at),
        ..list
    };
    element_of(table, rest, half, frame, i - len)
}

// The one of the two types from the place `first` on that the tag there leads to, if it is number i.
fn side_of(table: &Table<'_>, first: Spot, frame: &[u8], i: usize) -> Option<Spot>
    requires hops { Hops (ends table.now.entries.now) 2 first.at }
    requires inside { Inside frame.now first.bit (height (btree 2)) }
    ensures { result ≡ side first.level (ends table.now.entries.now) first.at frame.now first.bit i }
{
    let choice = find_choice(table, first.at, 2, frame, first.bit);
    (i == choice.number).then_some(Spot {
        at: choice.at,
        bit: choice.bit,
        ..first
    })
}

// Payload part i of the one of the n Variants from the place `first` on that the tags there lead to.
fn variant_of(table: &Table<'_>, first: Spot, n: usize, frame: &[u8], i: usize) -> Option<Spot>
    requires le_n { (1 ≤ n) × (n ≤ 65536) }
    requires hops { Hops (ends table.now.entries.now) n first.at }
    requires inside { Inside frame.now first.bit (height (btree n)) }
    requires le_level { 1 ≤ first.level }
    requires cased { Cased table.now.ty.now (ends table.now.entries.now) (widths table.now.entries.now) n first.at frame.now first.bit }
    ensures { result ≡ variant first.level table.now.ty.now (ends table.now.entries.now) (widths table.now.entries.now) n first.at frame.now first.bit i }
{
    let choice = find_choice(table, first.at, n, frame, first.bit);
    let Rec::Variant(m) = table.rec(choice.at) else {
        return None;
    };
    let payload = Spot {
        at: choice.at + 1,
        level: first.level - 1,
        bit: choice.bit,
    };
    part_of(table, payload, m, i)
}

// Step i from a place: in a frame whose value stands there, or, in none, only where it leads to one place in every frame, from a Tuple or an Array.
fn step(table: &Table<'_>, from: Spot, frame: Option<&[u8]>, i: usize) -> Option<Spot>
    requires stood { HoldsIn from.level table.now.ty.now (ends table.now.entries.now) from.at (option_copied frame) from.bit }
    requires wide { Wide table.now.ty.now (ends table.now.entries.now) (widths table.now.entries.now) }
    ensures { result ≡ stepped from.level table.now.ty.now (ends table.now.entries.now) (widths table.now.entries.now) from.at (option_copied frame.entry) from.bit i }
{
    let below = Spot {
        at: from.at + 1,
        level: from.level - 1,
        ..from
    };
    match table.head(from.at) {
        Head::Tuple(n) => part_of(table, below, n, i),
        Head::Array(n) => copy_of(table, below, n, i),
        Head::Either => side_of(table, below, frame?, i),
        Head::Opt => element_of(table, below, NonZeroPow2Usize::TWO, frame?, i),
        Head::Listed(bound) => element_of(table, below, bound, frame?, i),
        Head::Variants(n) => variant_of(table, below, n, frame?, i),
        _ => None,
    }
}

// Step j of a path: its two bytes, high byte first.
fn step_number(path: &[u8], j: usize) -> usize
    requires { 2 * j + 2 ≤ length path.now }
    ensures { result ≡ two_at path.now (2 * j) }
{
    usize::from(u16::from_be_bytes([path[2 * j], path[2 * j + 1]]))
}

// Where a path of whole steps leads from the whole on, in a frame or in every frame, as a step does.
fn follow(table: &Table<'_>, frame: Option<&[u8]>, path: &[u8]) -> Option<Spot>
    requires stood { HoldsIn 32 table.now.ty.now (ends table.now.entries.now) 0 (option_copied frame) 0 }
    requires wide { Wide table.now.ty.now (ends table.now.entries.now) (widths table.now.entries.now) }
    ensures { result ≡ followed 32 table.now.ty.now (ends table.now.entries.now) (widths table.now.entries.now) 0 (option_copied frame.entry) 0 (picks_from path.now 0) }
{
    let mut spot = WHOLE;
    for j in 0..path.len() / 2 {
        spot = step(table, spot, frame, step_number(path, j))?;
    }
    Some(spot)
}

// Where a path leads in a frame that was accepted for the type.
pub fn find_part(table: &Table<'_>, frame: &[u8], path: &[u8]) -> Result<Spot, Refusal>
    requires holds { Holds 32 table.now.ty.now (ends table.now.entries.now) 0 frame.now 0 }
    requires wide { Wide table.now.ty.now (ends table.now.entries.now) (widths table.now.entries.now) }
    ensures { result ≡ found_in table.now.ty.now (ends table.now.entries.now) (widths table.now.entries.now) frame.now path.now }
{
    if path.len() % 2 != 0 {
        return Err(Refusal::PathOdd);
    }
    follow(table, Some(frame), path).ok_or(Refusal::NoSuchPart)
}

// Where a path through Tuples and Arrays leads, which is one place in all frames of the type; nowhere, if there is no such part or a step goes from anything else.
#[tactic(auto, unfolding(crate::specs::Forms::fixed_in))]
pub fn fixed_part(table: &Table<'_>, path: &[u8]) -> Option<Spot>
    requires held { Held 32 table.now.ty.now (ends table.now.entries.now) 0 0 }
    requires wide { Wide table.now.ty.now (ends table.now.entries.now) (widths table.now.entries.now) }
    ensures { result ≡ fixed_in table.now.ty.now (ends table.now.entries.now) (widths table.now.entries.now) path.now }
{
    follow(table, None, path)
}
