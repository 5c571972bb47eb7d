// The search of a day file (02, R-4; ported from no Rust file), for a type that lowers, with its table: frames of the type end to end, one of which has a certain part.
// No value file is built and no frame is copied: the value's own bits are made once for each type that the part has in turn, and compared with the part's stretch of each frame.
#![tactic(auto)]

ghost use Rattle.std.specs.Prelude.{false, ◌+◌, ◌*◌, ◌≤◌, ◌<◌, length, get_or};
ghost use Rattle.model.specs.Calls.{Search};
ghost use Rattle.model.specs.DayFiles.{frames_in, Matches};
ghost use Rattle.model.specs.Frames.{after};
ghost use Rattle.day_files.specs.Laws.Days.{MatchesAt};
ghost use Rattle.reply.specs.Numbers.{number_of, found_at};
ghost use Rattle.types.specs.Trees.{tree};
ghost use Rattle.types.specs.Steps.{Given};
ghost use Rattle.bits.specs.Bits.{Inside, Tells};
ghost use Rattle.told.specs.Widths.{Wide};
ghost use Rattle.accept.specs.Answers.{Lowered};
ghost use Rattle.edit.specs.Opened.{Opened};
ghost use Rattle.search.specs.Forms.{longest, Says, Kept, Standing, Stood, Ended};
ghost use Rattle.types.specs.Entries.{ends, widths};

use accept::accept;
use bits::same_bits;
use edit::{reach_part, type_is_bytes};
use part::fixed_part;
use reply::Refusal;
use types::Table;
use value::check_part;

// The bytes of the longest frame of a type that lowers, and of the buffer for the sought bits: there is no heap here.
const LONGEST: usize = 4096;

// The record of a type, the levels from there on, and what `seek` answered of it: whether the value file says a value of that type.
// The bool is no mark of whether the numbers beside it hold, which they always do: with a variant for each answer the type would stand in both.
#[derive(Clone, Copy, PartialEq, Eq, Debug)]
struct Asked {
    at: usize,
    level: usize,
    is_said: bool,
}

// The bits that are sought, and what was asked last, if anything was: they are of that type.
#[derive(Drop)]
struct Sought {
    bits: [u8; LONGEST],
    last: Option<Asked>,
}

// Is the frame accepted?
fn is_accepted(table: &Table<'_>, frame: &[u8]) -> bool
    requires given { Given 32 false table.now.ty.now (ends table.now.entries.now) 0 }
    requires wide { Wide table.now.ty.now (ends table.now.entries.now) (widths table.now.entries.now) }
    requires lowered { Lowered table.now.ty.now }
    ensures { Tells result (Opened table.now.ty.now (ends table.now.entries.now) frame.now) }
{
    type_is_bytes(table.ty);
    accept(table, frame).is_ok()
}

// Has the frame the first n of the sought bits from `bit` on, and is it accepted? Only a frame that has them is looked at as a whole.
fn has_bits(table: &Table<'_>, frame: &[u8], bit: usize, bits: &[u8], n: usize) -> bool
    requires given { Given 32 false table.now.ty.now (ends table.now.entries.now) 0 }
    requires wide { Wide table.now.ty.now (ends table.now.entries.now) (widths table.now.entries.now) }
    requires lowered { Lowered table.now.ty.now }
    requires inside { Inside frame.now bit n × Inside bits.now 0 n }
    ensures { Tells result (Standing table.now.ty.now (ends table.now.entries.now) frame.now bit n bits.now) }
{
    same_bits(frame, bit, bits, 0, n) && is_accepted(table, frame)
}

// Writes the bits of the value that a value file says as one of the type at record `at`, with `level` levels from there on, over the front of `bits`; whether it says one.
fn seek(table: &Table<'_>, at: usize, level: usize, value: &[u8], bits: &mut [u8; LONGEST]) -> bool
    requires given { Given level false table.now.ty.now (ends table.now.entries.now) at }
    requires wide { Wide table.now.ty.now (ends table.now.entries.now) (widths table.now.entries.now) }
    ensures { Says (tree level table.now.ty.now at) value.now bits.new result }
{
    match check_part(table, at, level, value) {
        Err(_) => false,
        Ok(_) => {
            frame::write_record(table, at, level, value, 0, bits, 0);
            true
        }
    }
}

// The same, unless the bits are those of that type already.
fn seek_once(table: &Table<'_>, at: usize, level: usize, value: &[u8], sought: &mut Sought) -> bool
    requires given { Given level false table.now.ty.now (ends table.now.entries.now) at }
    requires wide { Wide table.now.ty.now (ends table.now.entries.now) (widths table.now.entries.now) }
    requires kept { Kept table.now.ty.now value.now sought.old.bits sought.old.last }
    ensures says { Says (tree level table.now.ty.now at) value.now sought.new.bits result }
    ensures keeps { Kept table.now.ty.now value.now sought.new.bits sought.new.last }
{
    match sought.last {
        Some(last) if last.at == at && last.level == level => last.is_said,
        _ => {
            let is_said = seek(table, at, level, value, &mut sought.bits);
            sought.last = Some(Asked { at, level, is_said });
            is_said
        }
    }
}

// Does a frame match: is it accepted, leads the path to a part, and has the part's stretch the bits of the value?
fn matches(table: &Table<'_>, frame: &[u8], path: &[u8], value: &[u8], sought: &mut Sought) -> bool
    requires given { Given 32 false table.now.ty.now (ends table.now.entries.now) 0 }
    requires wide { Wide table.now.ty.now (ends table.now.entries.now) (widths table.now.entries.now) }
    requires lowered { Lowered table.now.ty.now }
    requires kept { Kept table.now.ty.now value.now sought.old.bits sought.old.last }
    ensures told { Tells result (Matches after table.now.ty.now frame.now path.now value.now) }
    ensures keeps { Kept table.now.ty.now value.now sought.new.bits sought.new.last }
{
    type_is_bytes(table.ty);
    let Ok(spot) = reach_part(table, frame, path) else {
        return false;
    };
    seek_once(table, spot.at, spot.level, value, sought)
        && same_bits(frame, spot.bit, &sought.bits, 0, table.width(spot.at))
}

// Searches the frames of a day file, each of `size` bytes, where the path leads by their tags.
fn search_led(
    table: &Table<'_>,
    day: &[u8],
    size: usize,
    path: &[u8],
    value: &[u8],
    sought: &mut Sought,
) -> Option<usize>
    requires given { Given 32 false table.now.ty.now (ends table.now.entries.now) 0 }
    requires wide { Wide table.now.ty.now (ends table.now.entries.now) (widths table.now.entries.now) }
    requires lowered { Lowered table.now.ty.now }
    requires kept { Kept table.now.ty.now value.now sought.old.bits sought.old.last }
    requires le_size { 1 ≤ size }
    ensures { Ended (MatchesAt after table.now.ty.now day.now path.now value.now size) (frames_in size day.now) result }
{
    for i in 0..day.len() / size {
        let start = i * size;
        let frame = &day[start..start + size];
        if matches(table, frame, path, value, sought) {
            return Some(i);
        }
    }
    None
}

// Searches the frames of a day file, each of `size` bytes, where the part stands in n bits from `bit` on in all of them.
// The same loop as `search_led` over another test: that one changes the sought bits from frame to frame, and this one asks that each frame has the stretch.
fn search_fixed(
    table: &Table<'_>,
    day: &[u8],
    size: usize,
    bit: usize,
    n: usize,
    bits: &[u8; LONGEST],
) -> Option<usize>
    requires given { Given 32 false table.now.ty.now (ends table.now.entries.now) 0 }
    requires wide { Wide table.now.ty.now (ends table.now.entries.now) (widths table.now.entries.now) }
    requires lowered { Lowered table.now.ty.now }
    requires le_size { (1 ≤ size) × (size ≤ longest) }
    requires stretch { (n ≤ 32768) × (bit + n ≤ 8 * size) }
    ensures { Ended (Stood table.now.ty.now (ends table.now.entries.now) day.now size bit n bits.now) (frames_in size day.now) result }
{
    let count = day.len() / size;
    for i in 0..count {
        let start = i * size;
        let frame = &day[start..start + size];
        if has_bits(table, frame, bit, bits, n) {
            return Some(i);
        }
    }
    None
}

// Rows 18, 19 and 13 of a search, and an index of a frame that matches: it is accepted, and reading the part that the path leads to gives exactly the value file.
pub fn search_day(
    table: &Table<'_>,
    day: &[u8],
    path: &[u8],
    value: &[u8],
) -> Result<Option<usize>, Refusal>
    requires given { Given 32 false table.now.ty.now (ends table.now.entries.now) 0 }
    requires wide { Wide table.now.ty.now (ends table.now.entries.now) (widths table.now.entries.now) }
    requires lowered { Lowered table.now.ty.now }
    ensures { Search table.now.ty.now day.now path.now value.now (number_of result) (found_at result) }
{
    type_is_bytes(table.ty);
    let size = table.width(0).div_ceil(8);
    if size == 0 {
        return Err(Refusal::NoBytes);
    }
    if day.len() % size != 0 {
        return Err(Refusal::DayLength);
    }
    if path.len() % 2 != 0 {
        return Err(Refusal::PathOdd);
    }
    let mut sought = Sought {
        bits: [0; LONGEST],
        last: None,
    };
    let Some(spot) = fixed_part(table, path) else {
        return Ok(search_led(table, day, size, path, value, &mut sought));
    };
    if !seek(table, spot.at, spot.level, value, &mut sought.bits) {
        return Ok(None);
    }
    let n = table.width(spot.at);
    Ok(search_fixed(table, day, size, spot.bit, n, &sought.bits))
}
