// What the entries do once a type file was read: the rows behind the type's, and the result.
// Each takes the type file with its table; the function of its name in `given`, which the public entry calls, takes what reading the file gave, a refusal as well.
#![tactic(auto)]

ghost use Rattle.model.specs.Calls.{Lower, Room, WriteShape, ShapeRecords, Reconstruct, CleanShape, WriteFrame, ReadFrame, PartRead, PartEdit, Search};
ghost use Rattle.model.specs.Edits.{Edited};
ghost use Rattle.model.specs.Frames.{after};
ghost use Rattle.reply.specs.Numbers.{number_of, length_of, room_of, found_at};
ghost use Rattle.delivery.specs.Tables.{IsRead, IsMeasured};

use accept::accept;
use edit::{edit_part, read_part, type_is_bytes};
use rebuild::{check_shape, value_records};
use reply::{Refusal, TypeRoom};
use restore::write_value;
use room::longest_shape;
use search::search_day;
use shape_clean::write_cleaned;
use structural::write_lowered;
use types::{LEVELS, Table};
use value::{RECORD, check_file};

pub mod given;

// Writes the lowered type of a type file over the front of `out`, and answers its length; every byte behind it stays, and all of them where it is refused.
pub fn lower(table: &Table<'_>, out: &mut [u8]) -> Result<usize, Refusal>
    requires { IsMeasured table.now.ty.now table.now.entries.now }
    ensures { Lower table.now.ty.now out.old (number_of result) (length_of result) out.new }
{
    if out.len() < table.size(0) {
        return Err(Refusal::NoRoom);
    }
    Ok(write_lowered(table, 0, LEVELS, out))
}

// Writes the shape of a value over the front of `out`, and answers its length; every byte behind it stays, and all of them where it is refused.
pub fn write_shape(table: &Table<'_>, value: &[u8], out: &mut [u8]) -> Result<usize, Refusal>
    requires { IsMeasured table.now.ty.now table.now.entries.now }
    ensures { WriteShape table.now.ty.now value.now out.old (number_of result) (length_of result) out.new }
{
    let (_, size) = check_file(table, value)?;
    if out.len() < size {
        return Err(Refusal::NoRoom);
    }
    Ok(shape::write_shape(table, value, out))
}

// Tells the room that a type takes: the records of its lowered type, the bits of a frame, and the most records that a shape of it has.
pub fn room(table: &Table<'_>) -> TypeRoom
    requires { IsMeasured table.now.ty.now table.now.entries.now }
    ensures { Room table.now.ty.now 0 result.lowered result.bits result.shape }
{
    TypeRoom {
        lowered: table.size(0),
        bits: table.width(0),
        shape: longest_shape(table),
    }
}

// Tells how many records the shape of a value has, as `write_shape` would write it.
pub fn shape_records(table: &Table<'_>, value: &[u8]) -> Result<usize, Refusal>
    requires { IsMeasured table.now.ty.now table.now.entries.now }
    ensures { ShapeRecords table.now.ty.now value.now (number_of result) (length_of result) }
{
    let (_, records) = check_file(table, value)?;
    Ok(records)
}

// Writes the value file that a shape gives as one of the type over the front of `out`, and answers its length; every byte behind it stays, and all of them where it is refused.
// It needs no lowering: a Never is refused only where the shape reaches it. Where an empty tuple, an array of 0 or a variant without parts is read, only a unit may stand.
pub fn reconstruct(table: &Table<'_>, shape: &[u8], out: &mut [u8]) -> Result<usize, Refusal>
    requires { IsRead table.now.ty.now table.now.entries.now }
    ensures { Reconstruct table.now.ty.now shape.now out.old (number_of result) (length_of result) out.new }
{
    check_shape(shape)?;
    let Some((n, surplus)) = value_records(table, shape) else {
        return Err(Refusal::NotReconstructed);
    };
    if surplus != 0 {
        return Err(Refusal::NoUnit);
    }
    if out.len() < n * RECORD {
        return Err(Refusal::NoRoom);
    }
    Ok(write_value(table, shape, out))
}

// Writes a shape over the front of `out` with a unit at each spot where an empty tuple, an array of 0 or a variant without parts is read, and all else
// as it is, and answers its length; every byte behind it stays, and all of them where it is refused. It takes whatever the Rust reads: a Never is refused only where the shape reaches it.
pub fn clean_shape(table: &Table<'_>, shape: &[u8], out: &mut [u8]) -> Result<usize, Refusal>
    requires { IsRead table.now.ty.now table.now.entries.now }
    ensures { CleanShape table.now.ty.now shape.now out.old (number_of result) (length_of result) out.new }
{
    check_shape(shape)?;
    let Some((_, surplus)) = value_records(table, shape) else {
        return Err(Refusal::NotReconstructed);
    };
    // the surplus is what cleaning takes away
    if out.len() < shape.len() - surplus {
        return Err(Refusal::NoRoom);
    }
    Ok(write_cleaned(table, shape, out))
}

// Writes the frame of a value over the front of `out`, and answers its length; every byte behind it stays, and all of them where it is refused.
pub fn write_frame(table: &Table<'_>, value: &[u8], out: &mut [u8]) -> Result<usize, Refusal>
    requires { IsMeasured table.now.ty.now table.now.entries.now }
    ensures { WriteFrame table.now.ty.now value.now out.old (number_of result) (length_of result) out.new }
{
    check_file(table, value)?;
    let bytes = (table.width(0) + 7) / 8;
    if out.len() < bytes {
        return Err(Refusal::NoRoom);
    }
    Ok(frame::write_frame(table, value, out))
}

// Writes the value file of an accepted frame over the front of `out`, and answers its length; every byte behind it stays, and all of them where it is refused.
pub fn read_frame(table: &Table<'_>, frame: &[u8], out: &mut [u8]) -> Result<usize, Refusal>
    requires { IsMeasured table.now.ty.now table.now.entries.now }
    ensures { ReadFrame table.now.ty.now frame.now out.old (number_of result) (length_of result) out.new }
{
    let len = accept(table, frame)? * RECORD;
    if out.len() < len {
        return Err(Refusal::NoRoom);
    }
    Ok(unframe::write_value(table, frame, out))
}

// Writes the value file of the part that a path leads to in an accepted frame over the front of `out`, and answers its length; every byte behind it stays, and all of them where it is refused.
pub fn part_read(
    table: &Table<'_>,
    frame: &[u8],
    path: &[u8],
    out: &mut [u8],
) -> Result<usize, Refusal>
    requires { IsMeasured table.now.ty.now table.now.entries.now }
    ensures { PartRead table.now.ty.now frame.now path.now out.old (number_of result) (length_of result) out.new }
{
    read_part(table, frame, path, out)
}

// Replaces the part that a path leads to in an accepted frame by a value of the part's type, in the frame's own bytes, and answers the frame's length; no bit outside the part's own stretch changes, and none at all where it is refused.
// The second promise is demand 3, whole.
pub fn part_edit(
    table: &Table<'_>,
    frame: &mut [u8],
    path: &[u8],
    value: &[u8],
) -> Result<usize, Refusal>
    requires { IsMeasured table.now.ty.now table.now.entries.now }
    ensures part_edit { PartEdit table.now.ty.now frame.old path.now value.now (number_of result) (length_of result) frame.new }
    ensures edited { Edited after table.now.ty.now frame.old path.now value.now (number_of result) (length_of result) frame.new }
{
    type_is_bytes(table.ty);
    edit_part(table, frame, path, value)
}

// Searches a day file, frames of one type end to end, for one whose part at a path is a value, and answers its index, from 0, or that there is none.
pub fn search(
    table: &Table<'_>,
    day: &[u8],
    path: &[u8],
    value: &[u8],
) -> Result<Option<usize>, Refusal>
    requires { IsMeasured table.now.ty.now table.now.entries.now }
    ensures { Search table.now.ty.now day.now path.now value.now (number_of result) (found_at result) }
{
    search_day(table, day, path, value)
}
