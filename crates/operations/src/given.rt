// The operations, given what reading the type file gave: each takes the type file with its table or its refusal, hands a refusal on, and leaves the rest to the operation of its name.

ghost use Rattle.model.specs.Calls.{Lower, Room, WriteShape, ShapeRecords, Reconstruct, CleanShape, WriteFrame, ReadFrame, PartRead, PartEdit, Search};
ghost use Rattle.model.specs.Edits.{Edited};
ghost use Rattle.model.specs.Frames.{after};
ghost use Rattle.reply.specs.Numbers.{number_of, length_of, room_of, found_at};
ghost use Rattle.delivery.specs.Tables.{TypeRead, TypeMeasured};

use reply::{Refusal, TypeRoom};
use types::Table;

// Writes the lowered type of a type file over the front of `out`, and answers its length; every byte behind it stays, and all of them where it is refused.
pub fn lower(ty: &[u8], read: Result<Table<'_>, Refusal>, out: &mut [u8]) -> Result<usize, Refusal>
    requires { TypeMeasured ty.now read }
    ensures { Lower ty.now out.old (number_of result) (length_of result) out.new }
{
    crate::lower(&read?, out)
}

// Tells the room that a type takes: the records of its lowered type, the bits of a frame, and the most records that a shape of it has.
pub fn room(ty: &[u8], read: Result<Table<'_>, Refusal>) -> Result<TypeRoom, Refusal>
    requires { TypeMeasured ty.now read }
    ensures { Room ty.now (number_of result) (room_of result).lowered (room_of result).bits (room_of result).shape }
{
    Ok(crate::room(&read?))
}

// Writes the shape of a value over the front of `out`, and answers its length; every byte behind it stays, and all of them where it is refused.
pub fn write_shape(
    ty: &[u8],
    read: Result<Table<'_>, Refusal>,
    value: &[u8],
    out: &mut [u8],
) -> Result<usize, Refusal>
    requires { TypeMeasured ty.now read }
    ensures { WriteShape ty.now value.now out.old (number_of result) (length_of result) out.new }
{
    crate::write_shape(&read?, value, out)
}

// Tells how many records the shape of a value has, as `write_shape` would write it.
pub fn shape_records(
    ty: &[u8],
    read: Result<Table<'_>, Refusal>,
    value: &[u8],
) -> Result<usize, Refusal>
    requires { TypeMeasured ty.now read }
    ensures { ShapeRecords ty.now value.now (number_of result) (length_of result) }
{
    crate::shape_records(&read?, value)
}

// Writes the value file that a shape gives as one of the type over the front of `out`, and answers its length; every byte behind it stays, and all of them where it is refused.
// It needs no lowering: a Never is refused only where the shape reaches it. Where an empty tuple, an array of 0 or a variant without parts is read, only a unit may stand.
pub fn reconstruct(
    ty: &[u8],
    read: Result<Table<'_>, Refusal>,
    shape: &[u8],
    out: &mut [u8],
) -> Result<usize, Refusal>
    requires { TypeRead ty.now read }
    ensures { Reconstruct ty.now shape.now out.old (number_of result) (length_of result) out.new }
{
    crate::reconstruct(&read?, shape, out)
}

// Writes a shape over the front of `out` with a unit at each spot where an empty tuple, an array of 0 or a variant without parts is read, and all else
// as it is, and answers its length; every byte behind it stays, and all of them where it is refused. It takes whatever the Rust reads: a Never is refused only where the shape reaches it.
pub fn clean_shape(
    ty: &[u8],
    read: Result<Table<'_>, Refusal>,
    shape: &[u8],
    out: &mut [u8],
) -> Result<usize, Refusal>
    requires { TypeRead ty.now read }
    ensures { CleanShape ty.now shape.now out.old (number_of result) (length_of result) out.new }
{
    crate::clean_shape(&read?, shape, out)
}

// Writes the frame of a value over the front of `out`, and answers its length; every byte behind it stays, and all of them where it is refused.
pub fn write_frame(
    ty: &[u8],
    read: Result<Table<'_>, Refusal>,
    value: &[u8],
    out: &mut [u8],
) -> Result<usize, Refusal>
    requires { TypeMeasured ty.now read }
    ensures { WriteFrame ty.now value.now out.old (number_of result) (length_of result) out.new }
{
    crate::write_frame(&read?, value, out)
}

// Writes the value file of an accepted frame over the front of `out`, and answers its length; every byte behind it stays, and all of them where it is refused.
pub fn read_frame(
    ty: &[u8],
    read: Result<Table<'_>, Refusal>,
    frame: &[u8],
    out: &mut [u8],
) -> Result<usize, Refusal>
    requires { TypeMeasured ty.now read }
    ensures { ReadFrame ty.now frame.now out.old (number_of result) (length_of result) out.new }
{
    crate::read_frame(&read?, frame, out)
}

// Writes the value file of the part that a path leads to in an accepted frame over the front of `out`, and answers its length; every byte behind it stays, and all of them where it is refused.
pub fn part_read(
    ty: &[u8],
    read: Result<Table<'_>, Refusal>,
    frame: &[u8],
    path: &[u8],
    out: &mut [u8],
) -> Result<usize, Refusal>
    requires { TypeMeasured ty.now read }
    ensures { PartRead ty.now frame.now path.now out.old (number_of result) (length_of result) out.new }
{
    crate::part_read(&read?, frame, path, out)
}

// Replaces the part that a path leads to in an accepted frame by a value of the part's type, in the frame's own bytes, and answers the frame's length; no bit outside the part's own stretch changes, and none at all where it is refused.
// The second promise is demand 3, whole.
pub fn part_edit(
    ty: &[u8],
    read: Result<Table<'_>, Refusal>,
    frame: &mut [u8],
    path: &[u8],
    value: &[u8],
) -> Result<usize, Refusal>
    requires { TypeMeasured ty.now read }
    ensures part_edit { PartEdit ty.now frame.old path.now value.now (number_of result) (length_of result) frame.new }
    ensures edited { Edited after ty.now frame.old path.now value.now (number_of result) (length_of result) frame.new }
{
    crate::part_edit(&read?, frame, path, value)
}

// Searches a day file, frames of one type end to end, for one whose part at a path is a value, and answers its index, from 0, or that there is none.
pub fn search(
    ty: &[u8],
    read: Result<Table<'_>, Refusal>,
    day: &[u8],
    path: &[u8],
    value: &[u8],
) -> Result<Option<usize>, Refusal>
    requires { TypeMeasured ty.now read }
    ensures { Search ty.now day.now path.now value.now (number_of result) (found_at result) }
{
    crate::search(&read?, day, path, value)
}
