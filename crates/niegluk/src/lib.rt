// The public entries: each takes whole files and a buffer for its result (an edit: the frame that it changes; three that only tell numbers: none), asks nothing of its caller, and answers what it makes or tells, or its `Refusal`.
// Each owns the table of the type file, has it filled, and leaves the rest to its operation. `niegluk_c` has them as C functions.
// The table is an array of a fixed size, since the libraries take no memory. The entries share their two lines and no more: one for all would take the operation as a closure, and say what the closure does of each.
// What each promises of a call is an equation of `crates/model/specs/Calls.antt`; of a search, whose index is free where several frames match, what holds of the index. How an entry is added: docs/ENTRIES.md.
#![tactic(auto)]

ghost use Rattle.std.specs.Prelude.{◌≤◌, length};
ghost use Rattle.model.specs.Edits.{Edited};
ghost use Rattle.model.specs.Frames.{after};
ghost use Rattle.model.specs.Calls.{Lower, Room, WriteShape, ShapeRecords, Reconstruct, CleanShape, WriteFrame, ReadFrame, PartRead, PartEdit, Search};
ghost use Rattle.reply.specs.Numbers.{number_of, length_of, room_of, found_at};
ghost use Rattle.delivery.specs.Tables.{TypeRead, TypeMeasured};

use operations::given;
use reply::{Refusal, TypeRoom};
use table::{RECORDS, tabulate};
use types::{Entry, Table, check_type};

// The table of a type file that lowers: its entries are put down.
fn measured<'a>(ty: &'a [u8], entries: &'a mut [Entry]) -> Result<Table<'a>, Refusal>
    requires { 1024 ≤ length entries.old }
    ensures { TypeMeasured ty.now result }
{
    tabulate(ty, entries)?;
    Ok(Table { ty, entries })
}

// The table of a type file that need not lower: the ends of its entries are put down.
fn read<'a>(ty: &'a [u8], entries: &'a mut [Entry]) -> Result<Table<'a>, Refusal>
    requires { 1024 ≤ length entries.old }
    ensures { TypeRead ty.now result }
{
    check_type(ty, entries)?;
    Ok(Table { ty, entries })
}

// Writes the lowered type of a type file over the front of `out`, and answers its length; every byte behind it stays, and all of them where it is refused.
pub fn lower(ty: &[u8], out: &mut [u8]) -> Result<usize, Refusal>
    ensures { Lower ty.now out.old (number_of result) (length_of result) out.new }
{
    let mut entries = [Entry::default(); RECORDS];
    given::lower(ty, measured(ty, &mut entries), out)
}

// Tells the room that a type takes: the records of its lowered type, the bits of a frame, and the most records that a shape of it has, which some value's shape has and none exceeds.
pub fn room(ty: &[u8]) -> Result<TypeRoom, Refusal>
    ensures { Room ty.now (number_of result) (room_of result).lowered (room_of result).bits (room_of result).shape }
{
    let mut entries = [Entry::default(); RECORDS];
    given::room(ty, measured(ty, &mut entries))
}

// Writes the shape of a value over the front of `out`, and answers its length; every byte behind it stays, and all of them where it is refused.
pub fn write_shape(ty: &[u8], value: &[u8], out: &mut [u8]) -> Result<usize, Refusal>
    ensures { WriteShape ty.now value.now out.old (number_of result) (length_of result) out.new }
{
    let mut entries = [Entry::default(); RECORDS];
    given::write_shape(ty, measured(ty, &mut entries), value, out)
}

// Tells how many records the shape of a value has, as `write_shape` would write it, and needs no buffer for them.
pub fn shape_records(ty: &[u8], value: &[u8]) -> Result<usize, Refusal>
    ensures { ShapeRecords ty.now value.now (number_of result) (length_of result) }
{
    let mut entries = [Entry::default(); RECORDS];
    given::shape_records(ty, measured(ty, &mut entries), value)
}

// Writes the value file that a shape gives as one of the type over the front of `out`, and answers its length; every byte behind it stays, and all of them where it is refused.
// It needs no lowering: a Never is refused only where the shape reaches it. Where an empty tuple, an array of 0 or a variant without parts is read, only a unit may stand.
pub fn reconstruct(ty: &[u8], shape: &[u8], out: &mut [u8]) -> Result<usize, Refusal>
    ensures { Reconstruct ty.now shape.now out.old (number_of result) (length_of result) out.new }
{
    let mut entries = [Entry::default(); RECORDS];
    given::reconstruct(ty, read(ty, &mut entries), shape, out)
}

// Writes a shape over the front of `out` with a unit at each spot where an empty tuple, an array of 0 or a variant without parts is read, and all else
// as it is, and answers its length; every byte behind it stays, and all of them where it is refused. It takes whatever the Rust reads: a Never is refused only where the shape reaches it.
pub fn clean_shape(ty: &[u8], shape: &[u8], out: &mut [u8]) -> Result<usize, Refusal>
    ensures { CleanShape ty.now shape.now out.old (number_of result) (length_of result) out.new }
{
    let mut entries = [Entry::default(); RECORDS];
    given::clean_shape(ty, read(ty, &mut entries), shape, out)
}

// Writes the frame of a value over the front of `out`, and answers its length; every byte behind it stays, and all of them where it is refused.
pub fn write_frame(ty: &[u8], value: &[u8], out: &mut [u8]) -> Result<usize, Refusal>
    ensures { WriteFrame ty.now value.now out.old (number_of result) (length_of result) out.new }
{
    let mut entries = [Entry::default(); RECORDS];
    given::write_frame(ty, measured(ty, &mut entries), value, out)
}

// Writes the value file of an accepted frame over the front of `out`, and answers its length; every byte behind it stays, and all of them where it is refused.
pub fn read_frame(ty: &[u8], frame: &[u8], out: &mut [u8]) -> Result<usize, Refusal>
    ensures { ReadFrame ty.now frame.now out.old (number_of result) (length_of result) out.new }
{
    let mut entries = [Entry::default(); RECORDS];
    given::read_frame(ty, measured(ty, &mut entries), frame, out)
}

// Writes the value file of the part that a path leads to in an accepted frame over the front of `out`, and answers its length; every byte behind it stays, and all of them where it is refused.
pub fn part_read(ty: &[u8], frame: &[u8], path: &[u8], out: &mut [u8]) -> Result<usize, Refusal>
    ensures { PartRead ty.now frame.now path.now out.old (number_of result) (length_of result) out.new }
{
    let mut entries = [Entry::default(); RECORDS];
    given::part_read(ty, measured(ty, &mut entries), frame, path, out)
}

// Replaces the part that a path leads to in an accepted frame by a value of the part's type, in the frame's own bytes, and answers the frame's length; no bit outside the part's own stretch changes, and none at all where it is refused.
// The second promise is demand 3, whole.
pub fn part_edit(ty: &[u8], frame: &mut [u8], path: &[u8], value: &[u8]) -> Result<usize, Refusal>
    ensures part_edit { PartEdit ty.now frame.old path.now value.now (number_of result) (length_of result) frame.new }
    ensures edited { Edited after ty.now frame.old path.now value.now (number_of result) (length_of result) frame.new }
{
    let mut entries = [Entry::default(); RECORDS];
    given::part_edit(ty, measured(ty, &mut entries), frame, path, value)
}

// Searches a day file, frames of one type end to end, for one that matches: it is accepted, and reading the part that the path leads to gives exactly the value file. Answers the index of such a frame,
// from 0, any one if there are several, or that there is none.
pub fn search(ty: &[u8], day: &[u8], path: &[u8], value: &[u8]) -> Result<Option<usize>, Refusal>
    ensures { Search ty.now day.now path.now value.now (number_of result) (found_at result) }
{
    let mut entries = [Entry::default(); RECORDS];
    given::search(ty, measured(ty, &mut entries), day, path, value)
}
