// Part read and part edit of a frame (01, 'Part read and part edit'; ported from no Rust file), for a type that lowers, with its table.
#![tactic(auto)]

ghost use Rattle.std.specs.Prelude.{◌≡◌, ◌<◌, ℕ, false, get_or};
ghost use Rattle.model.specs.Calls.{PartRead, PartEdit};
ghost use Rattle.reply.specs.Numbers.{number_of, length_of};
ghost use Rattle.types.specs.Steps.{Given};
ghost use Rattle.told.specs.Widths.{Wide};
ghost use Rattle.accept.specs.Answers.{Lowered};
ghost use Rattle.edit.specs.Opened.{PartTold};
ghost use Rattle.types.specs.Entries.{ends, widths};

use accept::{accept, part_records};
use part::{Spot, find_part};
use reply::Refusal;
use types::Table;
use value::{RECORD, check_part};

// Says to the proofs that a type file is bytes, which a slice says where it is a variable, and not behind a table; it does nothing.
pub fn type_is_bytes(ty: &[u8])
    ensures { (i : ℕ) → get_or ty.now i 0 < 256 }
{}

// Where the part of a frame that a path leads to stands, if the frame is accepted and there is such a part.
pub fn reach_part(table: &Table<'_>, frame: &[u8], path: &[u8]) -> Result<Spot, Refusal>
    requires given { Given 32 false table.now.ty.now (ends table.now.entries.now) 0 }
    requires wide { Wide table.now.ty.now (ends table.now.entries.now) (widths table.now.entries.now) }
    requires lowered { Lowered table.now.ty.now }
    ensures { PartTold table.now.ty.now (ends table.now.entries.now) frame.now path.now result }
{
    type_is_bytes(table.ty);
    accept(table, frame)?;
    find_part(table, frame, path)
}

// Part read: the value file of the part of a frame that a path leads to, in the front of `out`; the bytes behind it stay.
pub fn read_part(
    table: &Table<'_>,
    frame: &[u8],
    path: &[u8],
    out: &mut [u8],
) -> Result<usize, Refusal>
    requires given { Given 32 false table.now.ty.now (ends table.now.entries.now) 0 }
    requires wide { Wide table.now.ty.now (ends table.now.entries.now) (widths table.now.entries.now) }
    requires lowered { Lowered table.now.ty.now }
    ensures { PartRead table.now.ty.now frame.now path.now out.old (number_of result) (length_of result) out.new }
{
    let spot = reach_part(table, frame, path)?;
    let len = part_records(table, spot.at, spot.level, frame, spot.bit) * RECORD;
    if out.len() < len {
        return Err(Refusal::NoRoom);
    }
    Ok(unframe::write_record(table, spot.at, spot.level, frame, spot.bit, out))
}

// Part edit: the part of a frame that a path leads to becomes the value that a value file of its type says; no other bit of the frame changes, and none where it is refused.
pub fn edit_part(
    table: &Table<'_>,
    frame: &mut [u8],
    path: &[u8],
    value: &[u8],
) -> Result<usize, Refusal>
    requires given { Given 32 false table.now.ty.now (ends table.now.entries.now) 0 }
    requires wide { Wide table.now.ty.now (ends table.now.entries.now) (widths table.now.entries.now) }
    requires lowered { Lowered table.now.ty.now }
    ensures { PartEdit table.now.ty.now frame.old path.now value.now (number_of result) (length_of result) frame.new }
{
    type_is_bytes(table.ty);
    let spot = reach_part(table, frame, path)?;
    check_part(table, spot.at, spot.level, value)?;
    frame::write_record(table, spot.at, spot.level, value, 0, frame, spot.bit);
    Ok(frame.len())
}
