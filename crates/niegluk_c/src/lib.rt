// The entries of `niegluk` as C functions, with the same promises: the number is the result, and the other numbers of the reply go behind the last pointers, one each.
// A length stands beside its buffer, since that is how C takes it.
#![tactic(auto)]

ghost use Rattle.std.specs.Prelude.{◌≡◌};
ghost use Rattle.model.specs.Edits.{Edited};
ghost use Rattle.model.specs.Frames.{after};
ghost use Rattle.model.specs.Calls.{Lower, Room, WriteShape, ShapeRecords, Reconstruct, CleanShape, WriteFrame, ReadFrame, PartRead, PartEdit, SearchTold};
ghost use Rattle.reply.specs.Numbers.{number_of, length_of};

use reply::{Refusal, number};

// The number of an answer; its length goes behind the pointer, and 0 where there is none.
fn tell(answer: Result<usize, Refusal>, length: &mut usize) -> u32
    ensures number { result ≡ number_of answer }
    ensures length { length.new ≡ length_of answer }
{
    *length = answer.unwrap_or(0);
    number(answer)
}

// `lower` for C: the number, 0 where the type is lowered; `length` is 0 where it is not.
#[unsafe(no_mangle)]
pub extern "C" fn niegluk_lower(ty: &[u8], out: &mut [u8], length: &mut usize) -> u32
    ensures { Lower ty.now out.old result length.new out.new }
{
    tell(niegluk::lower(ty, out), length)
}

// `room` for C: the number, 0 where the type is accepted; the three others are 0 where it is not.
#[unsafe(no_mangle)]
pub extern "C" fn niegluk_room(
    ty: &[u8],
    lowered: &mut usize,
    bits: &mut usize,
    shape: &mut usize,
) -> u32
    ensures { Room ty.now result lowered.new bits.new shape.new }
{
    let told = niegluk::room(ty);
    let room = told.unwrap_or_default();
    *lowered = room.lowered;
    *bits = room.bits;
    *shape = room.shape;
    number(told)
}

// `write_shape` for C: the number, 0 where the shape is written; `length` is 0 where it is not.
#[unsafe(no_mangle)]
pub extern "C" fn niegluk_write_shape(
    ty: &[u8],
    value: &[u8],
    out: &mut [u8],
    length: &mut usize,
) -> u32
    ensures { WriteShape ty.now value.now out.old result length.new out.new }
{
    tell(niegluk::write_shape(ty, value, out), length)
}

// `shape_records` for C: the number, 0 where the value is accepted; `records` is 0 where it is not.
#[unsafe(no_mangle)]
pub extern "C" fn niegluk_shape_records(ty: &[u8], value: &[u8], records: &mut usize) -> u32
    ensures { ShapeRecords ty.now value.now result records.new }
{
    tell(niegluk::shape_records(ty, value), records)
}

// `reconstruct` for C: the number, 0 where the value file is written; `length` is 0 where it is not.
#[unsafe(no_mangle)]
pub extern "C" fn niegluk_reconstruct(
    ty: &[u8],
    shape: &[u8],
    out: &mut [u8],
    length: &mut usize,
) -> u32
    ensures { Reconstruct ty.now shape.now out.old result length.new out.new }
{
    tell(niegluk::reconstruct(ty, shape, out), length)
}

// `clean_shape` for C: the number, 0 where the cleaned shape is written; `length` is 0 where it is not.
#[unsafe(no_mangle)]
pub extern "C" fn niegluk_clean_shape(
    ty: &[u8],
    shape: &[u8],
    out: &mut [u8],
    length: &mut usize,
) -> u32
    ensures { CleanShape ty.now shape.now out.old result length.new out.new }
{
    tell(niegluk::clean_shape(ty, shape, out), length)
}

// `write_frame` for C: the number, 0 where the frame is written; `length` is 0 where it is not.
#[unsafe(no_mangle)]
pub extern "C" fn niegluk_write_frame(
    ty: &[u8],
    value: &[u8],
    out: &mut [u8],
    length: &mut usize,
) -> u32
    ensures { WriteFrame ty.now value.now out.old result length.new out.new }
{
    tell(niegluk::write_frame(ty, value, out), length)
}

// `read_frame` for C: the number, 0 where the value file is written; `length` is 0 where it is not.
#[unsafe(no_mangle)]
pub extern "C" fn niegluk_read_frame(
    ty: &[u8],
    frame: &[u8],
    out: &mut [u8],
    length: &mut usize,
) -> u32
    ensures { ReadFrame ty.now frame.now out.old result length.new out.new }
{
    tell(niegluk::read_frame(ty, frame, out), length)
}

// `part_read` for C: the number, 0 where the part's value file is written; `length` is 0 where it is not.
#[unsafe(no_mangle)]
pub extern "C" fn niegluk_part_read(
    ty: &[u8],
    frame: &[u8],
    path: &[u8],
    out: &mut [u8],
    length: &mut usize,
) -> u32
    ensures { PartRead ty.now frame.now path.now out.old result length.new out.new }
{
    tell(niegluk::part_read(ty, frame, path, out), length)
}

// `part_edit` for C: the number, 0 where the part is replaced; `length` is the frame's then, and 0 where it is not.
#[unsafe(no_mangle)]
pub extern "C" fn niegluk_part_edit(
    ty: &[u8],
    frame: &mut [u8],
    path: &[u8],
    value: &[u8],
    length: &mut usize,
) -> u32
    ensures part_edit { PartEdit ty.now frame.old path.now value.now result length.new frame.new }
    ensures edited { Edited after ty.now frame.old path.now value.now result length.new frame.new }
{
    tell(niegluk::part_edit(ty, frame, path, value), length)
}

// `search` for C: the number, 0 where the day file was searched; `found` is 1 where a frame matches, with its index in `index`, and else 0, as `index` is then.
#[unsafe(no_mangle)]
pub extern "C" fn niegluk_search(
    ty: &[u8],
    day: &[u8],
    path: &[u8],
    value: &[u8],
    found: &mut u32,
    index: &mut usize,
) -> u32
    ensures { SearchTold ty.now day.now path.now value.now result found.new index.new }
{
    let told = niegluk::search(ty, day, path, value);
    let at = told.unwrap_or(None);
    *found = u32::from(at.is_some());
    *index = at.unwrap_or(0);
    number(told)
}
