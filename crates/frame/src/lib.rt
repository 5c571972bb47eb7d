// The frame of a value (01, 'Frame'; ported from no Rust file): its bits, from its value file and its type file, which were checked before.
// A writer takes the whole buffer and a bit number, and writes each bit of its stretch once.
#![tactic(auto)]

ghost use Rattle.std.specs.Prelude.{◌≡◌, false, ◌⊎◌, ◌+◌, ◌/◌, ◌^◌, ◌≤◌, ◌<◌, length};
ghost use Rattle.model.specs.Balanced.{btree};
ghost use Rattle.model.specs.Frames as frames;
ghost use Rattle.types.specs.Steps.{Given};
ghost use Rattle.structural.specs.Forms.{most_parts, Stands};
ghost use Rattle.structural.specs.Forms as structural;
ghost use Rattle.bits.specs.Bits.{Inside, Wrote};
ghost use Rattle.told.specs.Forms.{GivenParts, record_bits};
ghost use Rattle.told.specs.Forms as told;
ghost use Rattle.told.specs.Widths.{Wide};
ghost use Rattle.frame.specs.Forms.{frame_at, row, tags, chosen, block, listed, Fitted, Framed, Tagged, Room, Filed};
ghost use Rattle.types.specs.Entries.{ends, widths};

use array::btree_split_index;
use bits::{copy_bits, set_bit, write_zeros};
use num::NonZeroPow2Usize;
use told::{Form, after_part, form_of, hop, share};
use types::{LEVELS, Parts, Table};
use value::RECORD;

// How far the writing has come: the record of the next value, and the bit at which its frame starts.
#[derive(Clone, Copy)]
struct Cursor {
    next: usize,
    bit: usize,
}

// What a frame is written from: a type file with its table, whose widths are right, and a value file.
#[derive(Clone, Copy)]
struct Source<'a> {
    table: Table<'a>,
    val: &'a [u8],
    // what the check knows of a slice that is lent, but not of one in a struct inside another
    ghost small: { length table.ty.now < 2 ^ 64 },
    ghost wide: { Wide table.ty.now (ends table.entries.now) (widths table.entries.now) },
}

// Writes the n bits of record v from its bit j on.
fn write_bits(val: &[u8], v: usize, j: usize, n: usize, buf: &mut [u8], bit: usize)
    requires v_in_bounds { (v < length val.now / 36) × (j + n ≤ 288) }
    requires inside { Inside buf.old bit n }
    ensures { Wrote buf.old bit (record_bits val.now v j n) buf.new }
{
    let start = v * RECORD;
    let end = start + RECORD;
    copy_bits(&val[start..end], j, buf, bit, n);
}

// Writes the tags that lead to choice i of n, and answers the bit after them.
fn write_tags(buf: &mut [u8], bit: usize, n: usize, i: usize) -> usize
    requires i_lt_n { (i < n) × (n ≤ most_parts) }
    requires inside { Inside buf.old bit (length (tags (btree n) i)) }
    ensures { Tagged (tags (btree n) i) buf.old bit buf.new result }
{
    if n == 1 {
        return bit;
    }
    let few = btree_split_index(n);
    if i < few {
        set_bit(buf, bit, false);
        return write_tags(buf, bit + 1, few, i);
    }
    set_bit(buf, bit, true);
    write_tags(buf, bit + 1, n - few, i - few)
}

// Each writer takes a record of the type and the levels from there on, and goes on from where the writing has come to where it comes.
impl Source<'_> {
    // Writes the frame of a value of what stands at record `at` of the type.
    // From the other walks over a type this one differs in what it does with a bit, a row, a sum and a block: it writes them, bit after bit, from the value file.
    #[cycle(writers)]
    fn record(&self, at: usize, level: usize, from: Cursor, buf: &mut [u8]) -> Cursor
        requires stands { Stands level self.now.table.ty.now (ends self.now.table.entries.now) at }
        requires fitted { Fitted (frame_at level self.now.table.ty.now self.now.val.now at from.next) buf.old from.bit }
        ensures { Framed (frame_at level self.now.table.ty.now self.now.val.now at from.next) buf.old from.bit buf.new result.next result.bit }
    {
        match form_of(self.table.head(at), self.val, from.next) {
            Form::Bits(j, n) => {
                write_bits(self.val, from.next, j, n, buf, from.bit);
                Cursor {
                    next: from.next + 1,
                    bit: from.bit + n,
                }
            }
            Form::Product(parts, n) => {
                let inner = Cursor {
                    next: from.next + 1,
                    ..from
                };
                self.row(at + 1, level - 1, n, parts, inner, buf)
            }
            Form::Sum(n, i) => {
                let place = hop(&self.table, at + 1, i);
                let inner = Cursor {
                    next: from.next + 1,
                    ..from
                };
                self.sum(place, level - 1, n, i, self.table.width(at), inner, buf)
            }
            Form::List(bound, m) => {
                let inner = Cursor {
                    next: from.next + 1,
                    ..from
                };
                self.list(at + 1, level - 1, bound, m, inner, buf)
            }
            Form::Payload(n) => self.row(at + 1, level - 1, n, Parts::Types, from, buf),
        }
    }

    // Writes the frames of values one after the other, of the n parts from record `at` of the type on.
    #[cycle(writers)]
    fn row(
        &self,
        at: usize,
        level: usize,
        n: usize,
        parts: Parts,
        from: Cursor,
        buf: &mut [u8],
    ) -> Cursor
        requires given_parts { GivenParts parts level self.now.table.ty.now (ends self.now.table.entries.now) n at }
        requires fitted { Fitted (row parts level self.now.table.ty.now self.now.val.now n at from.next) buf.old from.bit }
        ensures { Framed (row parts level self.now.table.ty.now self.now.val.now n at from.next) buf.old from.bit buf.new result.next result.bit }
    {
        let mut place = at;
        let mut here = from;
        for _ in 0..n {
            here = self.record(place, level, here, buf);
            place = after_part(&self.table, place, parts);
        }
        here
    }

    // Writes choice i of n in `width` bits: its tags, the frame of a value of what stands at record `at` of the type, and zeros.
    #[cycle(writers)]
    fn sum(
        &self,
        at: usize,
        level: usize,
        n: usize,
        i: usize,
        width: usize,
        from: Cursor,
        buf: &mut [u8],
    ) -> Cursor
        requires i_lt_n { (i < n) × (n ≤ most_parts) }
        requires stands { Stands level self.now.table.ty.now (ends self.now.table.entries.now) at }
        requires at_len_bound { length (tags (btree n) i) + frames.width (structural.standing level self.now.table.ty.now at) ≤ width }
        requires fitted { Fitted (chosen level self.now.table.ty.now self.now.val.now n i width at from.next) buf.old from.bit }
        ensures { Framed (chosen level self.now.table.ty.now self.now.val.now n i width at from.next) buf.old from.bit buf.new result.next result.bit }
    {
        let start = write_tags(buf, from.bit, n, i);
        let last = self.record(at, level, Cursor { bit: start, ..from }, buf);
        let end = from.bit + width;
        write_zeros(buf, last.bit, end - last.bit);
        Cursor { bit: end, ..last }
    }

    // Writes a block of n with m elements, all of them or none: its tag, then the frames of values of what stands at record `at` of the type, or zeros.
    #[cycle(writers)]
    fn block(
        &self,
        at: usize,
        level: usize,
        n: usize,
        m: usize,
        from: Cursor,
        buf: &mut [u8],
    ) -> Cursor
        requires fact { (m ≡ 0) ⊎ (m ≡ n) }
        requires stands { Stands level self.now.table.ty.now (ends self.now.table.entries.now) at }
        requires fitted { Fitted (block level self.now.table.ty.now self.now.val.now n m at from.next) buf.old from.bit }
        ensures { Framed (block level self.now.table.ty.now self.now.val.now n m at from.next) buf.old from.bit buf.new result.next result.bit }
    {
        if m == 0 {
            set_bit(buf, from.bit, false);
            let start = from.bit + 1;
            let len = n * self.table.width(at);
            write_zeros(buf, start, len);
            return Cursor {
                bit: start + len,
                ..from
            };
        }
        set_bit(buf, from.bit, true);
        self.row(
            at,
            level,
            m,
            Parts::Copies,
            Cursor {
                bit: from.bit + 1,
                ..from
            },
            buf,
        )
    }

    // Writes the list with the bound and m elements of what stands at record `at` of the type: with the bound 2 a block of 1, else the block of half the bound and the list of the rest with that bound.
    #[cycle(writers)]
    fn list(
        &self,
        at: usize,
        level: usize,
        bound: NonZeroPow2Usize,
        m: usize,
        from: Cursor,
        buf: &mut [u8],
    ) -> Cursor
        requires few { m < bound.value }
        requires stands { Stands level self.now.table.ty.now (ends self.now.table.entries.now) at }
        requires fitted { Fitted (listed level self.now.table.ty.now self.now.val.now bound m at from.next) buf.old from.bit }
        ensures { Framed (listed level self.now.table.ty.now self.now.val.now bound m at from.next) buf.old from.bit buf.new result.next result.bit }
    {
        match bound.checked_div2() {
            None => self.block(at, level, 1, m, from, buf),
            Some(half) => {
                let n = half.get();
                let k = share(m, n);
                let here = self.block(at, level, n, k, from, buf);
                self.list(at, level, half, m - k, here, buf)
            }
        }
    }
}

// Writes the frame of the value at record v of what stands at record `at` of the type, with `level` levels from there on, and answers the record after the value.
pub fn write_record(
    table: &Table<'_>,
    at: usize,
    level: usize,
    val: &[u8],
    v: usize,
    buf: &mut [u8],
    bit: usize,
) -> usize
    requires stands { Stands level table.now.ty.now (ends table.now.entries.now) at }
    requires wide { Wide table.now.ty.now (ends table.now.entries.now) (widths table.now.entries.now) }
    requires fitted { Fitted (frame_at level table.now.ty.now val.now at v) buf.old bit }
    ensures { Framed (frame_at level table.now.ty.now val.now at v) buf.old bit buf.new result (bit + frames.width (structural.standing level table.now.ty.now at)) }
{
    let source = Source { table: *table, val };
    source.record(at, level, Cursor { next: v, bit }, buf).next
}

// Writes the frame of the value file, one of the type file, and answers the number of its bytes: zeros fill the last one, and the bytes behind it stay.
pub fn write_frame(table: &Table<'_>, val: &[u8], out: &mut [u8]) -> usize
    requires given { Given 32 false table.now.ty.now (ends table.now.entries.now) 0 }
    requires wide { Wide table.now.ty.now (ends table.now.entries.now) (widths table.now.entries.now) }
    requires room { Room (structural.standing 32 table.now.ty.now 0) (told.standing 32 table.now.ty.now val.now 0 0) out.old }
    ensures { Filed (structural.standing 32 table.now.ty.now 0) (told.standing 32 table.now.ty.now val.now 0 0) out.old out.new result }
{
    let width = table.width(0);
    let len = width.div_ceil(8);
    write_record(table, 0, LEVELS, val, 0, out, 0);
    write_zeros(out, width, len * 8 - width);
    len
}
