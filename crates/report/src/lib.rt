// What the program `job` prints of a type file and a value file, made whole in a buffer.
// The type is read once and the value checked once; the three results are written into buffers that always hold them.
#![tactic(auto)]

ghost use Rattle.std.specs.Prelude.{◌≡◌, ◌≤◌, length};
ghost use Rattle.io.specs.Counts.{IsPrefixLen};
ghost use Rattle.structural.specs.Writing.{Wrote};
ghost use Rattle.types.specs.Entries.{ends, widths};
ghost use Rattle.delivery.specs.Tables.{IsMeasured};
ghost use Rattle.report.specs.Job.{job_text, Accepted, Printable, Reported};

use files::read_into;
use frame::write_frame;
use reply::Refusal;
use shape::write_shape;
use std::io;
use std::rt::Files;
use structural::write_lowered;
use table::{RECORDS, tabulate};
use text::{write_job, write_refused};
use types::{Entry, LEVELS, Table};
use value::check_file;

// The most bytes that a file may have.
const MOST: usize = 65536;

// Writes the three lines of a type that lowers and a value of it, and answers their length.
fn write_accepted(table: &Table<'_>, val: &[u8], out: &mut [u8]) -> usize
    requires accepted { Accepted table.now.ty.now (ends table.now.entries.now) (widths table.now.entries.now) val.now }
    requires in_bounds { 140000 ≤ length out.old }
    ensures { Wrote (job_text table.now.ty.now val.now) out.old out.new result }
{
    // Of fixed sizes, and cut where the results end, since the libraries take no memory.
    let mut lowered = [0u8; 65536];
    let mut shape = [0u8; 65536];
    let mut frame = [0u8; 4096];
    let n = write_lowered(table, 0, LEVELS, &mut lowered);
    let m = write_shape(table, val, &mut shape);
    let k = write_frame(table, val, &mut frame);
    write_job(&lowered[..n], &shape[..m], &frame[..k], out)
}

// Writes what `job` prints of a type file that lowers and a value file, both of at most 65,536 bytes.
fn report_value(table: &Table<'_>, val: &[u8], out: &mut [u8]) -> usize
    requires measured { IsMeasured table.now.ty.now table.now.entries.now }
    requires printable { Printable table.now.ty.now val.now out.old }
    ensures { Reported table.now.ty.now val.now out.old out.new result }
{
    match check_file(table, val) {
        Err(why) => write_refused(why, out),
        Ok(_) => write_accepted(table, val, out),
    }
}

// Writes what `job` prints of two files of at most 65,536 bytes. It owns the table of the type file.
fn report_type(ty: &[u8], val: &[u8], out: &mut [u8]) -> usize
    requires { Printable ty.now val.now out.old }
    ensures { Reported ty.now val.now out.old out.new result }
{
    // Of a fixed size, since the libraries take no memory.
    let mut entries = [Entry::default(); RECORDS];
    match tabulate(ty, &mut entries) {
        Err(x) => write_refused(x, out),
        Ok(_) => report_value(
            &Table {
                ty,
                entries: &entries,
            },
            val,
            out,
        ),
    }
}

// Writes what `job` prints over the front of `out`, and answers its length.
pub fn report(ty: &[u8], val: &[u8], out: &mut [u8]) -> usize
    requires { 140000 ≤ length out.old }
    ensures wrote { Wrote (job_text ty.now val.now) out.old out.new result }
    ensures prefix_len { IsPrefixLen result out.new }
{
    if MOST < ty.len() || MOST < val.len() {
        return write_refused(Refusal::NoRoom, out);
    }
    report_type(ty, val, out)
}

// Reads the type file and the value file of these names, and prints what `job` makes of them.
// The buffers of the files hold one byte more than a file may have, so that a longer one shows.
pub fn report_files(
    rt: &(impl Files + Print),
    type_name: &str,
    value_name: &str,
) -> io::Result<()> {
    let mut ty = [0u8; 65537];
    let mut val = [0u8; 65537];
    let mut out = [0u8; 140000];
    let ty = read_into(rt, type_name, &mut ty);
    let val = read_into(rt, value_name, &mut val);
    let n = report(ty, val, &mut out);
    rt.write_all(&out[..n])
}
