// Two edits on the frame of one job (02, R-2): the camera's, of the hits, and the density sensor's, in both orders; two of the same part, and the second alone; and one to the value already there.
// The last four are of parts of which one lies within the other: there the order counts, or the second edit is refused. Prints the frame that each pair leaves, in hexadecimal.
#![tactic(auto)]

ghost use Rattle.std.specs.Prelude.{◌≤◌, IfSome, length};
ghost use Rattle.io.specs.Counts.{IsPrefixLen};

use files::read_into;
use niegluk::{part_edit, part_read, write_frame};
use reply::Refusal;
use std::io;
use std::rt::Files;
use text::{write_hex, write_refused};

// An edit of the job's frame: the file of a part's path, and that of the part's new value, or none for the value that is there.
#[derive(Clone, Copy)]
struct Edit {
    path: &'static str,
    value: Option<&'static str>,
}

// The camera's: the list of hits to one of four, to one of five, to none, and to what it is.
const FOUR_HITS: Edit = Edit {
    path: "hits.path",
    value: Some("four.val"),
};

const FIVE_HITS: Edit = Edit {
    path: "hits.path",
    value: Some("five.val"),
};

const NO_HITS: Edit = Edit {
    path: "hits.path",
    value: Some("none.val"),
};

const SAME_HITS: Edit = Edit {
    path: "hits.path",
    value: None,
};

// The camera's of a part of that list.
const FIRST_HIT: Edit = Edit {
    path: "first-hit.path",
    value: Some("first-hit.val"),
};

// The density sensor's.
const DENSITY: Edit = Edit {
    path: "density.path",
    value: Some("density.val"),
};

// Writes the frame of the job in the current folder over the front of `frame`, and answers its length; none where it is refused.
fn write_job(rt: &impl Files, ty: &[u8], frame: &mut [u8]) -> Option<usize>
    ensures { IfSome result (λ n. IsPrefixLen n frame.new) }
{
    let mut value = [0u8; 1024];
    let value = read_into(rt, "job.val", &mut value);
    match write_frame(ty, value, frame) {
        Ok(n) => Some(n),
        Err(_) => None,
    }
}

// As `write_job`, and lends the frame: nothing where it is refused.
fn job_frame<'a>(rt: &impl Files, ty: &[u8], frame: &'a mut [u8]) -> &'a mut [u8]
    ensures { length result.now ≤ length frame.old }
{
    match write_job(rt, ty, frame) {
        Some(n) => &mut frame[..n],
        None => &mut [],
    }
}

// Writes the value file of a part over the front of `value`, and answers its length; none where it is refused.
fn write_part(ty: &[u8], frame: &[u8], path: &[u8], value: &mut [u8]) -> Option<usize>
    ensures { IfSome result (λ n. IsPrefixLen n value.new) }
{
    match part_read(ty, frame, path, value) {
        Ok(len) => Some(len),
        Err(_) => None,
    }
}

// As `write_part`, and lends the file: nothing where it is refused.
fn read_part<'a>(ty: &[u8], frame: &[u8], path: &[u8], value: &'a mut [u8]) -> &'a [u8]
    ensures { length result.now ≤ length value.old }
{
    match write_part(ty, frame, path, value) {
        Some(n) => &value[..n],
        None => &[],
    }
}

// Prints the line of a refusal.
fn show_refused(rt: &impl Print, x: Refusal) -> io::Result<()> {
    let mut line = [0u8; 12];
    let n = write_refused(x, &mut line);
    rt.write_all(&line[..n])
}

// Makes an edit, and prints the line of a refusal.
fn apply(rt: &(impl Files + Print), edit: Edit, ty: &[u8], frame: &mut [u8]) -> io::Result<()> {
    let mut path = [0u8; 16];
    let mut value = [0u8; 1024];
    let path = read_into(rt, edit.path, &mut path);
    let value = match edit.value {
        Some(name) => read_into(rt, name, &mut value),
        None => read_part(ty, frame, path, &mut value),
    };
    match part_edit(ty, frame, path, value) {
        Ok(_) => Ok(()),
        Err(x) => show_refused(rt, x),
    }
}

// Prints a frame, two digits a byte. Its line is made in a buffer, since the clauses of `write_hex` say each byte of it.
fn show(rt: &impl Print, frame: &[u8]) -> io::Result<()>
    requires { length frame.now ≤ 4096 }
{
    let mut line = [0u8; 8192];
    let n = write_hex(frame, &mut line);
    rt.write_all(&line[..n])?;
    println!(rt; "")
}

// Edits the job's frame, one edit after the other, and prints what they leave behind their name.
// The buffers are on the stack, as all memory of ours (README, Limits).
fn run(rt: &(impl Files + Print), name: &str, edits: &[Edit]) -> io::Result<()> {
    let mut ty = [0u8; 4096];
    let mut frame = [0u8; 4096];
    let ty = read_into(rt, "job.typ", &mut ty);
    let frame = job_frame(rt, ty, &mut frame);
    print!(rt; "{name}")?;
    for &edit in edits {
        apply(rt, edit, ty, frame)?;
    }
    show(rt, frame)
}

fn main(rt: HostRuntime) -> io::Result<()> {
    let runs: [(&str, &[Edit]); 10] = [
        ("the job: ", &[]),
        ("four hits, density: ", &[FOUR_HITS, DENSITY]),
        ("density, four hits: ", &[DENSITY, FOUR_HITS]),
        ("four hits, five hits: ", &[FOUR_HITS, FIVE_HITS]),
        ("five hits: ", &[FIVE_HITS]),
        ("the hits already there: ", &[SAME_HITS]),
        ("first hit, four hits: ", &[FIRST_HIT, FOUR_HITS]),
        ("four hits, first hit: ", &[FOUR_HITS, FIRST_HIT]),
        ("first hit, no hits: ", &[FIRST_HIT, NO_HITS]),
        ("no hits, first hit: ", &[NO_HITS, FIRST_HIT]),
    ];
    for (name, edits) in runs {
        run(&rt, name, edits)?;
    }
    Ok(())
}
