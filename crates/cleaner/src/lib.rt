// What the program `clean` does in a folder. What it gives of the two files is made whole in a buffer, by the proved entry; the rest reads and writes.
#![tactic(auto)]

ghost use Rattle.std.specs.Prelude.{◌≡◌, ◌≤◌, IfOk, IfErr, MatchResult, true, false, length, take};
ghost use Rattle.model.specs.Operations.{cleaned_shape};
ghost use Rattle.io.specs.Counts.{IsPrefixLen};
ghost use Rattle.cleaner.specs.Gives.{given};

use files::{read_into, records_into, write_file};
use niegluk::clean_shape;
use std::io;
use std::rt::Files;
use text::write_refused;

// The names of the files that `clean` reads, of the one that it makes, and of the one by way of which it does.
#[derive(Clone, Copy)]
pub struct Names<'a> {
    pub ty: &'a str,
    pub shape: &'a str,
    pub new: &'a str,
    pub part: &'a str,
}

// Those of the program `clean`, in the current folder.
pub const HERE: Names<'static> = Names {
    ty: "old.typ",
    shape: "old.shape",
    new: "new.shape",
    part: "new.shape.part",
};

// Writes what `clean` gives of a type file and a shape file over the front of `out`, and answers its length: of the cleaned shape, or else, as the error, of the line of the refusal.
pub fn make_front(ty: &[u8], shape: &[u8], out: &mut [u8]) -> Result<usize, usize>
    requires { 65536 ≤ length out.old }
    ensures cleaned { IfOk result (λ n. (true, take n out.new) ≡ given (cleaned_shape ty.now shape.now)) }
    ensures refused { IfErr result (λ n. (false, take n out.new) ≡ given (cleaned_shape ty.now shape.now)) }
    ensures prefix_len { MatchResult result (λ n. IsPrefixLen n out.new) (λ n. IsPrefixLen n out.new) }
{
    match clean_shape(ty, shape, out) {
        Ok(n) => Ok(n),
        Err(x) => Err(write_refused(x, out)),
    }
}

// As `make_front`, and lends what was written.
pub fn make<'a>(ty: &[u8], shape: &[u8], out: &'a mut [u8]) -> Result<&'a [u8], &'a [u8]>
    requires { 65536 ≤ length out.old }
    ensures cleaned { IfOk result (λ made. (true, made.now) ≡ given (cleaned_shape ty.now shape.now)) }
    ensures refused { IfErr result (λ line. (false, line.now) ≡ given (cleaned_shape ty.now shape.now)) }
    ensures lent { MatchResult result (λ made. length made.now ≤ length out.old) (λ line. length line.now ≤ length out.old) }
{
    match make_front(ty, shape, out) {
        Ok(n) => Ok(&out[..n]),
        Err(n) => Err(&out[..n]),
    }
}

// Reads the type file and the shape file of these names, and makes the cleaned shape the file `new`, by way of the file `part`, or prints the line of the refusal.
// Of a file that is missing no byte is read. Of one that is longer than its buffer the front is read, and of a type file the length but for multiples of 4, so that
// the number is the whole file's: 8 for a shape, 1 or 2 for a type. Where the file `new` is not made, why goes to standard error. Only printing can fail.
// The buffers are on the stack, as all memory of ours (README, Limits).
pub fn clean_files(rt: &(impl Files + Print + Eprint), names: Names<'_>) -> io::Result<()> {
    let mut ty = [0u8; 65540];
    let mut shape = [0u8; 65540];
    let mut out = [0u8; 65536];
    let ty = records_into(rt, names.ty, &mut ty);
    let shape = read_into(rt, names.shape, &mut shape);
    let Names { new, part, .. } = names;
    match make(ty, shape, &mut out) {
        Ok(made) => write_file(rt, new, part, made).or_else(|e| eprintln!(rt; "{new}: {e}")),
        Err(line) => rt.write_all(line),
    }
}
