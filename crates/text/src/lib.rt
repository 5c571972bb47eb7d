// The lines that programs print, written into a buffer: those of `job` for an accepted type and value, the one of a refusal, or the one of a search.
// They are written by functions of our own, and not by `Display` and `write!`: the clauses say each byte that is put down and that those behind stay, and a formatter answers a `Result` that cannot fail here.
#![tactic(auto)]

ghost use Rattle.std.specs.Prelude.{◌≡◌, ◌<◌, ◌≤◌, length};
ghost use Rattle.reply.specs.Numbers.{refusal_number};
ghost use Rattle.structural.specs.Writing.{Wrote};
ghost use Rattle.text.specs.Lines.{decimal, heading, in_digits, in_hex, line, spaced, job_lines, short_line, refusal_line, found_line, none_line, hex_digit as Lines·hex-digit};
ghost use Rattle.text.specs.Pieces.{shown};

use itoa::Buffer;
use reply::Refusal;

const NEWLINE: u8 = b'\n';

const SPACE: u8 = b' ';

// How the contents of a line are shown: a digit a record, or two hexadecimal digits a byte.
// An enum, and no closure that writes them: the clauses say by it what is shown, and of a closure they would speak through each description that fits it, which is no plainer.
#[derive(Clone, Copy)]
enum Contents {
    Records,
    Bytes,
}

// The hexadecimal digit of a number below 16.
fn hex_digit(d: u8) -> u8
    requires { d < 16 }
    ensures { result ≡ Lines·hex-digit d }
{
    if d < 10 { b'0' + d } else { b'a' + (d - 10) }
}

// Writes a name as it is, and answers its length.
fn write_name(name: &[u8], out: &mut [u8]) -> usize
    requires { length name.now ≤ length out.old }
    ensures { Wrote name.now out.old out.new result }
{
    let n = name.len();
    out[..n].copy_from_slice(name);
    n
}

// Writes n in decimal digits, and answers how many.
fn write_decimal(n: usize, out: &mut [u8]) -> usize
    requires { length (decimal n) ≤ length out.old }
    ensures { Wrote (decimal n) out.old out.new result }
{
    write_name(Buffer::new().format(n).as_bytes(), out)
}

// Writes a name and a number, and answers the length.
fn write_heading(name: &[u8], n: usize, out: &mut [u8]) -> usize
    requires { length (heading name.now n) ≤ length out.old }
    ensures { Wrote (heading name.now n) out.old out.new result }
{
    let i = write_name(name, out);
    out[i] = SPACE;
    let k = i + 1;
    write_decimal(n, &mut out[k..]) + k
}

// Writes a digit for each record, and answers how many.
pub fn write_digits(s: &[u8], out: &mut [u8]) -> usize
    requires { length (in_digits s.now) ≤ length out.old }
    ensures { Wrote (in_digits s.now) out.old out.new result }
{
    for (i, &b) in s.iter().enumerate() {
        out[i] = b'0' + b % 10;
    }
    s.len()
}

// Writes two hexadecimal digits for each byte, and answers how many.
// Not by the crate `hex`: it fills a part that has to be cut out to just this length, and answers a `Result` that cannot fail here, which is no plainer than the loop.
pub fn write_hex(s: &[u8], out: &mut [u8]) -> usize
    requires { length (in_hex s.now) ≤ length out.old }
    ensures { Wrote (in_hex s.now) out.old out.new result }
{
    for (i, &b) in s.iter().enumerate() {
        out[2 * i] = hex_digit(b / 16);
        out[2 * i + 1] = hex_digit(b % 16);
    }
    2 * s.len()
}

impl Contents {
    ghost use Rattle.text.specs.Pieces.{shown};

    // Writes what shows these bytes, and answers its length.
    fn write(self, s: &[u8], out: &mut [u8]) -> usize
        requires { length (shown self s.now) ≤ length out.old }
        ensures { Wrote (shown self s.now) out.old out.new result }
    {
        match self {
            Contents::Records => write_digits(s, out),
            Contents::Bytes => write_hex(s, out),
        }
    }
}

// Writes a space and the contents, nothing if they are empty, and answers the length.
fn write_contents(contents: Contents, s: &[u8], out: &mut [u8]) -> usize
    requires { length (spaced (shown contents s.now)) ≤ length out.old }
    ensures { Wrote (spaced (shown contents s.now)) out.old out.new result }
{
    if s.is_empty() {
        return 0;
    }
    out[0] = SPACE;
    contents.write(s, &mut out[1..]) + 1
}

// Writes a line, and answers its length.
fn write_line(name: &[u8], contents: Contents, s: &[u8], out: &mut [u8]) -> usize
    requires { length (line name.now (length s.now) (shown contents s.now)) ≤ length out.old }
    ensures { Wrote (line name.now (length s.now) (shown contents s.now)) out.old out.new result }
{
    let i = write_heading(name, s.len(), out);
    let k = write_contents(contents, s, &mut out[i..]) + i;
    out[k] = NEWLINE;
    k + 1
}

// Writes the three lines of a lowered type, a shape and a frame over the front of `out`, and answers their length; the bytes behind them stay.
pub fn write_job(lowered: &[u8], shape: &[u8], frame: &[u8], out: &mut [u8]) -> usize
    requires { length (job_lines lowered.now shape.now frame.now) ≤ length out.old }
    ensures { Wrote (job_lines lowered.now shape.now frame.now) out.old out.new result }
{
    let i = write_line(b"type", Contents::Records, lowered, out);
    let k = write_line(b"shape", Contents::Records, shape, &mut out[i..]) + i;
    write_line(b"frame", Contents::Bytes, frame, &mut out[k..]) + k
}

// Writes a line of a name and a number alone over the front of `out`, and answers its length; the bytes behind it stay.
fn write_short(name: &[u8], n: usize, out: &mut [u8]) -> usize
    requires { length (short_line name.now n) ≤ length out.old }
    ensures { Wrote (short_line name.now n) out.old out.new result }
{
    let k = write_heading(name, n, out);
    out[k] = NEWLINE;
    k + 1
}

// Writes the line of a refusal, and answers its length. The cast only widens: no `From` takes a `u32` to a `usize`, and of a `TryFrom` there is an error to drop that cannot be.
pub fn write_refused(x: Refusal, out: &mut [u8]) -> usize
    requires { 12 ≤ length out.old }
    ensures { Wrote (refusal_line (refusal_number x)) out.old out.new result }
{
    write_short(b"refused", u32::from(x) as usize, out)
}

// Writes the line of a search that found frame i, and answers its length.
pub fn write_found(i: usize, out: &mut [u8]) -> usize
    requires { 27 ≤ length out.old }
    ensures { Wrote (found_line i) out.old out.new result }
{
    write_short(b"found", i, out)
}

// Writes the line of a search that found no frame, and answers its length.
pub fn write_none(out: &mut [u8]) -> usize
    requires { 5 ≤ length out.old }
    ensures { Wrote none_line out.old out.new result }
{
    write_name(b"none\n", out)
}
