// A frame's bits behind a reader that holds the bytes and the next bit. The reader's methods are thin: each makes it or takes it apart,
// and leaves the work to crate `bits`. The three functions behind them, whose parameters are plain slices, are what the walks call.
#![tactic(auto)]

ghost use Rattle.std.specs.Prelude.{◌≡◌, false, not, ◌+◌, ◌*◌, ◌<◌, ◌≤◌, ◌^◌, length, get_or};
ghost use Rattle.model.specs.Options.{any};
ghost use Rattle.model.specs.Bytes.{bits_of, of_bits, in_bytes};
ghost use Rattle.bits.specs.Bits.{bits_at, Inside};

use bits::{get_bit, is_zero_run, read_uint};

// After the Rust's `ValueRef`: the bytes of a frame, and the next bit.
#[derive(Clone, Copy)]
pub struct FrameReader<'a> {
    pub bytes: &'a [u8],
    pub bit: usize,
}

impl<'a> FrameReader<'a> {
    // A reader at the first bit.
    pub fn new(bytes: &'a [u8]) -> Self
        ensures { (result.bytes ≡ bytes.entry) × (result.bit ≡ 0) }
    {
        FrameReader { bytes, bit: 0 }
    }

    // The same bytes, n bits further on.
    pub fn move_on(self, n: usize) -> Self
        requires { self.bit + n < 2 ^ 64 }
        ensures { (result.bytes ≡ self.entry.bytes) × (result.bit ≡ self.entry.bit + n) }
    {
        FrameReader {
            bit: self.bit + n,
            ..self
        }
    }

    // The next bit.
    pub fn look(self) -> bool
        requires { self.bit < 8 * length self.bytes.now }
        ensures { result ≡ get_or (bits_of self.entry.bytes.now) self.entry.bit false }
    {
        get_bit(self.bytes, self.bit)
    }

    // Are the next n bits all zero? Of no bits the answer is yes.
    pub fn is_zero(self, n: usize) -> bool
        requires { Inside self.bytes.now self.bit n }
        ensures { result ≡ not (any (bits_at self.entry.bytes.now self.entry.bit n)) }
    {
        is_zero_run(self.bytes, self.bit, n)
    }

    // The integer that the next w bits say, as 32 bytes, high byte first.
    pub fn read(self, int: &mut [u8], w: usize)
        requires { Inside self.bytes.now self.bit w × (w ≤ 256) × (length int.old ≡ 32) }
        ensures { int.new ≡ in_bytes 32 (of_bits (bits_at self.entry.bytes.now self.entry.bit w)) }
    {
        read_uint(self.bytes, self.bit, int, w);
    }
}

// The bit at `bit`.
pub fn bit_at(frame: &[u8], bit: usize) -> bool
    requires { bit < 8 * length frame.now }
    ensures { result ≡ get_or (bits_of frame.now) bit false }
{
    FrameReader::new(frame).move_on(bit).look()
}

// Are the n bits from `bit` on all zero? Of no bits the answer is yes.
pub fn zeros_at(frame: &[u8], bit: usize, n: usize) -> bool
    requires { Inside frame.now bit n }
    ensures { result ≡ not (any (bits_at frame.now bit n)) }
{
    FrameReader::new(frame).move_on(bit).is_zero(n)
}

// The integer that the w bits from `bit` on say, as 32 bytes, high byte first: zeros stand before its bits.
pub fn uint_at(frame: &[u8], bit: usize, int: &mut [u8], w: usize)
    requires { Inside frame.now bit w × (w ≤ 256) × (length int.old ≡ 32) }
    ensures { int.new ≡ in_bytes 32 (of_bits (bits_at frame.now bit w)) }
{
    FrameReader::new(frame).move_on(bit).read(int, w);
}
