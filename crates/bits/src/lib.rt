// Bits of a byte slice, by shifts and masks: bit 0 is the highest bit of byte 0. They are 01's own, ported from no Rust file.
// A function takes the whole slice and a bit number, keeps every other bit, and moves a byte at a time where a whole byte can move.
// A slice, a bit number and a number of bits stay parameters, though `Inside` speaks of all three: as a struct they would be made anew for each call.
// Four functions go over whole bytes and then bit by bit. One for all four would take what is done with a byte and with a bit as closures, and say of each what it does to the slice, for loops of a line or two.
#![tactic(auto)]

ghost use Rattle.std.specs.Prelude.{◌≡◌, false, not, [], ◌∷◌, ◌+◌, ◌*◌, ◌<◌, ◌≤◌, length, get_or, MatchOption};
ghost use Rattle.model.specs.Options.{any};
ghost use Rattle.model.specs.Bytes.{byte_bits, bits_of, of_bits, zeros, in_bytes};
ghost use Rattle.bits.specs.Bits.{bits_at, Inside, Wrote, Tells};

// The bits of an integer's 32 bytes.
pub const INTEGER_BITS: usize = 256;

// The bit at `at`.
pub fn get_bit(s: &[u8], at: usize) -> bool
    requires { at < 8 * length s.now }
    ensures { result ≡ get_or (bits_of s.now) at false }
{
    let i = at / 8;
    let k = 7 - at % 8;
    (s[i] >> k) & 1 == 1
}

// The bit at `at` becomes `bit`.
pub fn set_bit(buf: &mut [u8], at: usize, bit: bool)
    requires { at < 8 * length buf.old }
    ensures { Wrote buf.old at (bit ∷ []) buf.new }
{
    let i = at / 8;
    let k = at % 8;
    let b = buf[i];
    if bit {
        buf[i] = b | (128 >> k);
    } else {
        buf[i] = b & !(128 >> k);
    }
}

// The eight bits from `at` on, as a byte; a second byte is looked at only where they reach into it.
fn get_byte(s: &[u8], at: usize) -> u8
    requires { at + 8 ≤ 8 * length s.now }
    ensures { byte_bits result ≡ bits_at s.now at 8 }
{
    let i = at / 8;
    let k = at % 8;
    let a = s[i];
    if k == 0 {
        return a;
    }
    let b = s[i + 1];
    (a << k) | (b >> (8 - k))
}

// The eight bits from `at` on become those of `v`; a second byte is touched only where they reach into it.
fn put_byte(buf: &mut [u8], at: usize, v: u8)
    requires { at + 8 ≤ 8 * length buf.old }
    ensures { Wrote buf.old at (byte_bits v) buf.new }
{
    let i = at / 8;
    let k = at % 8;
    if k == 0 {
        buf[i] = v;
        return;
    }
    let j = i + 1;
    let mask: u8 = 255 >> k;
    let a = buf[i];
    let b = buf[j];
    buf[i] = (a & !mask) | (v >> k);
    buf[j] = (b & mask) | (v << (8 - k));
}

// The k bytes' bits from `at` on become zeros.
fn zero_bytes(buf: &mut [u8], at: usize, k: usize)
    requires { Inside buf.old at (8 * k) }
    ensures { Wrote buf.old at (zeros (8 * k)) buf.new }
{
    if at % 8 == 0 {
        let first = at / 8;
        // Tried with the library's `fill`: it writes the last byte apart from the others, 12 instructions more from two bytes on.
        for byte in &mut buf[first..first + k] {
            *byte = 0;
        }
        return;
    }
    for i in 0..k {
        put_byte(buf, at + 8 * i, 0);
    }
}

// The n bits from `at` on become zeros: whole bytes first, then what is left bit by bit.
pub fn write_zeros(buf: &mut [u8], at: usize, n: usize)
    requires { Inside buf.old at n }
    ensures { Wrote buf.old at (zeros n) buf.new }
{
    let k = n / 8;
    zero_bytes(buf, at, k);
    for i in 8 * k..n {
        set_bit(buf, at + i, false);
    }
}

// Are the k bytes' bits from `at` on all zero?
fn are_zero_bytes(s: &[u8], at: usize, k: usize) -> bool
    requires { Inside s.now at (8 * k) }
    ensures { result ≡ not (any (bits_at s.now at (8 * k))) }
{
    if at % 8 == 0 {
        let first = at / 8;
        return s[first..first + k].iter().all(|byte| *byte == 0);
    }
    for i in 0..k {
        if get_byte(s, at + 8 * i) != 0 {
            return false;
        }
    }
    true
}

// Are the n bits from `at` on all zero? Of no bits the answer is yes. Whole bytes are looked at first.
pub fn is_zero_run(s: &[u8], at: usize, n: usize) -> bool
    requires { Inside s.now at n }
    ensures { result ≡ not (any (bits_at s.now at n)) }
{
    let k = n / 8;
    if !are_zero_bytes(s, at, k) {
        return false;
    }
    for i in 8 * k..n {
        if get_bit(s, at + i) {
            return false;
        }
    }
    true
}

// Are the n bits from `at` on those of `other` from `from` on? Of no bits the answer is yes. Eight bits are compared at a time, then what is left bit by bit.
pub fn same_bits(s: &[u8], at: usize, other: &[u8], from: usize, n: usize) -> bool
    requires { Inside s.now at n × Inside other.now from n }
    ensures { Tells result (bits_at s.now at n ≡ bits_at other.now from n) }
{
    let k = n / 8;
    for i in 0..k {
        if get_byte(s, at + 8 * i) != get_byte(other, from + 8 * i) {
            return false;
        }
    }
    for i in 8 * k..n {
        if get_bit(s, at + i) != get_bit(other, from + i) {
            return false;
        }
    }
    true
}

// The k bytes' bits of src from `from` on are put at `at`.
fn copy_bytes(src: &[u8], from: usize, dst: &mut [u8], at: usize, k: usize)
    requires { Inside src.now from (8 * k) × Inside dst.old at (8 * k) }
    ensures { Wrote dst.old at (bits_at src.now from (8 * k)) dst.new }
{
    if from % 8 == 0 && at % 8 == 0 {
        let start = from / 8;
        let first = at / 8;
        // Tried with the library's `copy_from_slice`: 18 instructions more for one byte and 11 for four, fewer only from nine bytes on.
        for i in 0..k {
            dst[first + i] = src[start + i];
        }
        return;
    }
    for i in 0..k {
        put_byte(dst, at + 8 * i, get_byte(src, from + 8 * i));
    }
}

// The n bits of src from `from` on are put at bit `at` of dst: whole bytes first, then what is left bit by bit.
pub fn copy_bits(src: &[u8], from: usize, dst: &mut [u8], at: usize, n: usize)
    requires { Inside src.now from n × Inside dst.old at n }
    ensures { Wrote dst.old at (bits_at src.now from n) dst.new }
{
    let k = n / 8;
    copy_bytes(src, from, dst, at, k);
    for i in 8 * k..n {
        set_bit(dst, at + i, get_bit(src, from + i));
    }
}

// The integer that the w bits from `at` on say, as 32 bytes, high byte first: zeros stand before its bits.
// The 32 bytes are a slice with its length in the clause: they are bytes 4 to 35 of the record that `unframe` writes, and a reference to an array would have to be made of that slice at each call.
pub fn read_uint(s: &[u8], at: usize, int: &mut [u8], w: usize)
    requires { Inside s.now at w × (w ≤ 256) × (length int.old ≡ 32) }
    ensures { int.new ≡ in_bytes 32 (of_bits (bits_at s.now at w)) }
{
    write_zeros(int, 0, INTEGER_BITS - w);
    copy_bits(s, at, int, INTEGER_BITS - w, w);
}
