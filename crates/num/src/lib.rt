// Powers of two, after num.rs: a list bound and a bit width keep their two types, since `get` is all that they share: other numbers are admitted, and a width has no half and no logarithm.
// `new` admits what a type file can say (01, kinds 7 and 2): bounds from 2 to 32,768, widths from 1 to 256; each type says so of all its values.
#![tactic(auto)]

ghost use Rattle.std.specs.Prelude.{◌≡◌, true};
ghost use Rattle.num.specs.Admitted.{is_bound, is_width};

// An integer that is known to be a power of two with nonzero exponent: a list bound.
#[derive(Clone, Copy, PartialEq, Eq, Debug)]
pub struct NonZeroPow2Usize {
    value: usize,
    pub ghost admitted: { is_bound value ≡ true },
}

impl NonZeroPow2Usize {
    ghost use Rattle.num.specs.Powers.{bound_of, bound_log2, half_bound};

    // The smallest list bound.
    pub const TWO: NonZeroPow2Usize = NonZeroPow2Usize { value: 2 };

    // The list bound n, or `None` where n is no power of two from 2 to 32,768.
    pub fn new(n: usize) -> Option<NonZeroPow2Usize>
        ensures { result ≡ bound_of n }
    {
        match n {
            2
            | 4
            | 8
            | 16
            | 32
            | 64
            | 128
            | 256
            | 512
            | 1024
            | 2048
            | 4096
            | 8192
            | 16384
            | 32768 => Some(NonZeroPow2Usize { value: n }),
            _ => None,
        }
    }

    // The bound as a number.
    pub fn get(self) -> usize
        ensures { result ≡ self.value }
    {
        self.value
    }

    // The binary logarithm: k of the bound 2 ^ k, from 1 to 15.
    pub fn log2(self) -> usize
        ensures { result ≡ bound_log2 self.value }
    {
        // `as`, since usize has no `From<u32>`
        self.value.ilog2() as usize
    }

    // The previous power of two, or `None` at 2.
    pub fn checked_div2(self) -> Option<NonZeroPow2Usize>
        ensures { result ≡ half_bound self }
    {
        let half = self.value / 2;
        if half < 2 {
            return None;
        }
        Some(NonZeroPow2Usize { value: half })
    }
}

// An integer that is known to be a power of two: a bit width.
#[derive(Clone, Copy, PartialEq, Eq, Debug)]
pub struct Pow2Usize {
    value: usize,
    pub ghost admitted: { is_width value ≡ true },
}

impl Pow2Usize {
    ghost use Rattle.num.specs.Powers.{width_of};

    // The bit width n, or `None` where n is no power of two from 1 to 256.
    pub fn new(n: usize) -> Option<Pow2Usize>
        ensures { result ≡ width_of n }
    {
        match n {
            // apart from 2: next to each other the two would be a range, and tests of their own
            1 => Some(Pow2Usize { value: n }),
            2 | 4 | 8 | 16 | 32 | 64 | 128 | 256 => Some(Pow2Usize { value: n }),
            _ => None,
        }
    }

    // The width as a number.
    pub fn get(self) -> usize
        ensures { result ≡ self.value }
    {
        self.value
    }
}
