// Value files against a type, after value.rs, whose makers of values refuse what rows 16, 21 and 22 refuse here. Both are walked in lock step: where the value ends and how many records its shape has, or the fault that comes first.
// Shape lengths are cut at 65,537, one more than a shape may have records.
#![tactic(auto)]

ghost use Rattle.std.specs.Prelude.{get_or, ◌≡◌, true, false, ◌≤◌, ◌<◌, ◌+◌, ◌*◌, ◌/◌, ◌^◌, length};
ghost use Rattle.model.specs.Balanced.{btree};
ghost use Rattle.types.specs.Entries.{ends};
ghost use Rattle.types.specs.Heads.{Fair};
ghost use Rattle.types.specs.Steps.{Given, GivenRow};
ghost use Rattle.types.specs.Trees.{tree, treev, kids};
ghost use Rattle.types.specs.Walks.{walk};
ghost use Rattle.value.specs.Record.{starts, number_at, below, clear, choice_at, count_at};
ghost use Rattle.value.specs.Below.{Bytes};
ghost use Rattle.value.specs.Lengths.{add, joints, blocks, tags};
ghost use Rattle.value.specs.Opening.{byte_of, by_choice, counted, uint_opens, list_opens, enum_opens, opens_of};
ghost use Rattle.value.specs.Check.{check, parts, run, file_answer};
ghost use Rattle.value.specs.Steps.{GivenIf};

use array::btree_split_index;
use num::{NonZeroPow2Usize, Pow2Usize};
use reply::Refusal;
use table::{cut_off, hop};
use types::{Head, LEVELS, Rec, Table};

// The bytes of a record of a value file.
pub const RECORD: usize = 36;

// The kind of a record, as the file's first byte says it; `as` is the one way from it to the byte that needs no second list of the numbers.
#[derive(Clone, Copy)]
pub enum Kind {
    Boolean = 1,
    UInt = 2,
    Either = 3,
    Opt = 4,
    Tuple = 5,
    Array = 6,
    Listed = 7,
    Variants = 8,
}

// What a record of a value file calls for; `own` is how many records of the shape are its own.
#[derive(Clone, Copy)]
enum Opens {
    // so many values of the type's child
    Run {
        child: usize,
        count: usize,
        own: usize,
    },
    // so many parts
    Parts(usize),
    // the payload of the Variant
    Case {
        variant: usize,
        own: usize,
    },
}

// No value behind the record, which has two records of the shape; or one, of the type's first or second child, behind one record of the shape.
const NO_CHILD: Opens = Opens::Run {
    child: 0,
    count: 0,
    own: 2,
};

const FIRST_CHILD: Opens = Opens::Run {
    child: 0,
    count: 1,
    own: 1,
};

const SECOND_CHILD: Opens = Opens::Run {
    child: 1,
    count: 1,
    own: 1,
};

// The sum of two lengths, cut.
#[tactic(auto, unfolding(crate::specs::Lengths::add))]
fn sum(k: usize, n: usize) -> usize
    ensures { result ≡ add k n }
{
    cut_off(cut_off(k) + cut_off(n))
}

// The records that join n parts to one: pairs, or the unit where there are none.
#[tactic(auto, unfolding(crate::specs::Lengths::joints))]
fn joints_of(n: usize) -> usize
    ensures { result ≡ joints n }
{
    if n == 0 { 1 } else { n - 1 }
}

// The own records of a list of m elements in blocks of up to 2 ^ e, added to k.
#[tactic(auto, using(crate::specs::Arms::blocks_step), unfolding(crate::specs::Lengths::blocks))]
fn list_blocks(e: usize, m: usize, k: usize) -> usize
    requires { e ≤ 16 }
    ensures { result ≡ blocks e m k }
{
    if e == 0 {
        return sum(k, if m == 0 { 2 } else { 1 });
    }
    let block = 1 << e;
    if m < block {
        return list_blocks(e - 1, m, sum(k, 3));
    }
    list_blocks(e - 1, m - block, sum(k, block + 1))
}

// The tags that lead to leaf i of n, added to k.
#[tactic(auto, using(crate::specs::Arms::tags_none, crate::specs::Arms::tags_less, crate::specs::Arms::tags_more, model::proofs::Laws::Balanced::split_bounds))]
fn enum_tags(n: usize, i: usize, k: usize) -> usize
    requires { n ≤ 65536 }
    ensures { result ≡ tags (btree n) i k }
{
    if n < 2 {
        return k;
    }
    let h = btree_split_index(n);
    if i < h {
        return enum_tags(h, i, sum(k, 1));
    }
    enum_tags(n - h, i - h, sum(k, 1))
}

// Are the n bytes from place b on zero?
#[tactic(auto, using(crate::specs::Clear::clear_joined), unfolding(crate::specs::Record::clear))]
fn is_clear(val: &[u8], b: usize, n: usize) -> bool
    requires { b + n ≤ length val.now }
    ensures { result ≡ clear val.now b n }
{
    let mut any: u8 = 0;
    for x in &val[b..b + n] {
        any |= *x;
    }
    any == 0
}

// Record v of a value file, which is there.
#[derive(Clone, Copy)]
pub struct ValueRecord<'a> {
    val: &'a [u8],
    v: usize,
    ghost there: { v < length val.now / 36 },
    // what the check knows of a slice that is lent, but not of one in a struct
    ghost bytes: { Bytes val.now },
}

impl<'a> ValueRecord<'a> {
    // Record v of the file.
    pub fn new(val: &'a [u8], v: usize) -> ValueRecord<'a>
        requires { v < length val.now / 36 }
        ensures { (result.val.now ≡ val.now) × (result.v ≡ v) }
    {
        ValueRecord { val, v }
    }

    // Its choice, byte 1.
    pub fn choice(&self) -> u8
        ensures { result ≡ get_or self.now.val.now (self.now.v * 36 + 1) 0 }
    {
        self.val[self.v * RECORD + 1]
    }

    // Its number, bytes 2 and 3.
    #[tactic(auto, unfolding(crate::specs::Record::number_at))]
    pub fn number(&self) -> usize
        ensures { result ≡ number_at self.now.val.now self.now.v }
    {
        let b = self.v * RECORD;
        usize::from(u16::from_be_bytes([self.val[b + 2], self.val[b + 3]]))
    }

    // Is it of this kind and choice?
    #[tactic(auto, unfolding(crate::specs::Record::starts))]
    fn starts_with(&self, kind: Kind, choice: u8) -> bool
        ensures { result ≡ starts self.now.val.now self.now.v (byte_of kind) choice }
    {
        self.val[self.v * RECORD] == kind as u8 && self.choice() == choice
    }

    // Are the first n bytes of its integer zero? Runs of a fixed length are the quickest to look at, and two that overlap are as good as one.
    #[tactic(auto, using(crate::specs::Clear::clear_long))]
    fn lead_is_clear(&self, n: usize) -> bool
        requires { n ≤ 32 }
        ensures { result ≡ clear self.now.val.now (self.now.v * 36 + 4) n }
    {
        let b = self.v * RECORD + 4;
        if n < 16 {
            return is_clear(self.val, b, n);
        }
        is_clear(self.val, b, 16) && is_clear(self.val, b + (n - 16), 16)
    }

    // Is its integer below 2 ^ w?
    #[tactic(auto, using(crate::specs::Below::below_lead))]
    fn is_below(&self, w: usize) -> bool
        requires { w ≤ 256 }
        ensures { result ≡ below self.now.val.now self.now.v w }
    {
        let lead = 32 - w.div_ceil(8);
        let r = w % 8;
        self.lead_is_clear(lead)
            && (r == 0 || usize::from(self.val[self.v * RECORD + 4 + lead]) < 1 << r)
    }

    // Is its integer zero?
    #[tactic(auto, using(crate::specs::Below::below_zero))]
    fn is_zero(&self) -> bool
        ensures { result ≡ below self.now.val.now self.now.v 0 }
    {
        is_clear(self.val, self.v * RECORD + 4, 32)
    }

    // Its choice, if it is of this kind and all else in it is zero.
    #[tactic(auto, unfolding(crate::specs::Record::choice_at, crate::specs::Record::starts))]
    fn choice_of(&self, kind: Kind) -> Option<bool>
        ensures { result ≡ choice_at self.now.val.now self.now.v (byte_of kind) }
    {
        let one = self.starts_with(kind, 1);
        let told = one || self.starts_with(kind, 0);
        (told && self.number() == 0 && self.is_zero()).then_some(one)
    }

    // Its number, if it is of this kind and all else in it is zero.
    #[tactic(auto, unfolding(crate::specs::Record::count_at, crate::specs::Record::starts))]
    fn count_of(&self, kind: Kind) -> Option<usize>
        ensures { result ≡ count_at self.now.val.now self.now.v (byte_of kind) }
    {
        (self.starts_with(kind, 0) && self.is_zero()).then_some(self.number())
    }

    // A UInt of w bits: a product of w bits, each of two records. An integer too large for them is refused last.
    #[tactic(auto, using(types::specs::Heads::width_range), unfolding(crate::specs::Opening::uint_opens, crate::specs::Record::starts, crate::specs::Lengths::joints))]
    fn open_uint(&self, w: Pow2Usize) -> Result<Opens, Refusal>
        ensures { result ≡ uint_opens w.value self.now.val.now self.now.v }
    {
        let n = w.get();
        if !self.starts_with(Kind::UInt, 0) || self.number() != n {
            return Err(Refusal::NotOneValue);
        }
        if !self.is_below(n) {
            return Err(Refusal::IntegerTooLarge);
        }
        Ok(Opens::Run {
            child: 0,
            count: 0,
            own: joints_of(n) + 2 * n,
        })
    }

    // What it calls for as a value of a type whose record says this.
    #[tactic(auto, unfolding(crate::specs::Opening::opens_of))]
    fn open(&self, h: Head) -> Result<Opens, Refusal>
        requires { Fair h }
        ensures { result ≡ opens_of h self.now.val.now self.now.v }
    {
        match h {
            Head::Missing | Head::Faulty | Head::Never | Head::Payload(_) => {
                Err(Refusal::NotOneValue)
            }
            Head::Boolean => on_choice(self.choice_of(Kind::Boolean), NO_CHILD, NO_CHILD),
            Head::UInt(w) => self.open_uint(w),
            Head::Either => on_choice(self.choice_of(Kind::Either), FIRST_CHILD, SECOND_CHILD),
            Head::Opt => on_choice(self.choice_of(Kind::Opt), NO_CHILD, FIRST_CHILD),
            Head::Tuple(n) => on_count(self.count_of(Kind::Tuple), n, Opens::Parts(n)),
            Head::Array(n) => on_count(
                self.count_of(Kind::Array),
                n,
                Opens::Run {
                    child: 0,
                    count: n,
                    own: joints_of(n),
                },
            ),
            Head::Listed(b) => open_list(self.count_of(Kind::Listed), b),
            Head::Variants(n) => open_enum(self.count_of(Kind::Variants), n),
        }
    }
}

// What is called for on this choice; `NotOneValue` refuses where there is none.
#[tactic(auto, unfolding(crate::specs::Opening::by_choice))]
fn on_choice(c: Option<bool>, zero: Opens, one: Opens) -> Result<Opens, Refusal>
    ensures { result ≡ by_choice c zero one }
{
    if c.ok_or(Refusal::NotOneValue)? {
        Ok(one)
    } else {
        Ok(zero)
    }
}

// What is called for if the number is n; `NotOneValue` refuses where it is not.
// A List and an Enum have functions of their own: no two of the three have limit, test and refusal in common, and what they share is the `match`.
#[tactic(auto, unfolding(crate::specs::Opening::counted))]
fn on_count(c: Option<usize>, n: usize, o: Opens) -> Result<Opens, Refusal>
    ensures { result ≡ counted c n o }
{
    match c {
        Some(m) if m == n => Ok(o),
        _ => Err(Refusal::NotOneValue),
    }
}

// A List with the bound b whose record says this number. One at or above the bound is refused last.
#[tactic(auto, using(types::specs::Heads::admitted_log), unfolding(crate::specs::Opening::list_opens))]
fn open_list(c: Option<usize>, b: NonZeroPow2Usize) -> Result<Opens, Refusal>
    ensures { result ≡ list_opens c b.value }
{
    let m = c.ok_or(Refusal::NotOneValue)?;
    if m < b.get() {
        Ok(Opens::Run {
            child: 0,
            count: m,
            own: list_blocks(b.log2() - 1, m, 0),
        })
    } else {
        Err(Refusal::ListTooLong)
    }
}

// An Enum of n Variants whose record says this number.
#[tactic(auto, unfolding(crate::specs::Opening::enum_opens))]
fn open_enum(c: Option<usize>, n: usize) -> Result<Opens, Refusal>
    requires { n ≤ 65536 }
    ensures { result ≡ enum_opens c n }
{
    match c {
        Some(i) if i < n => Ok(Opens::Case {
            variant: i,
            own: enum_tags(n, i, 0),
        }),
        _ => Err(Refusal::NotOneValue),
    }
}

// What record v calls for as a value of a type whose record says this; `NotOneValue` refuses where there is none.
#[tactic(auto, using(crate::specs::Arms::opens_past))]
fn open_record(h: Head, val: &[u8], v: usize) -> Result<Opens, Refusal>
    requires { Fair h }
    ensures { result ≡ opens_of h val.now v }
{
    if v < val.len() / RECORD {
        ValueRecord::new(val, v).open(h)
    } else {
        Err(Refusal::NotOneValue)
    }
}

// A value file, and the type file that it is read by, with its table.
#[derive(Clone, Copy)]
struct Files<'a> {
    table: Table<'a>,
    val: &'a [u8],
    // what the check knows of a slice that is lent, but not of one in a struct inside another
    ghost small: { length table.ty.now < 2 ^ 64 },
}

impl Files<'_> {
    // Where the value that starts at record v ends, of the type at place `at` with `level` levels; `shape` records of the shape stand before it.
    #[tactic(auto, using(crate::specs::Follow::run_is, crate::specs::Follow::parts_is, crate::specs::Follow::case_is))]
    #[cycle(check)]
    fn check_value(
        &self,
        at: usize,
        level: usize,
        v: usize,
        shape: usize,
    ) -> Result<(usize, usize), Refusal>
        requires { Given level false self.now.table.ty.now (ends self.now.table.entries.now) at }
        ensures { result ≡ check (tree level self.now.table.ty.now at) self.now.val.now v shape }
    {
        let opens = open_record(self.table.head(at), self.val, v)?;
        let (at, level, v) = (at + 1, level - 1, v + 1);
        match opens {
            Opens::Run { child, count, own } => {
                let child = hop(&self.table, at, child);
                self.check_run(child, level, count, v, sum(shape, own))
            }
            Opens::Parts(n) => self.check_parts(at, level, n, v, shape),
            Opens::Case { variant, own } => {
                let variant = hop(&self.table, at, variant);
                self.check_payload(variant, level, v, sum(shape, own))
            }
        }
    }

    // n values of the type at place `at`, from record v on.
    #[tactic(auto, using(crate::specs::Steps::given_if, crate::specs::Steps::run_step, crate::specs::Steps::run_done), unfolding(crate::specs::Check::next))]
    #[cycle(check)]
    fn check_run(
        &self,
        at: usize,
        level: usize,
        n: usize,
        v: usize,
        shape: usize,
    ) -> Result<(usize, usize), Refusal>
        requires { GivenIf n level self.now.table.ty.now (ends self.now.table.entries.now) at }
        ensures { result ≡ run (check (tree level self.now.table.ty.now at) self.now.val.now) n v shape }
    {
        let mut e = v;
        let mut size = shape;
        for _ in 0..n {
            (e, size) = self.check_value(at, level, e, size)?;
        }
        Ok((e, size))
    }

    // A tuple's n parts, of the types from place `at` on, from record v on.
    // Each step goes to the next type, where a run stays: the row of types and the one type are promised by two definitions, `parts` and `run`.
    #[tactic(auto, using(crate::specs::Steps::given_next, crate::specs::Steps::given_left, crate::specs::Steps::kids_step, crate::specs::Steps::kids_done, types::specs::Steps::size_kids), unfolding(crate::specs::Check::parts, crate::specs::Check::checks, crate::specs::Check::next))]
    #[cycle(check)]
    fn check_parts(
        &self,
        at: usize,
        level: usize,
        n: usize,
        v: usize,
        shape: usize,
    ) -> Result<(usize, usize), Refusal>
        requires { GivenRow level false self.now.table.ty.now (ends self.now.table.entries.now) n at }
        ensures { result ≡ parts (kids (tree level self.now.table.ty.now) (walk level false self.now.table.ty.now) n at) self.now.val.now v shape }
    {
        let mut p = at;
        let mut e = v;
        let mut size = sum(shape, joints_of(n));
        for _ in 0..n {
            (e, size) = self.check_value(p, level, e, size)?;
            p = self.table.end(p);
        }
        Ok((e, size))
    }

    // The payload of the Variant at place `at`, from record v on.
    #[tactic(auto, using(crate::specs::Steps::payload_is))]
    #[cycle(check)]
    fn check_payload(
        &self,
        at: usize,
        level: usize,
        v: usize,
        shape: usize,
    ) -> Result<(usize, usize), Refusal>
        requires { Given level true self.now.table.ty.now (ends self.now.table.entries.now) at }
        ensures { result ≡ parts (treev level self.now.table.ty.now at) self.now.val.now v shape }
    {
        let Rec::Variant(n) = self.table.rec(at) else {
            unreachable!()
        };
        self.check_parts(at + 1, level - 1, n, v, shape)
    }
}

// Rows 15, 16, 21 and 22 of a value file as one of the type at place `at`, with `level` levels from there on: how many records it has and how many its shape, or the fault that comes first.
#[tactic(auto, unfolding(crate::specs::Check::file_answer, crate::specs::Check::whole))]
pub fn check_part(
    table: &Table<'_>,
    at: usize,
    level: usize,
    val: &[u8],
) -> Result<(usize, usize), Refusal>
    requires { Given level false table.now.ty.now (ends table.now.entries.now) at }
    ensures { result ≡ file_answer (tree level table.now.ty.now at) val.now }
{
    let n = val.len();
    if n == 0 || n % RECORD != 0 {
        return Err(Refusal::ValueLength);
    }
    let files = Files { table: *table, val };
    let (e, size) = files.check_value(at, level, 0, 0)?;
    if e == n / RECORD {
        Ok((e, size))
    } else {
        Err(Refusal::NotOneValue)
    }
}

// Of a whole value file of an accepted type.
pub fn check_file(table: &Table<'_>, val: &[u8]) -> Result<(usize, usize), Refusal>
    requires { Given 32 false table.now.ty.now (ends table.now.entries.now) 0 }
    ensures { result ≡ file_answer (tree 32 table.now.ty.now 0) val.now }
{
    check_part(table, 0, LEVELS, val)
}
