// The table of a type file (01's own, ported from no Rust file), an entry for each record: its end, and its facts, the records of its lowered type and the bits of its frame.
// With it rows 6 and 7 are decided. Sizes and widths are cut at 65,537, one more than a lowered type may have records.
#![tactic(auto)]

ghost use Rattle.std.specs.Prelude.{◌≡◌, ◌||◌, ◌≤◌, ◌<◌, ◌-◌, ◌+◌, ◌*◌, max, length, get_or};
ghost use Rattle.model.specs.Balanced.{btree};
ghost use Rattle.types.specs.Heads.{Fair};
ghost use Rattle.types.specs.Entries.{ends, sizes, widths};
ghost use Rattle.table.specs.Lowering.{is_never};
ghost use Rattle.table.specs.Measuring.{Measurable, Flagged, Measures, Entered};
ghost use Rattle.table.specs.Tabled.{Tabled};
ghost use Rattle.table.specs.Hops.{hops, Hops};
ghost use Rattle.table.specs.Facts.{cut, cut_entry, sums, sum, sum_facts, product, uint_facts, either_facts, option_facts, array_facts, list_facts, facts_of};

use array::btree_split_index;
use num::{NonZeroPow2Usize, Pow2Usize};
use reply::Refusal;
pub use types::RECORDS;
use types::{Entry, Head, Table, check_type, head_at};

// The most records of a lowered type.
const MOST: usize = 65536;

// The records and the bits of what stands at a type record: of a Variant those of its payload type. An entry less its end, which stays as `check_type` put it down.
#[derive(Clone, Copy)]
pub struct Facts {
    pub size: usize,
    pub width: usize,
}

// Does Never stand somewhere, and is something too large?
#[derive(Clone, Copy, PartialEq, Eq, Debug)]
pub struct Flags {
    pub never: bool,
    pub large: bool,
}

// The facts of a unit.
const UNIT: Facts = Facts { size: 1, width: 0 };

// A number, or 65,537 if it is larger.
pub fn cut_off(n: usize) -> usize
    ensures { result ≡ cut n }
{
    n.min(MOST + 1)
}

// Where record i ends, and its facts, cut; the default entry's past the table's end, which is read of no file that is accepted.
fn entry_at(entries: &[Entry], i: usize) -> (usize, Facts)
    ensures { result ≡ (get_or (ends entries.now) i 0, cut_entry (sizes entries.now) (widths entries.now) i) }
{
    let e = entries.get(i).copied().unwrap_or_default();
    let size = cut_off(e.size);
    let width = cut_off(e.width);
    (e.end, Facts { size, width })
}

// The sizes and the widths of n records one after the other, from p on, added up.
// Also where there are none, which have no balanced tree: so a tuple's are not added up as an Enum's are.
#[tactic(auto, using(crate::specs::Steps::summing_next, crate::specs::Steps::summing_end))]
fn sum_entries(entries: &[Entry], p: usize, n: usize) -> Facts
    ensures { result ≡ sums (ends entries.now) (sizes entries.now) (widths entries.now) n p 0 0 }
{
    let mut size: usize = 0;
    let mut width: usize = 0;
    let mut q = p;
    for _ in 0..n {
        let (next, e) = entry_at(entries, q);
        size = cut_off(size + e.size);
        width = cut_off(width + e.width);
        q = next;
    }
    Facts { size, width }
}

// The facts of a sum of two.
fn sum_of(a: Facts, b: Facts) -> Facts
    requires { ((a.size ≤ 65537) × (a.width ≤ 65537)) × ((b.size ≤ 65537) × (b.width ≤ 65537)) }
    ensures { result ≡ sum a b }
{
    Facts {
        size: cut_off(a.size + b.size + 1),
        width: cut_off(a.width.max(b.width) + 1),
    }
}

// The place after the n records from p on, and the facts of the balanced sum of what they hold.
#[tactic(auto, using(crate::specs::Steps::sum_one, crate::specs::Steps::sum_fork))]
fn sum_facts(entries: &[Entry], p: usize, n: usize) -> (usize, Facts)
    requires { (1 ≤ n) × (n ≤ 65536) }
    ensures { result ≡ sum_facts (btree n) (ends entries.now) (sizes entries.now) (widths entries.now) p }
{
    if n == 1 {
        return entry_at(entries, p);
    }
    let h = btree_split_index(n);
    let (q, l) = sum_facts(entries, p, h);
    let (next, r) = sum_facts(entries, q, n - h);
    (next, sum_of(l, r))
}

// The facts of a product of n parts whose entries add up to f.
#[tactic(auto, unfolding(crate::specs::Facts::product))]
fn product_facts(f: Facts, n: usize) -> Facts
    requires { (f.size ≤ 65537) × (n < 65536) }
    ensures { result ≡ product f n }
{
    if n == 0 {
        UNIT
    } else {
        Facts {
            size: cut_off(f.size + (n - 1)),
            ..f
        }
    }
}

// The facts of an integer of w bits: a product of w bits.
#[tactic(auto, using(types::specs::Heads::admitted_width))]
fn uint_facts(w: Pow2Usize) -> Facts
    ensures { result ≡ uint_facts w.value }
{
    let n = w.get();
    Facts {
        size: 4 * n - 1,
        width: n,
    }
}

// The facts of an Either whose two types stand from p on.
fn either_facts(entries: &[Entry], p: usize) -> Facts
    ensures { result ≡ either_facts (ends entries.now) (sizes entries.now) (widths entries.now) p }
{
    let (q, a) = entry_at(entries, p);
    let (_, b) = entry_at(entries, q);
    sum_of(a, b)
}

// The facts of an Option whose type stands at p.
fn option_facts(entries: &[Entry], p: usize) -> Facts
    ensures { result ≡ option_facts (sizes entries.now) (widths entries.now) p }
{
    sum_of(UNIT, entry_at(entries, p).1)
}

// The facts of an Array of n whose type stands at p.
fn array_facts(entries: &[Entry], n: usize, p: usize) -> Facts
    requires { n < 65536 }
    ensures { result ≡ array_facts (sizes entries.now) (widths entries.now) n p }
{
    let (_, e) = entry_at(entries, p);
    let size = cut_off(n * e.size);
    let width = cut_off(n * e.width);
    product_facts(Facts { size, width }, n)
}

// The facts of a List with the bound b whose type stands at p: b - 1 elements, as many blocks as b has bits less one.
#[tactic(auto, using(types::specs::Heads::admitted_bound, types::specs::Heads::admitted_log))]
fn list_facts(entries: &[Entry], b: NonZeroPow2Usize, p: usize) -> Facts
    ensures { result ≡ list_facts (sizes entries.now) (widths entries.now) b.value p }
{
    let m = b.get() - 1;
    let l = b.log2();
    let (_, e) = entry_at(entries, p);
    Facts {
        size: cut_off(cut_off(m * e.size) + (m + 2 * l - 1)),
        width: cut_off(cut_off(m * e.width) + l),
    }
}

// The facts of a record that says this, from the entries of its children, the first of which stands at p; those of a unit where there is no type.
#[tactic(auto, unfolding(crate::specs::Facts::facts_of))]
fn facts_of(h: Head, entries: &[Entry], p: usize) -> Facts
    requires { Fair h }
    ensures { result ≡ facts_of h (ends entries.now) (sizes entries.now) (widths entries.now) p }
{
    match h {
        Head::Missing | Head::Faulty | Head::Never => UNIT,
        Head::Boolean => Facts { size: 3, width: 1 },
        Head::UInt(w) => uint_facts(w),
        Head::Either => either_facts(entries, p),
        Head::Opt => option_facts(entries, p),
        Head::Tuple(n) | Head::Payload(n) => product_facts(sum_entries(entries, p, n), n),
        Head::Array(n) => array_facts(entries, n, p),
        Head::Listed(b) => list_facts(entries, b, p),
        Head::Variants(n) => sum_facts(entries, p, n).1,
    }
}

// Puts down the facts of record i, which says this, by those of the records behind it; its size.
fn enter(h: Head, entries: &mut [Entry], i: usize) -> usize
    requires { Fair h × (i < length entries.old) }
    ensures kept { ends entries.new ≡ ends entries.old }
    ensures entered { Entered h (ends entries.old) i (sizes entries.old) (widths entries.old) result (sizes entries.new) (widths entries.new) }
{
    let Facts { size, width } = facts_of(h, entries, i + 1);
    entries[i] = Entry {
        size,
        width,
        ..entries[i]
    };
    size
}

// Puts down the facts of an accepted type file of n records, each once, and tells whether a Never stands somewhere and whether something is too large.
pub fn enter_all(ty: &[u8], entries: &mut [Entry], n: usize) -> Flags
    requires { Measurable ty.now (ends entries.old) (sizes entries.old) (widths entries.old) n }
    ensures kept { ends entries.new ≡ ends entries.old }
    ensures flagged { Flagged ty.now result (sizes entries.new) (widths entries.new) }
{
    let mut never = false;
    let mut large = false;
    for i in (0..n).rev() {
        let h = head_at(ty, i);
        never |= matches!(h, Head::Never);
        large |= MOST < enter(h, entries, i);
    }
    Flags { never, large }
}

// Rows 6 and 7 of an accepted type file of n records, whose facts are put down, each once.
pub fn measure(ty: &[u8], entries: &mut [Entry], n: usize) -> Result<(), Refusal>
    requires { Measurable ty.now (ends entries.old) (sizes entries.old) (widths entries.old) n }
    ensures kept { ends entries.new ≡ ends entries.old }
    ensures measures { Measures ty.now result (sizes entries.new) (widths entries.new) }
{
    let Flags { never, large } = enter_all(ty, entries, n);
    if never {
        return Err(Refusal::NeverStands);
    }
    if large {
        return Err(Refusal::TooLarge);
    }
    Ok(())
}

// Rows 1 to 7: how many records a type file that lowers has, or why it is refused; where it is accepted, the entries of its records are put down.
pub fn tabulate(ty: &[u8], entries: &mut [Entry]) -> Result<usize, Refusal>
    requires { 1024 ≤ length entries.old }
    ensures { Tabled ty.now result (ends entries.new) (sizes entries.new) (widths entries.new) }
{
    let n = check_type(ty, entries)?;
    measure(ty, entries, n)?;
    Ok(n)
}

// The record that stands n records behind record `at`, each with all below it.
#[tactic(auto, using(crate::specs::Hops::hops_start, crate::specs::Hops::hops_done, crate::specs::Hops::hops_left))]
pub fn hop(table: &Table<'_>, at: usize, n: usize) -> usize
    requires { Hops (ends table.now.entries.now) n at }
    ensures { result ≡ hops (ends table.now.entries.now) n at }
{
    let mut next = at;
    for _ in 0..n {
        next = table.end(next);
    }
    next
}
