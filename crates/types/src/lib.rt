// Type files, after types/inner.rs and types/resolved.rs: what each record says, and one pass over the file that finds the first row of 1 to 5 that holds
// and where the subtree of each record ends.
#![tactic(auto)]

ghost use Rattle.std.specs.Prelude.{◌≡◌, true, false, ◌≤◌, ◌<◌, ◌/◌, length};
ghost use Rattle.num.specs.Powers.{bound_of, width_of};
ghost use Rattle.types.specs.Record.{by_width, by_bound, head_of, head_at, calls_for, rec_at};
ghost use Rattle.types.specs.Heads.{Fair};
ghost use Rattle.types.specs.Walks.{children_of, walk};
ghost use Rattle.types.specs.Table.{Walked, Checked};
ghost use Rattle.types.specs.Entries.{ends, sizes, widths};

pub use entry::Entry;
pub use forms::{Form, Parts};
use num::{NonZeroPow2Usize, Pow2Usize};
pub use places::Table;
use reply::Refusal;

mod entry;
mod forms;
mod places;

// The most records that a type file has, and the most levels of a type.
pub const RECORDS: usize = 1024;

pub const LEVELS: usize = 32;

// What a record says.
#[derive(Clone, Copy, PartialEq, Eq, Debug)]
pub enum Head {
    Missing,
    Faulty,
    Never,
    Boolean,
    UInt(Pow2Usize),
    Either,
    Opt,
    Tuple(usize),
    Array(usize),
    Listed(NonZeroPow2Usize),
    Variants(usize),
    Payload(usize),
}

// What a record calls for.
#[derive(Clone, Copy, PartialEq, Eq, Debug)]
pub enum Rec {
    Gone,
    Wrong,
    Types(usize),
    Enum(usize),
    Variant(usize),
}

// A UInt of n bits, `Faulty` where that is no width.
fn uint_head(n: usize) -> Head
    ensures { result ≡ by_width (width_of n) }
{
    Pow2Usize::new(n).map_or(Head::Faulty, Head::UInt)
}

// A List with the bound n, `Faulty` where that is no bound; a line of its own beside `uint_head`, as the two numbers are of two types.
fn list_head(n: usize) -> Head
    ensures { result ≡ by_bound (bound_of n) }
{
    NonZeroPow2Usize::new(n).map_or(Head::Faulty, Head::Listed)
}

// What a record of this kind, second byte and number says. The kinds' numbers are the file's, and are read here alone.
#[tactic(auto, unfolding(crate::specs::Record::head_of))]
fn head_of(kind: u8, zero: u8, n: usize) -> Head
    ensures { result ≡ head_of kind zero n }
{
    if zero != 0 {
        return Head::Faulty;
    }
    match (kind, n) {
        (0, 0) => Head::Never,
        (1, 0) => Head::Boolean,
        (2, _) => uint_head(n),
        (3, 0) => Head::Either,
        (4, 0) => Head::Opt,
        (5, _) => Head::Tuple(n),
        (6, _) => Head::Array(n),
        (7, _) => list_head(n),
        (8, 1..) => Head::Variants(n),
        (9, _) => Head::Payload(n),
        _ => Head::Faulty,
    }
}

// The record at place `at` of a file of whole records.
#[tactic(auto, unfolding(crate::specs::Record::head_at))]
pub fn head_at(ty: &[u8], at: usize) -> Head
    ensures { (result ≡ head_at ty.now at) × Fair result }
{
    if at < ty.len() / 4 {
        let b = at * 4;
        let n = u16::from_be_bytes([ty[b + 2], ty[b + 3]]);
        head_of(ty[b], ty[b + 1], usize::from(n))
    } else {
        Head::Missing
    }
}

// Which children a record calls for.
fn calls_for(h: Head) -> Rec
    ensures { result ≡ calls_for h }
{
    match h {
        Head::Missing => Rec::Gone,
        Head::Faulty => Rec::Wrong,
        Head::Never | Head::Boolean | Head::UInt(_) => Rec::Types(0),
        Head::Either => Rec::Types(2),
        Head::Opt | Head::Array(_) | Head::Listed(_) => Rec::Types(1),
        Head::Tuple(n) => Rec::Types(n),
        Head::Variants(n) => Rec::Enum(n),
        Head::Payload(n) => Rec::Variant(n),
    }
}

// What the record at place `at` calls for.
#[tactic(auto, unfolding(crate::specs::Record::rec_at))]
pub fn rec_at(ty: &[u8], at: usize) -> Rec
    ensures { result ≡ rec_at ty.now at }
{
    calls_for(head_at(ty, at))
}

// What a record calls for where a type belongs, or where `is_variant` a Variant: whether Variants, and how many.
fn children(r: Rec, is_variant: bool) -> Result<(bool, usize), Refusal>
    ensures { result ≡ children_of is_variant r }
{
    match (is_variant, r) {
        (_, Rec::Gone) => Err(Refusal::NotOneType),
        (false, Rec::Types(n)) => Ok((false, n)),
        (false, Rec::Enum(n)) => Ok((true, n)),
        (true, Rec::Variant(n)) => Ok((false, n)),
        _ => Err(Refusal::BadRecord),
    }
}

// The type at place `at`, with `depth` levels left: where its subtree ends.
// It and `walk_variant` are twins, so that the compiler puts a Variant into the loop over an Enum's: as one function, which is called for each, 1,023 of them took 1.7 times the instructions.
#[cycle(walks)]
fn walk_type(ty: &[u8], entries: &mut [Entry], at: usize, depth: usize) -> Result<usize, Refusal>
    requires { length ty.now / 4 ≤ length entries.old }
    ensures walked { Walked (walk depth false ty.now at) ty.now at result (ends entries.old) (ends entries.new) }
    ensures kept { (sizes entries.new ≡ sizes entries.old) × (widths entries.new ≡ widths entries.old) }
{
    let (are_variants, n) = children(rec_at(ty, at), false)?;
    if depth == 0 {
        return Err(Refusal::TooDeep);
    }
    let mut end = at + 1;
    for _ in 0..n {
        end = if are_variants {
            walk_variant(ty, entries, end, depth - 1)?
        } else {
            walk_type(ty, entries, end, depth - 1)?
        };
    }
    entries[at].end = end;
    Ok(end)
}

// The same of a Variant, whose parts are types.
#[cycle(walks)]
fn walk_variant(ty: &[u8], entries: &mut [Entry], at: usize, depth: usize) -> Result<usize, Refusal>
    requires { length ty.now / 4 ≤ length entries.old }
    ensures walked { Walked (walk depth true ty.now at) ty.now at result (ends entries.old) (ends entries.new) }
    ensures kept { (sizes entries.new ≡ sizes entries.old) × (widths entries.new ≡ widths entries.old) }
{
    let (_, n) = children(rec_at(ty, at), true)?;
    if depth == 0 {
        return Err(Refusal::TooDeep);
    }
    let mut next = at + 1;
    for _ in 0..n {
        next = walk_type(ty, entries, next, depth - 1)?;
    }
    entries[at].end = next;
    Ok(next)
}

// Rows 1 to 5 of a type file, and where each record's subtree ends.
#[tactic(auto, unfolding(crate::specs::Table::type_answer))]
pub fn check_type(ty: &[u8], entries: &mut [Entry]) -> Result<usize, Refusal>
    requires { 1024 ≤ length entries.old }
    ensures checked { Checked ty.now result (ends entries.new) }
    ensures kept { (sizes entries.new ≡ sizes entries.old) × (widths entries.new ≡ widths entries.old) }
{
    let n = ty.len();
    if n == 0 || n % 4 != 0 {
        return Err(Refusal::TypeLength);
    }
    let records = n / 4;
    if records > RECORDS {
        return Err(Refusal::TypeTooLong);
    }
    if walk_type(ty, entries, 0, LEVELS)? != records {
        return Err(Refusal::NotOneType);
    }
    Ok(records)
}
