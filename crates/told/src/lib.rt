// What a checked value file tells (01, 'Value file'; ported from no Rust file), record by record beside its type: the form of a value, for all that is written from it.
// The file was checked before, so nothing is tested again.
#![tactic(auto)]

ghost use Rattle.std.specs.Prelude.{◌≡◌, ◌<◌, length};
ghost use Rattle.told.specs.Forms.{form_of, Read, after_at};
ghost use Rattle.told.specs.Laws.Lists.{block_share};
ghost use Rattle.types.specs.Entries.{ends};

use num::NonZeroPow2Usize;
pub use table::hop;
use types::{Head, Parts, Table};
use value::ValueRecord;

// What a value is. An Either and an Option say their number by the choice, a List and an Enum by the number, which `types::Form` no longer tells apart.
#[derive(Clone, Copy)]
pub enum Form {
    // so many bits of its own record, from this one on
    Bits(usize, usize),
    // a product of so many parts, behind its record
    Product(Parts, usize),
    // of so many choices this one, behind its record
    Sum(usize, usize),
    // a list with the bound and so many elements, behind its record
    List(NonZeroPow2Usize, usize),
    // a Variant's payload of so many parts, which has no record of its own
    Payload(usize),
}

// The form of the value at record v, as one of a type whose record says this.
#[tactic(auto, using(crate::specs::Laws::Arms::uint_fits, crate::specs::Laws::Arms::reads_either, crate::specs::Laws::Arms::reads_option, crate::specs::Laws::Arms::reads_list, crate::specs::Laws::Arms::reads_enum), unfolding(crate::specs::Forms::choice_at))]
pub fn form_of(h: Head, val: &[u8], v: usize) -> Form
    requires { Read h val.now v }
    ensures { result ≡ form_of h val.now v }
{
    match h {
        Head::Missing | Head::Faulty | Head::Never => Form::Product(Parts::Types, 0),
        Head::Boolean => Form::Bits(15, 1),
        Head::UInt(w) => Form::Bits(288 - w.get(), w.get()),
        Head::Either => Form::Sum(2, ValueRecord::new(val, v).choice().into()),
        Head::Opt => Form::List(
            NonZeroPow2Usize::TWO,
            ValueRecord::new(val, v).choice().into(),
        ),
        Head::Tuple(n) => Form::Product(Parts::Types, n),
        Head::Array(n) => Form::Product(Parts::Copies, n),
        Head::Listed(b) => Form::List(b, ValueRecord::new(val, v).number()),
        Head::Variants(n) => Form::Sum(n, ValueRecord::new(val, v).number()),
        Head::Payload(n) => Form::Payload(n),
    }
}

// The record of the part after the one at `at`.
pub fn after_part(table: &Table<'_>, at: usize, parts: Parts) -> usize
    requires { at < length (ends table.now.entries.now) }
    ensures { result ≡ after_at parts (ends table.now.entries.now) at }
{
    match parts {
        Parts::Copies => at,
        Parts::Types => table.end(at),
    }
}

// The elements that the block of `half` takes of m: all that it has place for, or none; no method of a number says this.
pub fn share(m: usize, half: usize) -> usize
    ensures { result ≡ block_share m half }
{
    if m < half { 0 } else { half }
}
