// How what a record says is walked over: the walks over a value, a frame or a shape go by this form, and not by the twelve heads.

ghost use Rattle.std.specs.Prelude.{◌≡◌};
ghost use Rattle.types.specs.Forms.{form_of};

use crate::Head;
use num::NonZeroPow2Usize;

// What the parts of a product are, and where they stand in the type file.
#[derive(Clone, Copy)]
pub enum Parts {
    // the parts of an array or the elements of a list, all of them told by the one type below it
    Copies,
    // the types of a tuple or a Variant, one after the other
    Types,
}

// A bit, an integer of so many bits, a product of so many parts, a sum of so many choices, a list with the bound, or a Variant's payload, which is no record of a value.
#[derive(Clone, Copy)]
pub enum Form {
    // of a Never, and where there is no type
    Nothing,
    Bit,
    Integer(usize),
    Product(Parts, usize),
    Sum(usize),
    List(NonZeroPow2Usize),
    Payload(usize),
}

impl Head {
    // The form of what the record says.
    #[tactic(auto, unfolding(crate::specs::Forms::form_of))]
    pub fn form(self) -> Form
        ensures { result ≡ form_of self }
    {
        match self {
            Head::Missing | Head::Faulty | Head::Never => Form::Nothing,
            Head::Boolean => Form::Bit,
            Head::UInt(w) => Form::Integer(w.get()),
            Head::Either => Form::Sum(2),
            Head::Opt => Form::List(NonZeroPow2Usize::TWO),
            Head::Tuple(n) => Form::Product(Parts::Types, n),
            Head::Array(n) => Form::Product(Parts::Copies, n),
            Head::Listed(b) => Form::List(b),
            Head::Variants(n) => Form::Sum(n),
            Head::Payload(n) => Form::Payload(n),
        }
    }
}
