// Why an operation is refused: one refusal for each row of the table (01, with 02's numbers), in its order. An operation answers a `Result`: what it makes or tells, or its refusal.
#![tactic(auto)]

ghost use Rattle.std.specs.Prelude.{◌≡◌};
ghost use Rattle.reply.specs.Numbers.{refusal_number, number_of};

// Each with the table's number.
#[derive(Clone, Copy, PartialEq, Eq, Debug)]
pub enum Refusal {
    TypeLength = 1,
    TypeTooLong = 2,
    BadRecord = 3,
    TooDeep = 4,
    NotOneType = 5,
    NeverStands = 6,
    TooLarge = 7,
    ShapeTooLong = 8,
    NotOneTree = 9,
    NotReconstructed = 10,
    NoUnit = 20,
    FrameLength = 11,
    StrayBit = 12,
    NoBytes = 18,
    DayLength = 19,
    PathOdd = 13,
    NoSuchPart = 14,
    ValueLength = 15,
    NotOneValue = 16,
    IntegerTooLarge = 21,
    ListTooLong = 22,
    NoRoom = 17,
}

impl From<Refusal> for u32 {
    ghost from_gives = { λ x n. n ≡ refusal_number x };

    fn from(x: Refusal) -> u32 {
        x as u32
    }
}

// The number of an answer: 0 where the operation is accepted.
pub fn number<T: Drop>(answer: Result<T, Refusal>) -> u32
    ensures { result ≡ number_of answer }
{
    match answer {
        Ok(_) => 0,
        Err(x) => u32::from(x),
    }
}

// The room that a type takes: the records of its lowered type, the bits of a frame, and the most records of a shape.
#[derive(Clone, Copy, PartialEq, Eq, Debug, Default)]
pub struct TypeRoom {
    pub lowered: usize,
    pub bits: usize,
    pub shape: usize,
}
