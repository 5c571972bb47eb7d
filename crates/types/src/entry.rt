// What is known of a type record: where its subtree ends, the records of what it lowers to and the bits of its frame; of a Variant, its payload type's.
#[derive(Clone, Copy, PartialEq, Eq, Debug, Default)]
pub struct Entry {
    pub end: usize,
    pub size: usize,
    pub width: usize,
}
