// A type file with its table, as every walk over it is lent them.

ghost use Rattle.std.specs.Prelude.{◌≡◌, ◌<◌, length, get_or};
ghost use Rattle.types.specs.Record.{head_at, rec_at};
ghost use Rattle.types.specs.Heads.{Fair};
ghost use Rattle.types.specs.Entries.{ends, sizes, widths};

use crate::entry::Entry;
use crate::{Head, Rec};

// A type file, and an entry for each of its records.
#[derive(Clone, Copy)]
pub struct Table<'a> {
    pub ty: &'a [u8],
    pub entries: &'a [Entry],
}

impl Table<'_> {
    // What the record at `at` says.
    pub fn head(&self, at: usize) -> Head
        ensures { (result ≡ head_at self.now.ty.now at) × Fair result }
    {
        crate::head_at(self.ty, at)
    }

    // What the record at `at` calls for.
    pub fn rec(&self, at: usize) -> Rec
        ensures { result ≡ rec_at self.now.ty.now at }
    {
        crate::rec_at(self.ty, at)
    }

    // The record after the subtree of the one at `at`.
    #[tactic(auto, using(crate::specs::Entries::ends_length, crate::proofs::Entries::ends_at))]
    pub fn end(&self, at: usize) -> usize
        requires { at < length (ends self.now.entries.now) }
        ensures { result ≡ get_or (ends self.now.entries.now) at 0 }
    {
        self.entries[at].end
    }

    // The records of the lowered type of what stands at `at`.
    #[tactic(auto, using(crate::specs::Entries::sizes_length, crate::proofs::Entries::sizes_at))]
    pub fn size(&self, at: usize) -> usize
        requires { at < length (sizes self.now.entries.now) }
        ensures { result ≡ get_or (sizes self.now.entries.now) at 0 }
    {
        self.entries[at].size
    }

    // The bits of a frame of what stands at `at`.
    #[tactic(auto, using(crate::specs::Entries::widths_length, crate::proofs::Entries::widths_at))]
    pub fn width(&self, at: usize) -> usize
        requires { at < length (widths self.now.entries.now) }
        ensures { result ≡ get_or (widths self.now.entries.now) at 0 }
    {
        self.entries[at].width
    }
}
