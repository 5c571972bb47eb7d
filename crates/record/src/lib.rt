// One record of a value file (01, 'Value file'; ported from no Rust file), written: 36 bytes, kind, choice, a number of two bytes, an integer of 32 bytes.
#![tactic(auto)]

ghost use Rattle.std.specs.Prelude.{◌≡◌, ◌<◌, ◌≤◌, length};
ghost use Rattle.types.specs.Heads.{Fair};
ghost use Rattle.model.specs.ValueFiles.{rec};
ghost use Rattle.structural.specs.Writing.{put};
ghost use Rattle.value.specs.Opening.{byte_of};
ghost use Rattle.record.specs.Marks.{mark_of, Marks, bytes};

use types::Head;
use value::{Kind, RECORD};

// Writes a record without an integer. An enum gives its byte by `as` alone.
#[tactic(auto, using(crate::specs::Laws::Heads::head_put))]
fn write_head(out: &mut [u8], kind: Kind, choice: usize, n: usize)
    requires { (36 ≤ length out.old) × (choice < 256) × (n < 65536) }
    ensures { out.new ≡ put (bytes (rec (byte_of kind) choice n 0)) out.old }
{
    let [.., choice] = choice.to_be_bytes();
    let [.., high, low] = n.to_be_bytes();
    out[..RECORD].fill(0);
    out[..4].copy_from_slice(&[kind as u8, choice, high, low]);
}

// Writes the record of a value, its integer 0, by what the type's record says and by the choice or number i that is the value's own; zeros where nothing is a value.
#[tactic(auto, using(crate::specs::Laws::Heads::none_put))]
pub fn write_mark(out: &mut [u8], h: Head, i: usize)
    requires in_bounds { 36 ≤ length out.old }
    requires fair { Fair h × Marks h i }
    ensures { out.new ≡ put (bytes (mark_of h i)) out.old }
{
    match h {
        Head::Missing | Head::Faulty | Head::Never | Head::Payload(_) => out[..RECORD].fill(0),
        Head::Boolean => write_head(out, Kind::Boolean, i, 0),
        Head::UInt(w) => write_head(out, Kind::UInt, 0, w.get()),
        Head::Either => write_head(out, Kind::Either, i, 0),
        Head::Opt => write_head(out, Kind::Opt, i, 0),
        Head::Tuple(n) => write_head(out, Kind::Tuple, 0, n),
        Head::Array(n) => write_head(out, Kind::Array, 0, n),
        Head::Listed(_) => write_head(out, Kind::Listed, 0, i),
        Head::Variants(_) => write_head(out, Kind::Variants, 0, i),
    }
}
