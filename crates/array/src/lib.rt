// Balanced trees and trees of records, after array.rs.
#![tactic(auto)]

ghost use Rattle.std.specs.Prelude.{◌≡◌, ◌≤◌};
ghost use Rattle.model.specs.Balanced.{btree_split_index};
ghost use Rattle.array.specs.Lefts.{left_sizes};
ghost use Rattle.array.specs.Ends.{tree_end_of};

use lefts::LEFT_SIZES;

mod lefts;

// The table of left sizes: entry n is what the left side of a tree of n parts has, 0 for none and for one.
pub type Lefts = [u16; 1025];

// The table, as it is read where a tree is split.
pub fn left_sizes() -> &'static Lefts
    ensures { result.now ≡ left_sizes }
{
    &LEFT_SIZES
}

// The most parts that the table has a left size for.
const MOST_TABLED: usize = 1024;

// The parts that the left side of a balanced tree of n parts has, n at least 2: up to 1,024 the table's entry, above it n less half the smallest power of two not below n.
pub fn btree_split_index(n: usize) -> usize
    requires { (2 ≤ n) × (n ≤ 65536) }
    ensures { result ≡ btree_split_index n }
{
    if n <= MOST_TABLED {
        return left_sizes()[n] as usize;
    }
    n - n.next_power_of_two() / 2
}

// The records of a shape; a byte above them is none.
// They are bytes and no enum: each is tested once, as it stands in the file, and behind the last record a byte answers that fails every test.
pub const UNIT: u8 = 0;

pub const LEFT: u8 = 1;

pub const RIGHT: u8 = 2;

pub const PAIR: u8 = 3;

// The place after the one tree of shape records that starts at `at`, or `None` where the records end first or one is above 3.
// `due` counts the open children that come after the one being read.
pub fn tree_end(shape: &[u8], at: usize) -> Option<usize>
    ensures { result ≡ tree_end_of shape.now at }
{
    let mut due: usize = 0;
    for i in at..shape.len() {
        let record = shape[i];
        if record == UNIT {
            if due == 0 {
                return Some(i + 1);
            }
            due -= 1;
        } else if record == PAIR {
            due += 1;
        } else if PAIR < record {
            return None;
        }
    }
    None
}
