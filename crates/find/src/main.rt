// The program `find`: reads day.typ, day.frames, day.path and day.val in the current folder, and prints the index of a frame that matches, that there is none, or the number of the refusal.
#![tactic(auto)]

use finder::find_here;
use std::io;

fn main(rt: HostRuntime) -> io::Result<()> {
    find_here(&rt)
}
