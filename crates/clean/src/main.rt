// The program `clean`: reads old.typ and old.shape in the current folder, and makes the cleaned shape the file new.shape, or prints the line of the refusal.
#![tactic(auto)]

use cleaner::{HERE, clean_files};
use std::io;

fn main(rt: HostRuntime) -> io::Result<()> {
    clean_files(&rt, HERE)
}
