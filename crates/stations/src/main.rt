// Puts folders of stored shapes through the function that the program `clean` is, one after the other, and prints what new.shape then holds, a digit a record:
// spots of every kind, a shape that passes, an older new.shape, which is replaced, a type that does not lower, and refusals, where none is made and an older one stays; first in the folder that it runs in, as `clean`.
#![tactic(auto)]

use cleaner::{HERE, Names, clean_files};
use files::read_into;
use std::fs::File;
use std::io;
use std::rt::Files;
use text::write_digits;

// Prints the shape in the file of that name, or that there is none.
// The buffers are on the stack, as all memory of ours (README, Limits).
fn show_shape(rt: &(impl Files + Print), name: &str) -> io::Result<()> {
    let mut shape = [0u8; 65540];
    let mut line = [0u8; 65540];
    if !is_there(rt, name) {
        return println!(rt; "no new.shape");
    }
    let shape = read_into(rt, name, &mut shape);
    let n = write_digits(shape, &mut line);
    rt.write_all(&line[..n])?;
    println!(rt; "")
}

// Whether there is a file of that name.
fn is_there(rt: &impl Files, name: &str) -> bool {
    File::open(rt, name).is_ok()
}

// Prints the name of a folder, and what `clean` does with its files.
fn show(rt: &(impl Files + Print + Eprint), folder: &str, names: Names<'_>) -> io::Result<()> {
    println!(rt; "{folder}")?;
    clean_files(rt, names)?;
    show_shape(rt, names.new)?;
    if is_there(rt, names.part) {
        println!(rt; "a part is left")?;
    }
    Ok(())
}

// The name of a folder, and those of its files.
macro_rules! folder {
    ($name:literal) => {
        (
            $name,
            Names {
                ty: concat!($name, "/old.typ"),
                shape: concat!($name, "/old.shape"),
                new: concat!($name, "/new.shape"),
                part: concat!($name, "/new.shape.part"),
            },
        )
    };
}

fn main(rt: HostRuntime) -> io::Result<()> {
    // what the program `clean` does, in the folder that this one runs in
    clean_files(&rt, HERE)?;
    show_shape(&rt, HERE.new)?;
    for (folder, names) in [
        // spots of every kind, and a shape that passes
        folder!("stored"),
        folder!("passes"),
        folder!("unit"),
        folder!("array-of-0"),
        // an older new.shape, a type that does not lower, and the largest shape
        folder!("again"),
        folder!("never"),
        folder!("largest"),
        // shapes that are refused
        folder!("bit"),
        folder!("none"),
        folder!("cut"),
        folder!("long"),
        // types that are refused
        folder!("bad-type"),
        folder!("odd-type"),
        folder!("long-type"),
        folder!("longer-type"),
        // files that are missing, and an older new.shape that stays
        folder!("missing"),
        folder!("nothing"),
        folder!("stale"),
    ] {
        show(&rt, folder, names)?;
    }
    Ok(())
}
