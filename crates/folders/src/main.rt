// Puts folders through the function that `job` prints by, one after the other: eight hits in a list bounded at eight, a number too large for
// its width, a value of another type, a type that does not lower, a file that is too long, a file that is missing, a type of width 0, four hits in a list bounded at eight.
#![tactic(auto)]

use report::report_files;
use std::io;

// The names of the type file and the value file in the folder of that name.
macro_rules! folder {
    ($name:literal) => {
        (concat!($name, "/job.typ"), concat!($name, "/job.val"))
    };
}

fn main(rt: HostRuntime) -> io::Result<()> {
    for (type_name, value_name) in [
        folder!("eight-hits"),
        folder!("mistyped"),
        folder!("other-type"),
        folder!("never"),
        folder!("long-type"),
        folder!("long-value"),
        folder!("missing"),
        folder!("nothing"),
        folder!("width-0"),
        folder!("four-hits"),
    ] {
        report_files(&rt, type_name, value_name)?;
    }
    Ok(())
}
