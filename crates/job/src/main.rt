// The program `job`: reads job.typ and job.val in the current folder, and prints what `report` makes of them.
#![tactic(auto)]

use report::report_files;
use std::io;

fn main(rt: HostRuntime) -> io::Result<()> {
    report_files(&rt, "job.typ", "job.val")
}
