// Runs a script of operations, read from standard input, and prints one line for each.
// Here stands what there is one of: the script, the bench that its operations run on, and the text that waits to be written.
#![tactic(auto)]

mod answer;
mod bench;
mod changing;
mod checksum;
mod elements;
mod file_headers;
mod listing;
mod on_queue;
mod on_ring;
mod opening;
mod operation;
mod output;
mod run;
mod setup;
mod slots;
mod words;

use arrayvec::ArrayVec;
use bench::Bench;
use std::io;
use std::io::{Read, Write};
use text::Text;

fn main(rt: HostRuntime) -> io::Result<()> {
    // What lies beyond this room is not read.
    let mut script = ArrayVec::<u8, 1048576>::new();
    io::copy(&mut rt.stdin().take(1048576), &mut script)?;
    let mut bench = Bench::new();
    let mut stdout = rt.stdout();
    let mut out = Text::from(&mut stdout);
    run::run_script(&mut out, script.as_slice(), &mut bench)?;
    out.flush()
}
