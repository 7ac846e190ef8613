// A script line by line. An operation prints one line, an empty line and a remark print nothing, and any other line prints `bad`.
use crate::bench::Bench;
use crate::operation;
use crate::output::put_line;
use std::io;
use std::io::Write;

// Runs every line. What stands behind the last newline is a line if it has bytes.
pub fn run_script<W: Write>(out: &mut W, text: &[u8], bench: &mut Bench) -> io::Result<()> {
    // By `line_end` and not by `split`: where a line ends is what that function promises.
    let mut start = 0;
    while start < text.len() {
        let end = script::line_end(text, start);
        let line = &text[start..end];
        if !is_silent(line) {
            run_line(out, line, bench)?;
        }
        start = end + 1;
    }
    Ok(())
}

// An empty line or a remark.
fn is_silent(line: &[u8]) -> bool {
    line.is_empty() || line[0] == b'#'
}

// Answers a line, and prints the state before the answer where the operation has to do with one.
fn run_line<W: Write>(out: &mut W, line: &[u8], bench: &mut Bench) -> io::Result<()> {
    if let Some(answer) = operation::answer(line, &mut bench.strings) {
        return put_line(out, answer, None, bench);
    }
    let answer = bench.answer(line);
    let held = bench.held;
    put_line(out, answer, held, bench)
}
