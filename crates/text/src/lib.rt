// Text that waits to be written, so that a long one takes few system calls: std's `BufWriter`, with a room of its own in place of memory
// from an allocator. What it holds is what the writer behind it holds and then what waits, so no call loses a byte or writes one twice.
// A write of what waits that a signal interrupts is tried again. Flush it at the end.
#![tactic(auto)]

ghost use Rattle.std.specs.Prelude.{◌≡◌, ◌≢◌, ◌≤◌, [], length, take, IfErr, OnOk};
ghost use Rattle.std.specs.IoError.{error_kind};
ghost use Rattle.std.specs.Io.{WritesAtMost};
ghost use Rattle.std.specs.Io.KnownBytes.{Keeps, Appends, WriteAppends};
ghost use Rattle.text.specs.Text.{contents_of};

use arrayvec::ArrayVec;
use std::io;
use std::io::{ErrorKind, Write};

#[cfg(test)]
mod tests;

#[derive(Drop)]
pub struct Text<'a, W> {
    out: &'a mut W,
    waiting: ArrayVec<u8, 65536>,
}

impl<'a, W: Write> From<&'a mut W> for Text<'a, W> {
    ghost from_gives = { λ out t. contents_of W.contents t ≡ W.contents out.now };

    fn from(out: &'a mut W) -> Text<'a, W> {
        Text {
            out,
            waiting: ArrayVec::new(),
        }
    }
}

impl<W: Write> Write for Text<'_, W> {
    ghost contents = { contents_of W.contents };

    // Where there is no room for `text` behind what waits, it is written behind it.
    fn write(&mut self, text: &[u8]) -> io::Result<usize> {
        if self.waiting.try_extend_from_slice(text).is_err() {
            self.flush()?;
            return self.out.write(text);
        }
        Ok(text.len())
    }

    fn write_all(&mut self, text: &[u8]) -> io::Result<()> {
        if self.waiting.try_extend_from_slice(text).is_err() {
            self.flush()?;
            return self.out.write_all(text);
        }
        Ok(())
    }

    // What was written leaves the room once, at the end: write by write it would move the rest each time. The rest waits on.
    fn flush(&mut self) -> io::Result<()>
        ensures bytes { Keeps (contents_of W.contents self.old) (contents_of W.contents self.new) }
        ensures ok { OnOk result (self.new.waiting.items ≡ []) }
    {
        let (done, written) = write_through(self.out, self.waiting.as_slice());
        self.waiting.drain(..done);
        written?;
        self.out.flush()
    }
}

// Writes `text` from its front, until all of it is written or a write fails, and answers how many bytes were written.
fn write_through<W: Write>(out: &mut W, text: &[u8]) -> (usize, io::Result<()>)
    ensures within { result.0 ≤ length text.now }
    ensures bytes { Appends (W.contents out.old) (W.contents out.new) (take result.0 text.now) }
    ensures all { OnOk result.1 (result.0 ≡ length text.now) }
    ensures retried { IfErr result.1 (λ e. error_kind e ≢ ErrorKind.Interrupted) }
{
    let mut done = 0;
    // A turn goes as far as the writer takes, so that no range counts the turns.
    while done < text.len() {
        match write_some(out, &text[done..]) {
            Ok(0) => return (done, Err(ErrorKind::WriteZero.into())),
            Ok(n) => done += n,
            Err(error) => return (done, Err(error)),
        }
    }
    (done, Ok(()))
}

// One write, which is tried again where a signal interrupts it. The tries are counted since they have to end.
fn write_some<W: Write>(out: &mut W, text: &[u8]) -> io::Result<usize>
    ensures bound { WritesAtMost result text.now }
    ensures bytes { WriteAppends (W.contents out.old) (W.contents out.new) result text.now }
    ensures retried { IfErr result (λ e. error_kind e ≢ ErrorKind.Interrupted) }
{
    for _ in 0..u64::MAX {
        match out.write(text) {
            Err(error) if error.kind() == ErrorKind::Interrupted => {}
            answer => return answer,
        }
    }
    Err(ErrorKind::TimedOut.into())
}
