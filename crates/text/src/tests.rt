use super::*;
use std::test::Fail;

// Takes a byte a call, and fails once, behind the first byte.
#[derive(Drop)]
struct Slow {
    taken: ArrayVec<u8, 3>,
    failure: Option<ErrorKind>,
}

impl Slow {
    fn failing_with(kind: ErrorKind) -> Slow {
        Slow {
            taken: ArrayVec::new(),
            failure: Some(kind),
        }
    }
}

impl Write for Slow {
    fn write(&mut self, text: &[u8]) -> io::Result<usize> {
        if !self.taken.is_empty() {
            if let Some(kind) = self.failure.take() {
                return Err(kind.into());
            }
        }
        self.taken.write(&text[..text.len().min(1)])
    }

    fn flush(&mut self) -> io::Result<()> {
        Ok(())
    }
}

#[test]
fn goes_on_where_a_write_is_interrupted(rt: HostRuntime) -> Result<(), Fail> {
    let mut out = Slow::failing_with(ErrorKind::Interrupted);
    let mut text = Text::from(&mut out);
    text.write_all(b"abc")?;
    text.flush()?;
    assert_eq!(rt; out.taken.as_slice(), b"abc".as_slice());
    Ok(())
}

#[test]
fn keeps_what_a_failure_leaves(rt: HostRuntime) -> Result<(), Fail> {
    let mut out = Slow::failing_with(ErrorKind::BrokenPipe);
    let mut text = Text::from(&mut out);
    text.write_all(b"abc")?;
    let failure = text.flush().err().map(|error| error.kind());
    assert_eq!(rt; failure, Some(ErrorKind::BrokenPipe));
    assert_eq!(rt; text.waiting.as_slice(), b"bc".as_slice());
    text.flush()?;
    assert_eq!(rt; out.taken.as_slice(), b"abc".as_slice());
    Ok(())
}
