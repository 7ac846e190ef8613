// What the words of a line spell, counted from the operation's name, which is word 0. A line with a word too many or too few, or with one
// that does not spell what the operation has there, is bad.
use crate::answer::Fault;
use queue::Settings;

// Whether a line has so many words, the name among them.
pub fn count(line: &[u8], n: usize) -> Result<(), Fault> {
    if script::count_words(line) == n {
        Ok(())
    } else {
        Err(Fault::Bad)
    }
}

// The numbers of a line that has nothing else behind its name.
pub fn numbers<const N: usize>(line: &[u8]) -> Result<[u64; N], Fault> {
    numbers_from(line, 1)
}

// The numbers that stand from the i-th word on, up to the line's end.
pub fn numbers_from<const N: usize>(line: &[u8], i: usize) -> Result<[u64; N], Fault> {
    count(line, i.saturating_add(N))?;
    let mut out = [0; N];
    for (k, n) in out.iter_mut().enumerate() {
        *n = number(line, i.saturating_add(k))?;
    }
    Ok(out)
}

// The number that the i-th word spells.
pub fn number(line: &[u8], i: usize) -> Result<u64, Fault> {
    script::parse_number(script::word(line, i)).ok_or(Fault::Bad)
}

// A flag is a number that is 0 or 1. The library has no conversion that refuses the others.
pub fn flag(n: u64) -> Result<bool, Fault> {
    match n {
        0 => Ok(false),
        1 => Ok(true),
        _ => Err(Fault::Bad),
    }
}

// The settings that two numbers of a line spell.
pub fn settings(capacity: u64, overwrite: u64) -> Result<Settings, Fault> {
    let overwrite_on_remove = flag(overwrite)?;
    Ok(Settings {
        capacity,
        overwrite_on_remove,
    })
}

// The byte string that the i-th word spells, which is put in `room`.
pub fn string<'a>(line: &[u8], i: usize, room: &'a mut [u8]) -> Result<&'a [u8], Fault> {
    let n = script::parse_bytes(script::word(line, i), room).ok_or(Fault::Bad)?;
    Ok(wire::part(room, 0, n))
}

// Two of them.
pub fn two_strings<'a>(
    line: &[u8],
    i: usize,
    k: usize,
    room: &'a mut [u8],
) -> Result<(&'a [u8], &'a [u8]), Fault> {
    let half = room.len() / 2;
    let (left, right) = room.split_at_mut(half);
    Ok((string(line, i, left)?, string(line, k, right)?))
}
