// Prints the CRC-32 of a dozen and more known inputs, the published check value first: a line has the length, the CRC and
// the name. What they should be stands in the file stdout beside src/.
#![tactic(auto)]

use std::io::Write;
use std::{array, io};

// The bytes from 0 up.
fn rising() -> [u8; 256] {
    array::from_fn(|i| i as u8)
}

// The length is given and no part: what is joined is two.
fn line<W: Write>(out: &mut W, len: usize, crc: u32, name: &str) -> io::Result<()> {
    writeln!(out, "{len} {crc:08x} {name}")
}

// A text is its own name.
fn text<W: Write>(out: &mut W, text: &str) -> io::Result<()> {
    bytes(out, text.as_bytes(), text)
}

fn bytes<W: Write>(out: &mut W, part: &[u8], name: &str) -> io::Result<()> {
    line(out, part.len(), crc::crc32(part), name)
}

fn texts<W: Write>(out: &mut W) -> io::Result<()> {
    text(out, "123456789")?;
    text(out, "")?;
    text(out, "a")?;
    text(out, "abc")?;
    text(out, "message digest")?;
    text(out, "abcdefghijklmnopqrstuvwxyz")?;
    text(
        out,
        "ABCDEFGHIJKLMNOPQRSTUVWXYZabcdefghijklmnopqrstuvwxyz0123456789",
    )?;
    text(
        out,
        "12345678901234567890123456789012345678901234567890123456789012345678901234567890",
    )?;
    text(out, "The quick brown fox jumps over the lazy dog")
}

fn few_bytes<W: Write>(out: &mut W) -> io::Result<()> {
    bytes(out, &[0; 32], "(32 times 00)")?;
    bytes(out, &[255; 32], "(32 times ff)")?;
    bytes(out, &rising(), "(00 to ff)")
}

// Long enough for every way in which a part is taken.
fn many_bytes<W: Write>(out: &mut W) -> io::Result<()> {
    bytes(out, &[0; 16384], "(16384 times 00)")?;
    bytes(out, &[255; 16384], "(16384 times ff)")
}

fn main(rt: HostRuntime) -> io::Result<()> {
    let mut out = rt.stdout();
    texts(&mut out)?;
    few_bytes(&mut out)?;
    many_bytes(&mut out)?;
    line(
        &mut out,
        9,
        crc::crc32_joined(b"1234", b"56789"),
        "1234 and 56789, joined",
    )
}
