// The operations on checksums: `crc HEX` and `crc_joined HEX HEX`.
use crate::answer::{Answer, Told};
use crate::words;

// `crc HEX`
pub fn crc(line: &[u8], room: &mut [u8]) -> Answer {
    words::count(line, 2)?;
    let bytes = words::string(line, 1, room)?;
    Ok(Told::Checksum(crc::crc32(bytes)))
}

// `crc_joined HEX HEX`
pub fn crc_joined(line: &[u8], room: &mut [u8]) -> Answer {
    words::count(line, 3)?;
    let (a, b) = words::two_strings(line, 1, 2, room)?;
    Ok(Told::Checksum(crc::crc32_joined(a, b)))
}
