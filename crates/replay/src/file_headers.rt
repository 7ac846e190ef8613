// The operations on the file headers that came before V2: `legacy_encode`, `legacy_parse`, `v1_encode` and `v1_parse`.
// Of each pair one call differs: a closure for it would be as long as the lines that it spares.
use crate::answer::{Answer, Told};
use crate::words;

// `legacy_encode FILE_LEN COUNT FIRST LAST`
pub fn encode_legacy(line: &[u8]) -> Answer {
    let [file_len, count, first, last] = words::numbers::<4>(line)?;
    let bytes = format::encode_legacy_header(file_len, count, first, last)?;
    Ok(Told::LegacyBytes(bytes))
}

// `v1_encode FILE_LEN COUNT FIRST LAST`
pub fn encode_v1(line: &[u8]) -> Answer {
    let [file_len, count, first, last] = words::numbers::<4>(line)?;
    let bytes = format::encode_v1_header(file_len, count, first, last)?;
    Ok(Told::V1Bytes(bytes))
}

// `legacy_parse HEX`
pub fn parse_legacy(line: &[u8], room: &mut [u8]) -> Answer {
    words::count(line, 2)?;
    let header = words::string(line, 1, room)?;
    Ok(Told::FileHeader(format::parse_legacy_header(header)?))
}

// `v1_parse HEX`
pub fn parse_v1(line: &[u8], room: &mut [u8]) -> Answer {
    words::count(line, 2)?;
    let header = words::string(line, 1, room)?;
    Ok(Told::FileHeader(format::parse_versioned_header(header)?))
}
