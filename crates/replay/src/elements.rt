// The operations on an element's header and footer: `header_encode`, `header_parse`, `footer_encode` and `footer_check`.
use crate::answer::{Answer, Told};
use crate::words;

// `header_encode SEQ BACKLINK LEN`
pub fn encode_header(line: &[u8]) -> Answer {
    let [seq, backlink, len] = words::numbers::<3>(line)?;
    let bytes = format::encode_v2_element_header(seq, backlink, len)?;
    Ok(Told::HeaderBytes(bytes))
}

// `header_parse HEX CAPACITY`
pub fn parse_header(line: &[u8], room: &mut [u8]) -> Answer {
    let [capacity] = words::numbers_from::<1>(line, 2)?;
    let header = words::string(line, 1, room)?;
    let data = format::parse_v2_element_header(header, capacity)?;
    Ok(Told::Header(data))
}

// `footer_encode SEQ HEX`
pub fn encode_footer(line: &[u8], room: &mut [u8]) -> Answer {
    words::count(line, 3)?;
    let seq = words::number(line, 1)?;
    let payload = words::string(line, 2, room)?;
    Ok(Told::FooterBytes(format::encode_v2_footer(seq, payload)))
}

// `footer_check HEX SEQ PAYLOAD_HEX`. A payload may come in two parts, and where it is cut changes no answer: it is halved here, so
// that both parts are at work.
pub fn check_footer(line: &[u8], room: &mut [u8]) -> Answer {
    words::count(line, 4)?;
    let seq = words::number(line, 2)?;
    let (footer, payload) = words::two_strings(line, 1, 3, room)?;
    let (left, right) = payload.split_at(payload.len() / 2);
    format::validate_v2_footer(footer, seq, left, right)?;
    Ok(Told::Nothing)
}
