// The operations that need no bench.
use crate::answer::Answer;
use crate::{changing, checksum, elements, file_headers, slots};

// The answer to a line, or nothing where its name is none of these.
pub fn answer(line: &[u8], room: &mut [u8]) -> Option<Answer> {
    let answer = match script::word(line, 0) {
        b"crc" => checksum::crc(line, room),
        b"crc_joined" => checksum::crc_joined(line, room),
        b"slot_encode" => slots::encode(line),
        b"slot_parse" => slots::parse(line, room),
        b"slot_check" => slots::check(line),
        b"elect" => slots::elect(line, room),
        b"header_encode" => elements::encode_header(line),
        b"header_parse" => elements::parse_header(line, room),
        b"footer_encode" => elements::encode_footer(line, room),
        b"footer_check" => elements::check_footer(line, room),
        b"legacy_encode" => file_headers::encode_legacy(line),
        b"legacy_parse" => file_headers::parse_legacy(line, room),
        b"v1_encode" => file_headers::encode_v1(line),
        b"v1_parse" => file_headers::parse_v1(line, room),
        b"grow_length" => changing::grow_length(line),
        _ => return None,
    };
    Some(answer)
}
