// The operations on header slots: `slot_encode`, `slot_parse`, `slot_check` and `elect`.
use crate::answer::{Answer, Fault, Told};
use crate::words;
use header::SlotData;

// `slot_encode FILE_LEN COUNT FIRST LAST GENERATION NEXT_SEQ`
pub fn encode(line: &[u8]) -> Answer {
    let [file_len, count, first, last, generation, next_seq] = words::numbers::<6>(line)?;
    let bytes = header::encode_v2_slot(file_len, count, first, last, generation, next_seq)?;
    Ok(Told::SlotBytes(bytes))
}

// `slot_parse HEX`
pub fn parse(line: &[u8], room: &mut [u8]) -> Answer {
    words::count(line, 2)?;
    let slot = words::string(line, 1, room)?;
    Ok(Told::Slot(header::parse_slot(slot)?))
}

// `slot_check FILE_LEN COUNT FIRST LAST GENERATION NEXT_SEQ REAL_LEN`. What is checked is a slot's data, whose count has 32 bits: a
// larger one is a bad word.
pub fn check(line: &[u8]) -> Answer {
    let [file_len, count, first, last, generation, next_seq, real_len] = words::numbers::<7>(line)?;
    let data = SlotData {
        file_length: file_len,
        element_count: u32::try_from(count).map_err(|_| Fault::Bad)?,
        first_position: first,
        last_position: last,
        generation,
        next_sequence_number: next_seq,
    };
    format::validate_v2_slot_data(data, real_len)?;
    Ok(Told::Nothing)
}

// `elect HEX HEX`. A string that does not parse counts as no slot.
pub fn elect(line: &[u8], room: &mut [u8]) -> Answer {
    words::count(line, 3)?;
    let (a, b) = words::two_strings(line, 1, 2, room)?;
    let state = format::elect_canonical_slot(header::parse_slot(a), header::parse_slot(b))?;
    Ok(Told::Elected(state))
}
