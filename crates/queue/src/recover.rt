// The head of a queue whose first pointer leads nowhere: found from the tail, back along the backlinks, one header a step.
ghost use Rattle.std.specs.Prelude.{◌≡◌};
ghost use Rattle.queue.specs.Recover.{recover_head};

use crate::element::{Element, header_in_sequence};
use crate::places::to_logical;
use header::V2_DATA_START;
use refusal::Refusal;

// The first of elem_cnt elements, the last of which stands at last_logical_pos with last_seq. What the first one's backlink says is
// not asked, and its place is the one that the backlink after it names, not reduced.
pub fn recover_v2_head(
    image: &[u8],
    file_len: u64,
    last_logical_pos: u64,
    last_seq: u64,
    elem_cnt: u32,
) -> Result<Element, Refusal>
    ensures { result ≡ recover_head image.now file_len last_logical_pos last_seq elem_cnt }
{
    if !ring::has_ring(V2_DATA_START, image.len() as u64, file_len) {
        return Err(Refusal::Unsound);
    }
    let mut pos = last_logical_pos;
    for step in 0..elem_cnt {
        if last_seq < step as u64 {
            return Err(Refusal::RecoverySequence);
        }
        let expected_seq = last_seq - step as u64;
        // `let .. else` at each step is the form that the specification names for this place; `?` would do.
        let parsed = header_in_sequence(image, file_len, pos, expected_seq);
        let Ok(header) = parsed else {
            return Err(parsed.unwrap_err());
        };
        if step + 1 == elem_cnt {
            return Ok(Element::here(pos, header));
        }
        if header.prev_pos == 0 {
            return Err(Refusal::BacklinkZero);
        }
        pos = to_logical(header.prev_pos)?;
    }
    Err(Refusal::RecoveryEmpty)
}
