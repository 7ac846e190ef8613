// Growth: the file gets longer, and where the elements wrap, those at the ring's start are laid behind those at its end.
ghost use Rattle.std.specs.Prelude.{◌≡◌, ◌+◌, ◌-◌, ◌*◌, ◌^◌, ◌≤◌, ◌<◌, length};
ghost use Rattle.writing.specs.Expansion.{lengthened, relinked_header, relink_from, last_placed, start_zeroed, laid_straight, expanded, grown, expand_of, Expands};

use crate::committing::sync_header;
use crate::growth::{behind, check_growth, end_of_last, judge_length, wraps};
use format::V2ElementHeader;
use header::V2_DATA_START;
use queue::{Element, QueueFile, SoundQueue};
use refusal::Refusal;

// Makes the file as long as that, with zeros behind its real length.
#[tactic(auto, unfolding(crate::specs::Expansion::lengthened))]
fn lengthen(q: QueueFile, image: &mut [u8], new_len: u64) -> QueueFile
    ensures { (result, image.new) ≡ lengthened new_len (q, image.old) }
{
    let missing = new_len.saturating_sub(q.real_len);
    wire::fill_at(image, q.real_len as usize, missing as usize, 0);
    QueueFile {
        file_len: new_len,
        real_len: new_len,
        ..q
    }
}

// What growth moves: the elements at the ring's start, up to `end`, go behind those at the end of a file that was old_len bytes long.
#[derive(Clone, Copy)]
struct Move {
    old_len: u64,
    end: u64,
    ghost fits: { (8192 + «end» ≤ old_len) × (old_len ≤ 2 ^ 62) },
}

// Stores a header anew whose backlink names an element that was moved: one before `end`, by as much as the old ring was long.
#[tactic(auto, unfolding(crate::specs::Expansion::relinked_header))]
fn relink_header(image: &mut [u8], file_len: u64, moved: Move, pos: u64, header: V2ElementHeader)
    requires { (8192 < file_len) × (file_len ≤ length image.old) }
    ensures { image.new ≡ relinked_header file_len moved.old_len moved.end image.old pos header }
{
    if header.prev_pos == 0 {
        return;
    }
    if header.prev_pos >= V2_DATA_START + moved.end {
        return;
    }
    // The definition says zeros where the encoder refuses; a header that was read does not come to that.
    let prev_pos = header.prev_pos + (moved.old_len - V2_DATA_START);
    let encoded = format::encode_v2_element_header(
        header.seq,
        prev_pos,
        header.payload_len,
    ).unwrap_or([0; 28]);
    ring::write_at(image, file_len, pos, &encoded).unwrap();
}

// The same of elem_cnt headers, from a place on.
fn relink(image: &mut [u8], file_len: u64, moved: Move, elem_cnt: u32, first_pos: u64)
    requires { (8192 < file_len) × (file_len ≤ length image.old) × (file_len < 2 ^ 63) × (first_pos < file_len - 8192) }
    ensures { image.new ≡ relink_from file_len moved.old_len moved.end elem_cnt image.old first_pos }
{
    let mut pos = first_pos;
    for _ in 0..elem_cnt {
        let Ok(header) = queue::validate_v2_element_header(image, file_len, pos) else {
            return;
        };
        relink_header(image, file_len, moved, pos, header);
        pos = behind(file_len, Element::here(pos, header));
    }
}

// Last goes with what was moved if it stood before first. It is committed if what it stood in is to be zeroed.
#[tactic(auto, unfolding(crate::specs::Expansion::last_placed))]
fn place_last(q: QueueFile, image: &mut [u8], moved: Move) -> QueueFile
    requires { (q.format.generation < 2 ^ 63) × (q.first.pos < 2 ^ 62) }
    ensures { (result, image.new) ≡ last_placed moved.old_len (q, image.old) }
{
    if q.last.pos >= q.first.pos {
        return q;
    }
    let placed = QueueFile {
        last: Element {
            pos: q.last.pos + (moved.old_len - V2_DATA_START),
            ..q.last
        },
        ..q
    };
    if !q.settings.overwrite_on_remove {
        return placed;
    }
    sync_header(placed, image)
}

// Zeroes the bytes that elements were moved from.
#[tactic(auto, unfolding(crate::specs::Expansion::start_zeroed))]
fn zero_start(q: QueueFile, image: &mut [u8], moved: Move)
    ensures { (q, image.new) ≡ start_zeroed moved.end (q, image.old) }
{
    if q.settings.overwrite_on_remove {
        wire::fill_at(image, V2_DATA_START as usize, moved.end as usize, 0);
    }
}

// Lays the elements at the ring's start behind those at the end of the old file.
fn relocate_wrapped_data(q: QueueFile, image: &mut [u8], moved: Move) -> QueueFile
    requires lens { (2 * moved.old_len ≤ q.file_len) × (q.file_len ≤ length image.old) × (q.file_len < 2 ^ 63) }
    requires pos_bound { (q.first.pos < moved.old_len - 8192) × (q.format.generation < 2 ^ 63) }
    ensures { (result, image.new) ≡ laid_straight moved.old_len moved.end (q, image.old) }
{
    ring::relocate(image, moved.old_len, moved.end).unwrap();
    relink(image, q.file_len, moved, q.elem_cnt, q.first.pos);
    let placed = place_last(q, image, moved);
    zero_start(placed, image, moved);
    placed
}

#[tactic(auto, unfolding(crate::specs::Expansion::expanded))]
fn expand(q: SoundQueue, image: &mut [u8], new_len: u64) -> QueueFile
    requires { Expands q.state (length image.old) new_len }
    ensures { (result, image.new) ≡ expanded new_len (q.state, image.old) }
{
    let longer = lengthen(q.state, image, new_len);
    if !wraps(q) {
        return longer;
    }
    let moved = Move {
        old_len: q.state.file_len,
        end: end_of_last(q.state),
    };
    relocate_wrapped_data(longer, image, moved)
}

// Makes the file as long as was planned, which may be as long as it is.
#[tactic(auto, unfolding(crate::specs::Expansion::grown))]
pub(crate) fn grow_to(q: SoundQueue, image: &mut [u8], new_len: u64) -> QueueFile
    requires { q.state.file_len < new_len → Expands q.state (length image.old) new_len }
    ensures { (result, image.new) ≡ grown new_len (q.state, image.old) }
{
    if new_len <= q.state.file_len {
        return q.state;
    }
    expand(q, image, new_len)
}

// Makes room for data_len bytes, where there is too little.
#[tactic(auto, using(queue::proofs::SoundQueueLaws::asked), unfolding(crate::specs::Expansion::judge_expansion, crate::specs::Expansion::expand_of))]
pub fn expand_if_necessary(
    q: QueueFile,
    image: &mut [u8],
    data_len: u64,
) -> Result<QueueFile, Refusal>
    ensures { (result, image.new) ≡ expand_of q data_len image.old }
{
    let q = q.sound(image.len() as u64)?;
    let new_len = judge_length(q, data_len, 0, 0)?;
    check_growth(q, image, new_len)?;
    Ok(grow_to(q, image, new_len))
}
