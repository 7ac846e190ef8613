// Remove: the queue goes on at the element behind those that are removed.
ghost use Rattle.std.specs.Prelude.{◌≡◌, ◌-◌, ◌^◌, ◌≤◌, ◌<◌, length};
ghost use Rattle.queue.specs.Element.{Lies};
ghost use Rattle.writing.specs.Removal.{skip_from, removed_zeroed, remove_to, remove_some, remove_of};

use crate::clearing::clear;
use crate::committing::{judge_numbers, sync_header};
use crate::growth::behind;
use header::V2_DATA_START;
use queue::{Element, QueueFile, SoundQueue};
use refusal::Refusal;

// The element n elements behind another, whose length is known. Nothing keeps the walk from going round the ring more than once.
fn skip_elements_from(
    image: &[u8],
    file_len: u64,
    n: u64,
    from: Element,
) -> Result<Element, Refusal>
    requires { Lies (length image.now) file_len from }
    ensures { result ≡ skip_from image.now file_len n from }
{
    // A loop that is left by `break` with its answer is the form that the specification names for this place.
    let mut elem = from;
    let mut left = n;
    loop {
        if left == 0 {
            break Ok(elem);
        }
        let pos = behind(file_len, elem);
        let parsed = queue::validate_v2_element_header(image, file_len, pos);
        let Ok(header) = parsed else {
            break Err(parsed.unwrap_err());
        };
        elem = Element::here(pos, header);
        left -= 1;
    }
}

// Zeroes the ring from the old first on to the new one.
#[tactic(auto, unfolding(crate::specs::Removal::removed_zeroed))]
fn zero_removed(q: QueueFile, image: &mut [u8], from: u64, to: u64)
    requires { (8192 < q.file_len) × (q.file_len ≤ length image.old) × (q.file_len < 2 ^ 63) × (from < q.file_len - 8192) × (to < q.file_len - 8192) }
    ensures { (q, image.new) ≡ removed_zeroed from to (q, image.old) }
{
    if !q.settings.overwrite_on_remove {
        return;
    }
    let capacity = q.file_len - V2_DATA_START;
    let len = (to + (capacity - from)) % capacity;
    ring::erase_at(image, q.file_len, from, len).unwrap();
}

// Lets the queue go on at an element, n behind first.
#[tactic(auto, unfolding(crate::specs::Removal::remove_to))]
fn remove_to(
    sound: SoundQueue,
    image: &mut [u8],
    n: u64,
    elem: Element,
) -> Result<QueueFile, Refusal>
    requires { (sound.image_len ≡ length image.old) × (n < sound.state.elem_cnt) × (elem.pos < sound.state.file_len - 8192) }
    ensures { (result, image.new) ≡ remove_to sound.state n image.old elem }
{
    judge_numbers(sound, 1, 0)?;
    let q = sound.state;
    let shorter = QueueFile {
        elem_cnt: q.elem_cnt - n as u32,
        first: elem,
        ..q
    };
    let committed = sync_header(shorter, image);
    zero_removed(committed, image, q.first.pos, elem.pos);
    Ok(committed)
}

// Removes some elements, of more.
#[tactic(auto, unfolding(crate::specs::Removal::remove_some))]
fn remove_some(q: SoundQueue, image: &mut [u8], n: u64) -> Result<QueueFile, Refusal>
    requires { (q.image_len ≡ length image.old) × (n < q.state.elem_cnt) }
    ensures { (result, image.new) ≡ remove_some q.state n image.old }
{
    let elem = skip_elements_from(image, q.state.file_len, n, q.state.first)?;
    remove_to(q, image, n, elem)
}

// Removes the first n elements; all of them where there are no more.
#[tactic(auto, using(queue::proofs::SoundQueueLaws::asked), unfolding(crate::specs::Removal::remove_of))]
pub fn remove_n(q: QueueFile, image: &mut [u8], n: u64) -> Result<QueueFile, Refusal>
    ensures { (result, image.new) ≡ remove_of q n image.old }
{
    let sound = q.sound(image.len() as u64)?;
    if n == 0 || q.elem_cnt == 0 {
        return Ok(q);
    }
    if n >= q.elem_cnt as u64 {
        return clear(q, image);
    }
    remove_some(sound, image, n)
}
