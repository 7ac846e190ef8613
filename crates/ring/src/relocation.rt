// The first bytes of the ring copied behind its end, for a ring that is to be longer.
ghost use Rattle.std.specs.Prelude.{◌≡◌, ◌+◌, ◌≤◌, length};
ghost use Rattle.refusal.specs.Answer.{after};
ghost use Rattle.ring.specs.Ring.{relocated, judge_relocation};

use crate::place::sum_within;
use header::V2_DATA_START;
use refusal::Refusal;

// Copies len bytes of the image from `start` on to `to`, which lies behind them: the image is lent in two parts, so no buffer is
// beside len.
#[tactic(auto, using(crate::proofs::Relocating::relocated_lent))]
fn relocate_bytes(image: &mut [u8], start: usize, to: usize, len: usize)
    requires { (start + len ≤ to) × (to + len ≤ length image.old) }
    ensures { image.new ≡ relocated start image.old to len }
{
    let (file, room) = image.split_at_mut(to);
    wire::copy_into(room, &file[start..start + len]);
}

// Copies the first moved_count bytes of the ring to the end of the original file, where the image has room for them.
pub fn relocate(image: &mut [u8], orig_file_len: u64, moved_count: u64) -> Result<(), Refusal>
    ensures value { result ≡ judge_relocation 8192 (length image.old) orig_file_len moved_count }
    ensures image_after { image.new ≡ after result (relocated 8192 image.old orig_file_len moved_count) image.old }
{
    if !sum_within(V2_DATA_START, moved_count, orig_file_len)
        || !sum_within(orig_file_len, moved_count, image.len() as u64)
    {
        return Err(Refusal::Unsound);
    }
    relocate_bytes(
        image,
        V2_DATA_START as usize,
        orig_file_len as usize,
        moved_count as usize,
    );
    Ok(())
}
