// A state that is known to be sound, and what is asked of one. Who takes one need not judge it, and whoever writes one has to show it.
ghost use Rattle.std.specs.Prelude.{◌≡◌, true};
ghost use Rattle.queue.specs.State.{sound};

use crate::state::QueueFile;
use header::V2_DATA_START;
use refusal::Refusal;

// A state that is sound over an image of so many bytes.
#[derive(Clone, Copy, Debug, PartialEq, Eq)]
pub struct SoundQueue {
    pub state: QueueFile,
    pub image_len: u64,
    pub ghost is_sound: { sound state image_len ≡ true },
}

impl QueueFile {
    ghost use Rattle.queue.specs.SoundQueue.{sound_queue};

    // The state, where it is sound over an image of so many bytes.
    pub fn sound(self, image_len: u64) -> Result<SoundQueue, Refusal>
        ensures { result ≡ sound_queue self image_len }
    {
        if !self.is_sound(image_len) {
            return Err(Refusal::Unsound);
        }
        Ok(SoundQueue {
            state: self,
            image_len,
        })
    }
}

impl SoundQueue {
    ghost use Rattle.std.specs.Prelude.{◌≤◌};
    ghost use Rattle.queue.specs.State.{used_bytes, remaining_bytes};

    // The bytes of the file that are in use: the slots, and from first to the end of last.
    pub(crate) fn used(self) -> u64
        ensures { (result ≡ used_bytes self.state) × (result ≤ self.state.file_len) }
    {
        if self.state.elem_cnt == 0 {
            return V2_DATA_START;
        }
        self.state.ends_used(self.image_len)
    }

    // The bytes of the file that are not in use.
    pub fn remaining(self) -> u64
        ensures { result ≡ remaining_bytes self.state }
    {
        self.state.file_len - self.used()
    }
}
