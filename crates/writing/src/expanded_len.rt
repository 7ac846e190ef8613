// How long a file gets that has to make room.
ghost use Rattle.std.specs.Prelude.{◌≡◌};
ghost use Rattle.writing.specs.Length.{grow_length};

use refusal::Refusal;

// The least doubling of a length, of which so many bytes remain, that makes room for data_len bytes.
pub fn compute_expanded_len(
    current_len: u64,
    remaining_bytes: u64,
    data_len: u64,
) -> Result<u64, Refusal>
    ensures { result ≡ grow_length current_len remaining_bytes data_len }
{
    let mut new_len = current_len;
    let mut missing = data_len.saturating_sub(remaining_bytes);
    for _ in 0u32..63 {
        if missing == 0 {
            if new_len >= 0x8000_0000_0000_0000 {
                return Err(Refusal::Overflow);
            }
            return Ok(new_len);
        }
        if new_len >= 0x4000_0000_0000_0000 {
            return Err(Refusal::Overflow);
        }
        missing = missing.saturating_sub(new_len);
        new_len *= 2;
    }
    Err(Refusal::Overflow)
}
