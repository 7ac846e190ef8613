// What the benchmarks call, by way of `exports_c`: each function here is one of the library's, under a name of its own. Where the library
// answers a `Result`, the refusal's number is given, and 0 where nothing is refused. runs.rt has the queue's, many in one call.
//
// `exports_c` says each again under the name that C calls: a crate is a library, which the theorems cite, or a static one, which C links.
#![tactic(auto)]

mod runs;

ghost use Rattle.std.specs.Prelude.{◌≡◌, length, ◌-◌};
ghost use Rattle.crc.specs.Crc.{crc_of};
ghost use Rattle.refusal.specs.Answer.{number_or_0, after};
ghost use Rattle.ring.specs.Ring.{ring_read, ring_write, ring_erase, relocated, judge_ring, judge_relocation};

use refusal::Refusal;
pub use runs::{port_add, port_clear, port_iterate, port_open, port_peek, port_remove};

// The number of the refusal, 0 where nothing is refused.
fn number_or_0<T: Drop>(answer: Result<T, Refusal>) -> u32
    ensures { result ≡ number_or_0 answer }
{
    match answer {
        Ok(_) => 0,
        Err(refusal) => refusal.number(),
    }
}

#[unsafe(no_mangle)]
pub extern "C" fn port_crc32(part: &[u8]) -> u32
    ensures { result ≡ crc_of part.now }
{
    crc::crc32(part)
}

#[unsafe(no_mangle)]
pub extern "C" fn port_ring_read(
    image: &[u8],
    file_len: u64,
    logical_pos: u64,
    buf: &mut [u8],
) -> u32
    ensures value { result ≡ number_or_0 (judge_ring 8192 (length image.now) file_len) }
    ensures buf_after { buf.new ≡ after (judge_ring 8192 (length image.now) file_len) (ring_read 8192 (file_len - 8192) image.now logical_pos (length buf.old)) buf.old }
{
    number_or_0(ring::read_at(image, file_len, logical_pos, buf))
}

#[unsafe(no_mangle)]
pub extern "C" fn port_ring_write(
    image: &mut [u8],
    file_len: u64,
    logical_pos: u64,
    buf: &[u8],
) -> u32
    ensures value { result ≡ number_or_0 (judge_ring 8192 (length image.old) file_len) }
    ensures image_after { image.new ≡ after (judge_ring 8192 (length image.old) file_len) (ring_write 8192 (file_len - 8192) image.old logical_pos buf.now) image.old }
{
    number_or_0(ring::write_at(image, file_len, logical_pos, buf))
}

#[unsafe(no_mangle)]
pub extern "C" fn port_ring_erase(
    image: &mut [u8],
    file_len: u64,
    logical_pos: u64,
    len: u64,
) -> u32
    ensures value { result ≡ number_or_0 (judge_ring 8192 (length image.old) file_len) }
    ensures image_after { image.new ≡ after (judge_ring 8192 (length image.old) file_len) (ring_erase 8192 (file_len - 8192) image.old logical_pos len) image.old }
{
    number_or_0(ring::erase_at(image, file_len, logical_pos, len))
}

#[unsafe(no_mangle)]
pub extern "C" fn port_relocate(image: &mut [u8], orig_file_len: u64, moved_count: u64) -> u32
    ensures value { result ≡ number_or_0 (judge_relocation 8192 (length image.old) orig_file_len moved_count) }
    ensures image_after { image.new ≡ after (judge_relocation 8192 (length image.old) orig_file_len moved_count) (relocated 8192 image.old orig_file_len moved_count) image.old }
{
    number_or_0(ring::relocate(image, orig_file_len, moved_count))
}
