// What the benchmarks link: each function is the one of `exports` of its name, with the same clauses, under the name that C knows.
#![tactic(auto)]

ghost use Rattle.std.specs.Prelude.{◌≡◌, length, ◌-◌};
ghost use Rattle.crc.specs.Crc.{crc_of};
ghost use Rattle.refusal.specs.Answer.{number_or_0, after};
ghost use Rattle.ring.specs.Ring.{ring_read, ring_write, ring_erase, relocated, judge_ring, judge_relocation};
ghost use Rattle.exports.specs.Runs.{opened, adds_of, removes_of, clears_of, peeks_of, steps_of};

#[unsafe(no_mangle)]
pub extern "C" fn port_crc32(part: &[u8]) -> u32
    ensures { result ≡ crc_of part.now }
{
    exports::port_crc32(part)
}

#[unsafe(no_mangle)]
pub extern "C" fn port_ring_read(
    image: &[u8],
    file_len: u64,
    logical_pos: u64,
    buf: &mut [u8],
) -> u32
    ensures value { result ≡ number_or_0 (judge_ring 8192 (length image.now) file_len) }
    ensures buf_after { buf.new ≡ after (judge_ring 8192 (length image.now) file_len) (ring_read 8192 (file_len - 8192) image.now logical_pos (length buf.old)) buf.old }
{
    exports::port_ring_read(image, file_len, logical_pos, buf)
}

#[unsafe(no_mangle)]
pub extern "C" fn port_ring_write(
    image: &mut [u8],
    file_len: u64,
    logical_pos: u64,
    buf: &[u8],
) -> u32
    ensures value { result ≡ number_or_0 (judge_ring 8192 (length image.old) file_len) }
    ensures image_after { image.new ≡ after (judge_ring 8192 (length image.old) file_len) (ring_write 8192 (file_len - 8192) image.old logical_pos buf.now) image.old }
{
    exports::port_ring_write(image, file_len, logical_pos, buf)
}

#[unsafe(no_mangle)]
pub extern "C" fn port_ring_erase(
    image: &mut [u8],
    file_len: u64,
    logical_pos: u64,
    len: u64,
) -> u32
    ensures value { result ≡ number_or_0 (judge_ring 8192 (length image.old) file_len) }
    ensures image_after { image.new ≡ after (judge_ring 8192 (length image.old) file_len) (ring_erase 8192 (file_len - 8192) image.old logical_pos len) image.old }
{
    exports::port_ring_erase(image, file_len, logical_pos, len)
}

#[unsafe(no_mangle)]
pub extern "C" fn port_relocate(image: &mut [u8], orig_file_len: u64, moved_count: u64) -> u32
    ensures value { result ≡ number_or_0 (judge_relocation 8192 (length image.old) orig_file_len moved_count) }
    ensures image_after { image.new ≡ after (judge_relocation 8192 (length image.old) orig_file_len moved_count) (relocated 8192 image.old orig_file_len moved_count) image.old }
{
    exports::port_relocate(image, orig_file_len, moved_count)
}

#[unsafe(no_mangle)]
pub extern "C" fn port_open(image: &[u8], real_len: u64) -> u32
    ensures { result ≡ number_or_0 (opened image.now real_len) }
{
    exports::port_open(image, real_len)
}

#[unsafe(no_mangle)]
pub extern "C" fn port_add(image: &mut [u8], real_len: u64, payload: &[u8], n: u64) -> u64
    ensures { (result, image.new) ≡ adds_of payload.now n real_len image.old }
{
    exports::port_add(image, real_len, payload, n)
}

#[unsafe(no_mangle)]
pub extern "C" fn port_remove(image: &mut [u8], real_len: u64, n: u64) -> u64
    ensures { (result, image.new) ≡ removes_of n real_len image.old }
{
    exports::port_remove(image, real_len, n)
}

#[unsafe(no_mangle)]
pub extern "C" fn port_clear(image: &mut [u8], real_len: u64, n: u64) -> u64
    ensures { (result, image.new) ≡ clears_of n real_len image.old }
{
    exports::port_clear(image, real_len, n)
}

#[unsafe(no_mangle)]
pub extern "C" fn port_peek(image: &[u8], real_len: u64, out: &mut [u8], n: u64) -> u64
    ensures { (result, out.new) ≡ peeks_of image.now real_len n out.old }
{
    exports::port_peek(image, real_len, out, n)
}

#[unsafe(no_mangle)]
pub extern "C" fn port_iterate(image: &[u8], real_len: u64, out: &mut [u8], n: u64) -> u64
    ensures { (result, out.new) ≡ steps_of image.now real_len n out.old }
{
    exports::port_iterate(image, real_len, out, n)
}
