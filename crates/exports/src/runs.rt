// The queue's operations, n of them in one call, over an image that is opened first. Each answers how many were carried out: fewer than
// n where the image does not open, or where one was refused, which ends them.
ghost use Rattle.std.specs.Prelude.{◌≡◌};
ghost use Rattle.refusal.specs.Answer.{number_or_0};
ghost use Rattle.exports.specs.Runs.{opened, Follows, run_of, adds_of, removes_of, clears_of, peeks_of, steps_of};

use queue::{QueueFile, Settings, open};
use refusal::Refusal;

// The capacity is the file's length, so that clearing the queue cuts nothing off.
fn opened(image: &[u8], real_len: u64) -> Result<QueueFile, Refusal>
    ensures { result ≡ opened image.now real_len }
{
    let settings = Settings {
        capacity: real_len,
        overwrite_on_remove: true,
    };
    open(image, real_len, settings)
}

// The number of the refusal, or 0.
#[unsafe(no_mangle)]
pub extern "C" fn port_open(image: &[u8], real_len: u64) -> u32
    ensures { result ≡ number_or_0 (opened image.now real_len) }
{
    crate::number_or_0(opened(image, real_len))
}

// ---- operations that change the queue

// A run of the operation that the closure carries out, whichever it is, on the queue that the image opens to.
#[tactic(auto, using(queue::proofs::Steps::one_less), unfolding(crate::specs::Runs::run_from))]
fn run<F: Fn(QueueFile, &mut [u8]) -> Result<QueueFile, Refusal>>(
    image: &mut [u8],
    real_len: u64,
    n: u64,
    operation: F,
) -> u64
    requires { F.IsAlwaysCallable operation }
    ensures { (op : _) → Follows (F.post operation) op → (result, image.new) ≡ run_of op n real_len image.old }
{
    let Ok(mut q) = opened(image, real_len) else {
        return 0;
    };
    for done in 0..n {
        let Ok(next) = operation(q, image) else {
            return done;
        };
        q = next;
    }
    n
}

#[unsafe(no_mangle)]
pub extern "C" fn port_add(image: &mut [u8], real_len: u64, payload: &[u8], n: u64) -> u64
    ensures { (result, image.new) ≡ adds_of payload.now n real_len image.old }
{
    run(image, real_len, n, |q, image| {
        writing::add(q, image, payload)
    })
}

#[unsafe(no_mangle)]
pub extern "C" fn port_remove(image: &mut [u8], real_len: u64, n: u64) -> u64
    ensures { (result, image.new) ≡ removes_of n real_len image.old }
{
    run(image, real_len, n, |q, image| {
        writing::remove_n(q, image, 1)
    })
}

#[unsafe(no_mangle)]
pub extern "C" fn port_clear(image: &mut [u8], real_len: u64, n: u64) -> u64
    ensures { (result, image.new) ≡ clears_of n real_len image.old }
{
    run(image, real_len, n, |q, image| writing::clear(q, image))
}

// ---- operations that read it: two loops, since one that both share would be no plainer. A peek begins anew each time, and an iteration
// hands its cursor on.

#[tactic(auto, using(queue::proofs::Steps::one_less), unfolding(crate::specs::Runs::peeks_from))]
#[unsafe(no_mangle)]
pub extern "C" fn port_peek(image: &[u8], real_len: u64, out: &mut [u8], n: u64) -> u64
    ensures { (result, out.new) ≡ peeks_of image.now real_len n out.old }
{
    let Ok(q) = opened(image, real_len) else {
        return 0;
    };
    for done in 0..n {
        let Ok(Some(_)) = q.peek_into(image, out) else {
            return done;
        };
    }
    n
}

// From the first element on.
#[tactic(auto, using(queue::proofs::Steps::one_less), unfolding(crate::specs::Runs::steps_from))]
#[unsafe(no_mangle)]
pub extern "C" fn port_iterate(image: &[u8], real_len: u64, out: &mut [u8], n: u64) -> u64
    ensures { (result, out.new) ≡ steps_of image.now real_len n out.old }
{
    let Ok(q) = opened(image, real_len) else {
        return 0;
    };
    let mut cursor = q.iter();
    for done in 0..n {
        let Ok(Some(step)) = q.step(image, cursor, out) else {
            return done;
        };
        cursor = step.next;
    }
    n
}
