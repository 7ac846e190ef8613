// A first program over the library: it lays out an empty queue in bytes of its own, adds one element, and prints that element's payload
// where it lies. README.md tells of it.
#![tactic(auto)]

use queue::Settings;
use std::io;

fn main(rt: HostRuntime) -> io::Result<()> {
    let settings = Settings {
        capacity: 8192,
        overwrite_on_remove: true,
    };
    let mut image = [0u8; 16384];
    let Ok(empty) = writing::fresh(&mut image, 16384, settings) else {
        return Ok(());
    };
    let Ok(q) = writing::add(empty, &mut image, b"hello\n") else {
        return Ok(());
    };
    rt.write_all(q.peek_part(&image))
}
