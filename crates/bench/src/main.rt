// The bench: a script on standard input, one line for each command on standard output.
#![tactic(auto)]

use rig::transcript;
use std::io;
use std::io::{Read, Write};

fn main(rt: HostRuntime) -> io::Result<()> {
    let mut script = Vec::new(rt.alloc());
    rt.stdin().read_to_end(&mut script)?;
    let out = transcript(rt.alloc(), &script)?;
    rt.stdout().write_all(&out)
}
