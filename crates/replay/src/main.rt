// The old reading of the databases of stdin. Its stdout is what the original Rust says of them: oracle/README.md.
#![tactic(auto)]

use std::io;

fn main(rt: HostRuntime) -> io::Result<()> {
    stream::replay(&mut rt.stdin(), &mut rt.stdout())
}
