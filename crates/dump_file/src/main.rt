// The rows of many databases in the file reading, to be held against SQLite by bin/sqlite.
#![tactic(auto)]

use reading::Reading;
use std::io;

fn main(rt: HostRuntime) -> io::Result<()> {
    stream::run(&mut rt.stdin(), &mut rt.stdout(), Reading::File)
}
