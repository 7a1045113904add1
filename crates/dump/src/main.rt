// The old reading of many databases, in the form that the oracle prints, to be held against it by bin/compare.
#![tactic(auto)]

use reading::Reading;
use std::io;

fn main(rt: HostRuntime) -> io::Result<()> {
    stream::run(&mut rt.stdin(), &mut rt.stdout(), Reading::Old)
}
