//! Rounds of leases and of tokens, to be timed from outside (`bench/token_rounds.py`). Each line of
//! standard input is `lease` or `token` and a number of rounds; each answer says what they did.
#![tactic(auto)]

mod rounds;

use std::io;

fn main(rt: HostRuntime) -> io::Result<()> {
    for line in rt.lines(rt.alloc()) {
        let line = line?;
        let Some((kind, count)) = line.as_str().split_once(' ') else {
            continue;
        };
        let Ok(count) = count.parse::<u64>() else {
            continue;
        };
        if kind == "lease" {
            let running = rounds::lease_rounds(rt.alloc(), count)?;
            println!(rt; "lease {count}: at most {running} running")?;
        } else {
            let taken = rounds::token_rounds(&rt, rt.alloc(), count)?;
            println!(rt; "token {count}: {taken} taken")?;
        }
    }
    Ok(())
}
