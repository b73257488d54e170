use super::*;
use std::test::Fail;

const NONE: Jobserver = Jobserver::Absent;

fn fifo(from: u64, to: u64) -> Jobserver {
    Jobserver::Fifo { from, to }
}

#[test]
fn worked_texts(rt: HostRuntime) -> Result<(), Fail> {
    let pair = Jobserver::Pair { r: 3, w: 4 };
    let cases: [(&str, bool, Jobserver); 23] = [
        ("", false, NONE),
        ("n", true, NONE),
        ("kn --jobserver-auth=3,4", true, pair),
        ("-n", false, NONE),
        (" n", false, NONE),
        ("k n", false, NONE),
        (
            " -j --jobserver-auth=3,4 --jobserver-auth=fifo:/tmp/x",
            false,
            fifo(47, 53),
        ),
        ("--jobserver-auth=fifo:p q", false, fifo(22, 23)),
        (
            "--jobserver-auth=fifo:/tmp/x --jobserver-auth=3,4",
            false,
            pair,
        ),
        ("--jobserver-auth=3,4 --jobserver-auth=x", false, NONE),
        ("--jobserver-auth=3,4 -- --jobserver-auth=5,6", false, pair),
        ("--jobserver-auth=-2,-2", false, Jobserver::Disabled),
        ("--jobserver-auth=3,-4", false, Jobserver::Disabled),
        (
            "--jobserver-auth=-0,000000004",
            false,
            Jobserver::Pair { r: 0, w: 4 },
        ),
        ("--jobserver-auth=x", false, NONE),
        ("--jobserver-auth=", false, NONE),
        ("--jobserver-auth=fifo:", false, NONE),
        ("--jobserver-auth=3,4,", false, NONE),
        ("--jobserver-auth=3", false, NONE),
        ("--jobserver-auth=+3,4", false, NONE),
        ("--jobserver-auth=--3,4", false, NONE),
        ("--jobserver-auth=3,1234567890", false, NONE),
        ("-j2 --jobserver-fds=3,4", false, NONE),
    ];
    for (text, stop, jobserver) in cases {
        assert_eq!(rt; read_flags(Some(text)), Flags { stop, jobserver });
    }
    assert_eq!(rt;
        read_flags(None),
        Flags {
            stop: false,
            jobserver: NONE
        }
    );
    Ok(())
}
