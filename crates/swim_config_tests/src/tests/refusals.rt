//! A configuration is read with memory refused. tests/node/refusals runs this with one request for memory refused, the
//! first, the second and so on; else none is. Want of memory is told, and never taken for a configuration. Where a test
//! met it, it writes a line.

use super::assert_same;
use std::process::Abort;
use std::test::Fail;
use swim_config::{Config, ConfigFault, ConfigKey, read_config};
use swim_wire::{Id, Peer};

// Its members aren't sorted by their ids.
const WHOLE: &[u8] = b"id = 1
listen = \"10.0.0.1:7000\"
control = \"/tmp/swimd.sock\"
k = 1
rtt = 1
period = 3
tick_ms = 1000
seed = \"0000000000000000000000000000000000000000000000000000000000000000\"
journal = 1000

[[member]]
id = 3
at = \"10.0.0.3:7000\"

[[member]]
id = 2
at = \"10.0.0.2:7000\"
";

fn id(number: u32) -> Id {
    Id::new(number).unwrap_or_default()
}

fn at(last: u8) -> Peer {
    Peer {
        ip: [10, 0, 0, last],
        port: 7000,
    }
}

fn assert_whole<R: Abort>(rt: &R, config: &Config) {
    assert_same(rt, &config.listen, &at(1));
    assert_same(rt, &config.control.as_str(), &"/tmp/swimd.sock");
    assert_same(rt, &(config.tick_ms, config.journal), &(1000, 1000));
    assert_same(rt, &config.seed, &[0; 32]);
    assert!(rt; config.files.dir.is_none());
    assert_opening(rt, config);
}

fn assert_opening<R: Abort>(rt: &R, config: &Config) {
    let opening = &config.opening;
    assert_same(rt, &(opening.me(), opening.last()), &(id(1), 0));
    assert_same(
        rt,
        &(opening.k(), opening.rtt(), opening.period()),
        &(1, 1, 3),
    );
    let rows = opening.rows();
    assert_same(rt, &rows.len(), &2);
    for (row, last) in rows.iter().zip([3, 2]) {
        assert_same(rt, &(row.id, row.peer), &(id(u32::from(last)), at(last)));
    }
}

fn assert_read<R: Abort>(rt: &R, answer: Result<Config, ConfigFault>) {
    match answer {
        Ok(config) => assert_whole(rt, &config),
        Err(_) => panic!(rt; "a configuration"),
    }
}

fn tell(rt: &HostRuntime, refused: bool) -> Result<(), Fail> {
    if refused {
        println!(rt; "a call was refused")?;
    }
    Ok(())
}

#[test]
fn a_configuration_is_read_again(rt: HostRuntime) -> Result<(), Fail> {
    let answer = read_config(rt.alloc(), WHOLE);
    let refused = matches!(answer, Err(ConfigFault::NoMemory));
    let answer = if refused {
        read_config(rt.alloc(), WHOLE)
    } else {
        answer
    };
    assert_read(&rt, answer);
    tell(&rt, refused)
}

// The same without its line of `rtt`.
#[test]
fn a_fault_is_told_again(rt: HostRuntime) -> Result<(), Fail> {
    let text =
        b"id = 1\nlisten = \"10.0.0.1:7000\"\ncontrol = \"/tmp/swimd.sock\"\nk = 1\nperiod = 3\n";
    let answer = read_config(rt.alloc(), text);
    let refused = matches!(answer, Err(ConfigFault::NoMemory));
    let answer = if refused {
        read_config(rt.alloc(), text)
    } else {
        answer
    };
    assert!(rt; matches!(answer, Err(ConfigFault::Missing(ConfigKey::Rtt))));
    tell(&rt, refused)
}
