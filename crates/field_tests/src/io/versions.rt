// Server versions, among them those of the Rust crate's own test (see `LICENSE-mysql_common`).

use mysql_wire::misc::split_version;

type Version = (u8, u8, u8);

const VERSIONS: &[(&[u8], Version)] = &[
    (b"1.2.3", (1, 2, 3)),
    (b"10.20.30foo", (10, 20, 30)),
    (b"100.200.300foo", (0, 0, 0)),
    (b"1.2", (0, 0, 0)),
    (b"1.2.3.4", (1, 2, 3)),
    (b"1,2.3", (0, 0, 0)),
    (b"+1.-0.3", (1, 0, 3)),
    (b"1", (0, 0, 0)),
    (b"100.200foo", (0, 0, 0)),
    (b"1.2.", (0, 0, 0)),
    (b"1..3", (0, 0, 0)),
    (b"-1.2.3", (0, 0, 0)),
    (b"++1.2.3", (0, 0, 0)),
    (b"1.2.+3", (0, 0, 0)),
    (b"1.2.256", (0, 0, 0)),
    (b"0001.002.3foo.9", (1, 2, 3)),
    (b"255.255.255", (255, 255, 255)),
    (b"", (0, 0, 0)),
    (b"8.0.36-log", (8, 0, 36)),
    (b"1.+2.3", (1, 2, 3)),
    (b"9.-0.1a", (9, 0, 1)),
    (b"1.2.3+", (1, 2, 3)),
    (b"1.-2.3", (0, 0, 0)),
    (b".1.2", (0, 0, 0)),
    (b"1.2.-0", (0, 0, 0)),
];

#[test]
fn versions_are_split(rt: HostRuntime) {
    let mut all = true;
    for (text, version) in VERSIONS {
        all &= split_version(*text) == *version;
    }
    assert!(rt; all);
}
