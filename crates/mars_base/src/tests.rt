use crate::{ClusterShape, is_name, is_shape};

#[test]
fn names_by_rows(rt: HostRuntime) {
    for (name, is_one) in [
        ("a", true),
        ("_", true),
        ("Z9_", true),
        ("abcdefghijklmnopqrstuvwxyz01234", true),
        ("abcdefghijklmnopqrstuvwxyz012345", false),
        ("", false),
        ("9a", false),
        ("a.b", false),
        ("a b", false),
        ("\u{e4}", false),
        ("[", false),
        ("`", false),
    ] {
        assert_eq!(rt; is_name(name.as_bytes()), is_one);
    }
}

#[test]
fn shapes_by_rows(rt: HostRuntime) {
    for (units, slot_words, precision, cycles_per_tick, round, is_one) in [
        (2, 2, 1, 7, 12, true),
        (2, 2, 1, 7, 11, false),
        (8, 64, 8, 10_000, 1_152, true),
        (8, 64, 8, 10_000, 1_151, false),
        (1, 2, 1, 1, 65_536, true),
        (1, 2, 1, 1, 65_537, false),
        (0, 2, 1, 1, 100, false),
        (9, 2, 1, 1, 100, false),
        (1, 1, 1, 1, 100, false),
        (1, 65, 1, 1, 1_000, false),
        (1, 2, 0, 1, 100, false),
        (1, 2, 9, 1, 100, false),
        (1, 2, 1, 0, 100, false),
        (1, 2, 1, 10_001, 100, false),
    ] {
        let shape = ClusterShape {
            units,
            slot_words,
            precision,
            cycles_per_tick,
            round,
        };
        assert_eq!(rt; is_shape(&shape), is_one);
    }
}
