use crate::budget_of;

#[test]
fn words_are_budgets(rt: HostRuntime) {
    for (word, budget) in [
        ("1", Some(1)),
        ("00000019", Some(19)),
        ("10000000", Some(10_000_000)),
        ("10000001", None),
        ("0", None),
        ("", None),
        ("000000001", None),
        ("1a", None),
        ("-1", None),
    ] {
        assert_eq!(rt; budget_of(word.as_bytes()), budget, "{word}");
    }
}
