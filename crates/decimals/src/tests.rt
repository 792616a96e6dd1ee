//! Worked decimals.
use crate::read_decimal;

#[test]
fn decimals_are_read_in_units(rt: HostRuntime) {
    for (text, want) in [
        ("0", Some(0)),
        ("-0.0", Some(0)),
        ("+1", Some(1_000_000_000_000)),
        (".5", Some(500_000_000_000)),
        ("007.", Some(7_000_000_000_000)),
        ("-34.31457505076198", Some(-34_314_575_050_761)),
        ("1.4210854715202004E-14", Some(0)),
        ("-1e-12", Some(-1)),
        ("-1.9e-12", Some(-1)),
        ("19999e-016", Some(1)),
        ("2e+2", Some(200_000_000_000_000)),
        ("1e18", Some(1_000_000_000_000_000_000_000_000_000_000)),
        ("-2E999", Some(-1_000_000_000_000_000_000_000_000_000_001)),
        ("0e999", Some(0)),
    ] {
        assert_eq!(rt; read_decimal(text.as_bytes()), want, "{text}");
    }
}

#[test]
fn other_words_are_no_decimals(rt: HostRuntime) {
    for text in [
        "", "+", ".", "-.", "e5", ".e5", "1e", "1e+", "1e1000", "1e0001", "1.2.3", "--1", "1-",
        " 1", "0x1", "1e5.", "1,5",
    ] {
        assert_eq!(rt; read_decimal(text.as_bytes()), None, "{text}");
    }
}
