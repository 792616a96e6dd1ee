//! Decimals that were written out by hand.
use crate::put_decimal;

#[test]
fn decimals_are_written_with_twelve_digits(rt: HostRuntime) {
    for (units, text) in [
        (0, "0.000000000000"),
        (1, "0.000000000001"),
        (-1, "-0.000000000001"),
        (999_999_999_999, "0.999999999999"),
        (1_000_000_000_000, "1.000000000000"),
        (-34_314_575_050_762, "-34.314575050762"),
        (-200_000_000_000_000, "-200.000000000000"),
        (i128::MIN, "-170141183460469231731687303.715884105728"),
    ] {
        assert_eq!(rt; put_decimal(units).as_slice(), text.as_bytes(), "{text}");
    }
}
