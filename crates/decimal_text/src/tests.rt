use super::*;

// By hand from the rule of no leading zero: a text, whether it is a decimal, and its number below 2^64.
const TEXTS: [(&[u8], bool, Option<u64>); 24] = [
    (b"0", true, Some(0)),
    (b"1", true, Some(1)),
    (b"9", true, Some(9)),
    (b"10", true, Some(10)),
    (b"4096", true, Some(4096)),
    (b"1234567890", true, Some(1_234_567_890)),
    (b"18446744073709551615", true, Some(u64::MAX)),
    (b"18446744073709551616", true, None),
    (b"18446744073709551625", true, None),
    (b"99999999999999999999", true, None),
    (b"100000000000000000000000000001", true, None),
    (b"", false, None),
    (b"00", false, None),
    (b"01", false, None),
    (b"007", false, None),
    (b"+5", false, None),
    (b"-5", false, None),
    (b" 5", false, None),
    (b"5 ", false, None),
    (b"5a", false, None),
    (b"1.0", false, None),
    (b"0x10", false, None),
    (b"1_000", false, None),
    (b"5\xb2", false, None),
];

#[test]
fn numbers_of_texts(rt: HostRuntime) {
    for (text, decimal, number) in TEXTS {
        assert_eq!(rt; is_decimal(text), decimal, "at {text:?}");
        assert_eq!(rt; number_of(text), number, "at {text:?}");
        if is_decimal(text) {
            assert_eq!(rt; value(text), number, "at {text:?}");
        }
    }
}
