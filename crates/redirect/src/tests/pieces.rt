//! Words of a held piece.

use crate::{piece_bytes, word_in_piece};
use std::test::Fail;

// Three sectors, byte i of which is i mod 251, so that no two places look alike by chance.
fn counting() -> [u8; 1536] {
    let mut bytes = [0; 1536];
    for (i, byte) in bytes.iter_mut().enumerate() {
        *byte = (i % 251) as u8;
    }
    bytes
}

#[test]
fn words_of_a_piece(rt: HostRuntime) -> Result<(), Fail> {
    let bytes = counting();
    // Of a piece from sector 40 on: a sector, the words left of it, the place of the word's low byte, and the word.
    // Byte 0 is 0, byte 510 is 510 - 502 = 8, byte 512 is 10, and byte 1534 is 1534 - 1506 = 28.
    let cases: [(u64, u16, usize, u16); 6] = [
        (40, 256, 0, 0x0100),
        (40, 255, 2, 0x0302),
        (40, 1, 510, 0x0908),
        (41, 256, 512, 0x0b0a),
        (41, 2, 1020, 0x1110),
        (42, 1, 1534, 0x1d1c),
    ];
    for (sector, left, place, word) in cases {
        assert_eq!(rt;
            word_in_piece(&bytes, 40, sector, left),
            word,
            "sector {sector}, {left} left"
        );
        let low = piece_bytes(&bytes, 40, sector)[place % 512];
        assert_eq!(rt;
            u16::from(low),
            word % 256,
            "sector {sector}, place {place}"
        );
    }
    Ok(())
}
