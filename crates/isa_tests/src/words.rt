//! Values that follow from the names alone: two's complement, little-endian places, and texts.

use pump_words::{
    Line, byte_of, dec, half_of, hex2, hex5, hex8, lt_signed, sign8, sign12, sign13, sign16,
    sign21, sra, with_byte, with_half, write_text,
};

#[test]
fn signs_and_parts_of_words(rt: HostRuntime) {
    let rows = [
        (sign8(0x7F), 127),
        (sign12(0xABC_7FF), 2047),
        (sign12(0x800), 0xFFFF_F800),
        (sign13(0x1FFE), 0xFFFF_FFFE),
        (sign16(0x8000), 0xFFFF_8000),
        (sign21(0x10_0000), 0xFFF0_0000),
        (sra(0x8000_0000, 31), 0xFFFF_FFFF),
        (sra(0x7000_0000, 36), 0x0700_0000),
        (byte_of(0x1234_5678, 1), 0x56),
        (byte_of(0x1234_5678, 7), 0x12),
        (half_of(0x1234_5678, 3), 0x1234),
        (with_byte(0x1234_5678, 2, 0xABCD), 0x12CD_5678),
        (with_half(0x1234_5678, 0, 0xF_ABCD), 0x1234_ABCD),
    ];
    for (found, wanted) in rows {
        assert!(rt; found == wanted, "{found} for {wanted}");
    }
    assert!(rt; lt_signed(0xFFFF_FFFF, 0));
}

#[test]
fn texts_are_appended(rt: HostRuntime) {
    let mut line = Line::new();
    write_text(&mut line, b"stop ");
    hex8(&mut line, 0x0012_ABCF);
    write_text(&mut line, b" ");
    dec(&mut line, 0);
    write_text(&mut line, b" ");
    dec(&mut line, 18446744073709551615);
    write_text(&mut line, b" ");
    hex2(&mut line, 0x0C);
    write_text(&mut line, b" ");
    hex5(&mut line, 0xFFFF_F123);
    assert!(rt; line.as_slice() == b"stop 0012ABCF 0 18446744073709551615 0C FFFFF".as_slice());
}
