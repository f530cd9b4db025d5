// Words as they stand in files.
use crate::Kind;

#[test]
fn kinds_and_stray_bits(rt: HostRuntime) {
    let rows = [
        (0x1000_FFFF, Kind::Gate, false),
        (0x1001_0000, Kind::Gate, true),
        (0x2000_4000, Kind::Wire, true),
        (0x40FF_FFFF, Kind::Clock, false),
        (0x6080_0000, Kind::Label, true),
        (0x8000_0200, Kind::Limited, true),
        (0x8C00_03FF, Kind::Limited, false),
        (0x9000_0000, Kind::Other, false),
    ];
    for (word, kind, stray) in rows {
        assert_eq!(rt;
            (crate::kind_of(word), crate::has_stray(word)),
            (kind, stray)
        );
    }
}

#[test]
fn made_words(rt: HostRuntime) {
    let rows = [
        (Some(crate::gate_word(1)), Some(0x1000_0001)),
        (crate::wire_word(1, 3), Some(0x2000_0083)),
        (crate::wire_word(1, 128), None),
        (crate::fill_word(1, 1, 0, 255), Some(0x3001_00FF)),
        (crate::clock_word(3), Some(0x4000_0003)),
        (crate::end_word(7), Some(7)),
    ];
    for (made, word) in rows {
        assert_eq!(rt; made, word);
    }
}

#[test]
fn records_of_words(rt: HostRuntime) {
    let words = [0x1000_0001, 0x2000_0083, 0x3001_00FF, 0x4000_0003, 4];
    assert_eq!(rt; crate::reader::records(&words).count(), 3);
}
