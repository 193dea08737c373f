//! Tables of maps.
use crate::fixtures::{Faulty, Map, Row, assert_faults, assert_rows, table_of};
use prop_data::{PropertyDatabase, TableErrorKind};
use row_fixtures::EVERY_KIND;

/// A map, a code point and the number of its value, if the text has the map.
type Value = (Map, u32, Option<u32>);

impl Row for Value {
    fn holds(&self, database: &PropertyDatabase) -> bool {
        let (map, code_point, expected) = *self;
        match database.map(table_of(map)) {
            Some(map) => expected == Some(map.get32(code_point)),
            None => expected.is_none(),
        }
    }
}

const MAPS: &str = "map Script 103\n41-5A 25\n61-7A 0025\n30FC 0\nset Dash\n2D\n\
    map General_Category 29\nmap Bidi_Mirroring_Glyph 0\n28 6291497\nend";

const VALUES: &[Value] = &[
    (Map::Script, 0x40, Some(103)),
    (Map::Script, 0x41, Some(25)),
    (Map::Script, 0x5A, Some(25)),
    (Map::Script, 0x5B, Some(103)),
    (Map::Script, 0x7A, Some(25)),
    (Map::Script, 0x30FC, Some(0)),
    (Map::Script, 0x10_FFFF, Some(103)),
    (Map::Script, 0x11_0000, Some(103)),
    (Map::Category, 0, Some(29)),
    (Map::Category, 0x10_FFFF, Some(29)),
    (Map::Category, 0x11_0000, Some(0)),
    (Map::Glyph, 0x28, Some(0x60_0029)),
    (Map::Block, 0x28, None),
];

#[test]
fn maps_are_read(rt: HostRuntime) {
    assert_rows(&rt, rt.alloc(), MAPS, VALUES);
}

const EVERY_VALUE: &[Value] = &[
    (Map::Category, 0x2F, Some(0)),
    (Map::Category, 0x39, Some(9)),
    (Map::Category, 0x61, Some(2)),
    (Map::Category, 0xD800, Some(18)),
    (Map::Script, 0x3096, Some(20)),
    (Map::Script, 0x3097, Some(103)),
    (Map::Class, 0x314, Some(230)),
    (Map::Class, 0x315, Some(0)),
    (Map::Glyph, 0x28, None),
];

#[test]
fn maps_of_a_text_of_every_kind_are_read(rt: HostRuntime) {
    assert_rows(&rt, rt.alloc(), EVERY_KIND, EVERY_VALUE);
}

/// Numbers that a property has no value for, and misspelled, large or disordered ranges.
const FAULTS: &[Faulty] = &[
    ("map General_Category 30", 1, TableErrorKind::ValueOutOfType),
    ("map Block 65536", 1, TableErrorKind::ValueOutOfType),
    (
        "map Bidi_Mirroring_Glyph 4294967296",
        1,
        TableErrorKind::ValueOutOfType,
    ),
    (
        "map Bidi_Mirroring_Glyph 12582912",
        1,
        TableErrorKind::ValueOutOfType,
    ),
    (
        "map Bidi_Mirroring_Glyph 55296",
        1,
        TableErrorKind::ValueOutOfType,
    ),
    ("map Script 12345678901", 1, TableErrorKind::BadNumber),
    ("map Script -1", 1, TableErrorKind::BadNumber),
    (
        "map Script 0\nset Dash\nmap Script 0",
        3,
        TableErrorKind::TableTwice,
    ),
    ("map Script 0\n41 2G", 2, TableErrorKind::BadNumber),
    ("map Script 0\n4G 65536", 2, TableErrorKind::BadNumber),
    ("map Script 0\n110000 65536", 2, TableErrorKind::TooLarge),
    (
        "map Script 0\n41 1\n41 65536",
        3,
        TableErrorKind::RangeOrder,
    ),
    ("map Script 0\n41 65536", 2, TableErrorKind::ValueOutOfType),
    (
        "map Line_Break 0\n41 256",
        2,
        TableErrorKind::ValueOutOfType,
    ),
];

#[test]
fn faults_of_maps_are_told(rt: HostRuntime) {
    assert_faults(&rt, rt.alloc(), FAULTS);
}
