//! The types of the properties that stand for POSIX character classes (UTS 18, annex C).
use crate::property::BinaryProperty;
use crate::table::SetTable;

/// The property `alnum`.
#[derive(Debug)]
pub struct Alnum;

impl BinaryProperty for Alnum {
    ghost TABLE = { 1 };

    const NAME: &'static [u8] = b"alnum";

    const SHORT_NAME: &'static [u8] = b"alnum";

    const TABLE: SetTable = SetTable::ALNUM;
}

/// The property `blank`.
#[derive(Debug)]
pub struct Blank;

impl BinaryProperty for Blank {
    ghost TABLE = { 5 };

    const NAME: &'static [u8] = b"blank";

    const SHORT_NAME: &'static [u8] = b"blank";

    const TABLE: SetTable = SetTable::BLANK;
}

/// The property `graph`.
#[derive(Debug)]
pub struct Graph;

impl BinaryProperty for Graph {
    ghost TABLE = { 26 };

    const NAME: &'static [u8] = b"graph";

    const SHORT_NAME: &'static [u8] = b"graph";

    const TABLE: SetTable = SetTable::GRAPH;
}

/// The property `print`.
#[derive(Debug)]
pub struct Print;

impl BinaryProperty for Print {
    ghost TABLE = { 53 };

    const NAME: &'static [u8] = b"print";

    const SHORT_NAME: &'static [u8] = b"print";

    const TABLE: SetTable = SetTable::PRINT;
}

/// The property `xdigit`.
#[derive(Debug)]
pub struct Xdigit;

impl BinaryProperty for Xdigit {
    ghost TABLE = { 66 };

    const NAME: &'static [u8] = b"xdigit";

    const SHORT_NAME: &'static [u8] = b"xdigit";

    const TABLE: SetTable = SetTable::XDIGIT;
}
