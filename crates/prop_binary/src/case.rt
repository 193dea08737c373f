//! The types of the binary properties of letter case.
use crate::property::BinaryProperty;
use crate::table::SetTable;

/// The property `Cased`.
#[derive(Debug)]
pub struct Cased;

impl BinaryProperty for Cased {
    ghost TABLE = { 6 };

    const NAME: &'static [u8] = b"Cased";

    const SHORT_NAME: &'static [u8] = b"Cased";

    const TABLE: SetTable = SetTable::CASED;
}

/// The property `Case_Ignorable`.
#[derive(Debug)]
pub struct CaseIgnorable;

impl BinaryProperty for CaseIgnorable {
    ghost TABLE = { 7 };

    const NAME: &'static [u8] = b"Case_Ignorable";

    const SHORT_NAME: &'static [u8] = b"CI";

    const TABLE: SetTable = SetTable::CASE_IGNORABLE;
}

/// The property `Changes_When_Casefolded`.
#[derive(Debug)]
pub struct ChangesWhenCasefolded;

impl BinaryProperty for ChangesWhenCasefolded {
    ghost TABLE = { 9 };

    const NAME: &'static [u8] = b"Changes_When_Casefolded";

    const SHORT_NAME: &'static [u8] = b"CWCF";

    const TABLE: SetTable = SetTable::CHANGES_WHEN_CASEFOLDED;
}

/// The property `Changes_When_Casemapped`.
#[derive(Debug)]
pub struct ChangesWhenCasemapped;

impl BinaryProperty for ChangesWhenCasemapped {
    ghost TABLE = { 10 };

    const NAME: &'static [u8] = b"Changes_When_Casemapped";

    const SHORT_NAME: &'static [u8] = b"CWCM";

    const TABLE: SetTable = SetTable::CHANGES_WHEN_CASEMAPPED;
}

/// The property `Changes_When_NFKC_Casefolded`.
#[derive(Debug)]
pub struct ChangesWhenNfkcCasefolded;

impl BinaryProperty for ChangesWhenNfkcCasefolded {
    ghost TABLE = { 11 };

    const NAME: &'static [u8] = b"Changes_When_NFKC_Casefolded";

    const SHORT_NAME: &'static [u8] = b"CWKCF";

    const TABLE: SetTable = SetTable::CHANGES_WHEN_NFKC_CASEFOLDED;
}

/// The property `Changes_When_Lowercased`.
#[derive(Debug)]
pub struct ChangesWhenLowercased;

impl BinaryProperty for ChangesWhenLowercased {
    ghost TABLE = { 12 };

    const NAME: &'static [u8] = b"Changes_When_Lowercased";

    const SHORT_NAME: &'static [u8] = b"CWL";

    const TABLE: SetTable = SetTable::CHANGES_WHEN_LOWERCASED;
}

/// The property `Changes_When_Titlecased`.
#[derive(Debug)]
pub struct ChangesWhenTitlecased;

impl BinaryProperty for ChangesWhenTitlecased {
    ghost TABLE = { 13 };

    const NAME: &'static [u8] = b"Changes_When_Titlecased";

    const SHORT_NAME: &'static [u8] = b"CWT";

    const TABLE: SetTable = SetTable::CHANGES_WHEN_TITLECASED;
}

/// The property `Changes_When_Uppercased`.
#[derive(Debug)]
pub struct ChangesWhenUppercased;

impl BinaryProperty for ChangesWhenUppercased {
    ghost TABLE = { 14 };

    const NAME: &'static [u8] = b"Changes_When_Uppercased";

    const SHORT_NAME: &'static [u8] = b"CWU";

    const TABLE: SetTable = SetTable::CHANGES_WHEN_UPPERCASED;
}

/// The property `Lowercase`.
#[derive(Debug)]
pub struct Lowercase;

impl BinaryProperty for Lowercase {
    ghost TABLE = { 42 };

    const NAME: &'static [u8] = b"Lowercase";

    const SHORT_NAME: &'static [u8] = b"Lower";

    const TABLE: SetTable = SetTable::LOWERCASE;
}

/// The property `Soft_Dotted`.
#[derive(Debug)]
pub struct SoftDotted;

impl BinaryProperty for SoftDotted {
    ghost TABLE = { 57 };

    const NAME: &'static [u8] = b"Soft_Dotted";

    const SHORT_NAME: &'static [u8] = b"SD";

    const TABLE: SetTable = SetTable::SOFT_DOTTED;
}

/// The property `Case_Sensitive`.
#[derive(Debug)]
pub struct CaseSensitive;

impl BinaryProperty for CaseSensitive {
    ghost TABLE = { 59 };

    const NAME: &'static [u8] = b"Case_Sensitive";

    const SHORT_NAME: &'static [u8] = b"Sensitive";

    const TABLE: SetTable = SetTable::CASE_SENSITIVE;
}

/// The property `Uppercase`.
#[derive(Debug)]
pub struct Uppercase;

impl BinaryProperty for Uppercase {
    ghost TABLE = { 63 };

    const NAME: &'static [u8] = b"Uppercase";

    const SHORT_NAME: &'static [u8] = b"Upper";

    const TABLE: SetTable = SetTable::UPPERCASE;
}
