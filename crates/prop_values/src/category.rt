//! The general category.
ghost use Rattle.std.specs.Prelude.{◌≡◌};
ghost use Rattle.prop_values.specs.declared.category.GeneralCategory.TheVariants.{Unassigned};
ghost use Rattle.prop_values.specs.Category.{category_of, number_of, AnswersCategory};
ghost use Rattle.prop_values.specs.CategoryLaws.{category_of-again, same_category, category_of-accepted, default_number_of};

use crate::property::{EnumeratedProperty, ParseableEnumeratedProperty};
use crate::tables::{MapTable, NamesTable};
use cp_trie::{TrieValue, ValueError};
use thiserror::Error;

/// The general category of a code point (UAX 44, section 5.7.1), with the numbers of ICU.
#[derive(Clone, Copy, Debug, PartialEq, Eq, PartialOrd, Ord, Hash)]
pub enum GeneralCategory {
    /// `Cn`.
    Unassigned = 0,
    /// `Lu`.
    UppercaseLetter = 1,
    /// `Ll`.
    LowercaseLetter = 2,
    /// `Lt`.
    TitlecaseLetter = 3,
    /// `Lm`.
    ModifierLetter = 4,
    /// `Lo`.
    OtherLetter = 5,
    /// `Mn`.
    NonspacingMark = 6,
    /// `Me`.
    EnclosingMark = 7,
    /// `Mc`.
    SpacingMark = 8,
    /// `Nd`.
    DecimalNumber = 9,
    /// `Nl`.
    LetterNumber = 10,
    /// `No`.
    OtherNumber = 11,
    /// `Zs`.
    SpaceSeparator = 12,
    /// `Zl`.
    LineSeparator = 13,
    /// `Zp`.
    ParagraphSeparator = 14,
    /// `Cc`.
    Control = 15,
    /// `Cf`.
    Format = 16,
    /// `Co`.
    PrivateUse = 17,
    /// `Cs`.
    Surrogate = 18,
    /// `Pd`.
    DashPunctuation = 19,
    /// `Ps`.
    OpenPunctuation = 20,
    /// `Pe`.
    ClosePunctuation = 21,
    /// `Pc`.
    ConnectorPunctuation = 22,
    /// `Po`.
    OtherPunctuation = 23,
    /// `Sm`.
    MathSymbol = 24,
    /// `Sc`.
    CurrencySymbol = 25,
    /// `Sk`.
    ModifierSymbol = 26,
    /// `So`.
    OtherSymbol = 27,
    /// `Pi`.
    InitialPunctuation = 28,
    /// `Pf`.
    FinalPunctuation = 29,
}

/// A number above 29, which is that of no general category.
#[derive(Clone, Copy, Debug, Drop, PartialEq, Eq, PartialOrd, Ord, Hash, Default, Error)]
#[error("GeneralCategoryOutOfBoundsError")]
pub struct GeneralCategoryOutOfBoundsError;

/// The categories in the order of their numbers.
const CATEGORIES: [GeneralCategory; 30] = [
    GeneralCategory::Unassigned,
    GeneralCategory::UppercaseLetter,
    GeneralCategory::LowercaseLetter,
    GeneralCategory::TitlecaseLetter,
    GeneralCategory::ModifierLetter,
    GeneralCategory::OtherLetter,
    GeneralCategory::NonspacingMark,
    GeneralCategory::EnclosingMark,
    GeneralCategory::SpacingMark,
    GeneralCategory::DecimalNumber,
    GeneralCategory::LetterNumber,
    GeneralCategory::OtherNumber,
    GeneralCategory::SpaceSeparator,
    GeneralCategory::LineSeparator,
    GeneralCategory::ParagraphSeparator,
    GeneralCategory::Control,
    GeneralCategory::Format,
    GeneralCategory::PrivateUse,
    GeneralCategory::Surrogate,
    GeneralCategory::DashPunctuation,
    GeneralCategory::OpenPunctuation,
    GeneralCategory::ClosePunctuation,
    GeneralCategory::ConnectorPunctuation,
    GeneralCategory::OtherPunctuation,
    GeneralCategory::MathSymbol,
    GeneralCategory::CurrencySymbol,
    GeneralCategory::ModifierSymbol,
    GeneralCategory::OtherSymbol,
    GeneralCategory::InitialPunctuation,
    GeneralCategory::FinalPunctuation,
];

/// The category of the number, which is at most 29.
fn category_at(number: usize) -> Option<GeneralCategory>
    ensures { result ≡ category_of number }
{
    CATEGORIES.get(number).copied()
}

impl TryFrom<u8> for GeneralCategory {
    type Error = GeneralCategoryOutOfBoundsError;

    ghost try_from_gives = { AnswersCategory };

    /// The category of the number, which is at most 29.
    fn try_from(value: u8) -> Result<GeneralCategory, GeneralCategoryOutOfBoundsError> {
        category_at(usize::from(value)).ok_or(GeneralCategoryOutOfBoundsError)
    }
}

impl Default for GeneralCategory {
    ghost is_default = { λ category. category ≡ Unassigned };

    fn default() -> GeneralCategory {
        GeneralCategory::Unassigned
    }
}

impl TrieValue for GeneralCategory {
    ghost unpacked = { category_of };

    ghost packed = { number_of };

    ghost unpacks_again = { category_of-again };

    ghost eq_is_same = { same_category };

    fn try_from_u32(i: u32) -> Result<GeneralCategory, ValueError> {
        category_at(i as usize).ok_or(ValueError { value: i })
    }

    fn to_u32(self) -> u32 {
        self as u32
    }
}

impl EnumeratedProperty for GeneralCategory {
    ghost TABLE = { 3 };

    const NAME: &'static [u8] = b"General_Category";

    const SHORT_NAME: &'static [u8] = b"gc";

    const TABLE: MapTable = MapTable::GENERAL_CATEGORY;

    ghost accepted = { λ n _. category_of-accepted n };

    ghost default_packed = { default_number_of };
}

impl ParseableEnumeratedProperty for GeneralCategory {
    ghost NAMES = { 3 };

    const NAMES: NamesTable = NamesTable::GENERAL_CATEGORY;

    ghost names_accepted = { λ n _. category_of-accepted n };
}
