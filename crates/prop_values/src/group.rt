//! Groups of general categories.
ghost use Rattle.std.specs.Prelude.{◌≡◌, ◌<◌, ◌+◌, ◌%◌, ◌^◌, ◌&&◌, ◌||◌, ℕ, not, true, false, map};
ghost use Rattle.prop_values.specs.Category.{number_of};
ghost use Rattle.prop_values.specs.Groups.{has, named_groups, packed_group, unpacked_group, number_in, bits_in};
ghost use Rattle.prop_values.specs.GroupLaws.{unpacked_group-again, unpacked_group-is_some};
ghost use Rattle.cp_trie.specs.ValueLaws.{nat_eq-same};
ghost use Rattle.prop_values.specs.declared.category.GeneralCategory.{GeneralCategory};

use crate::category::GeneralCategory;
use crate::property::ParseableEnumeratedProperty;
use crate::tables::NamesTable;
use cp_trie::{TrieValue, ValueError, ValueTest};
use std::marker::Model;

/// A set of general categories (UAX 44, section 5.7.1). `u32::from` gives the number that has the bit of each of its
/// categories, and no other: a contract sees it as that number. `to_u32` of `TrieValue` gives the number that stands for it
/// in tables: one of its own for each of 38 groups, and for all others FF00, which unpacks to the empty group.
#[derive(Clone, Copy, Debug, PartialEq, Eq)]
pub struct GeneralCategoryGroup(u32);

impl Model for GeneralCategoryGroup {
    ghost Value = { ℕ };

    ghost view = { λ group. group.0 };

    ghost invariant = { λ group. group.0 < 2 ^ 30 };

    ghost inverse = { λ bits. record { 0 = bits } };
}

/// The bits of all categories.
const ALL: u32 = 0x3FFF_FFFF;

/// The number of the groups that have none of their own.
const OTHERS: u16 = 0xFF00;

/// The groups that have a number of their own, each behind that number.
const PACKINGS: [(u16, u32); 38] = [
    (0, 1 << 0),
    (1, 1 << 1),
    (2, 1 << 2),
    (3, 1 << 3),
    (4, 1 << 4),
    (5, 1 << 5),
    (6, 1 << 6),
    (7, 1 << 7),
    (8, 1 << 8),
    (9, 1 << 9),
    (10, 1 << 10),
    (11, 1 << 11),
    (12, 1 << 12),
    (13, 1 << 13),
    (14, 1 << 14),
    (15, 1 << 15),
    (16, 1 << 16),
    (17, 1 << 17),
    (18, 1 << 18),
    (19, 1 << 19),
    (20, 1 << 20),
    (21, 1 << 21),
    (22, 1 << 22),
    (23, 1 << 23),
    (24, 1 << 24),
    (25, 1 << 25),
    (26, 1 << 26),
    (27, 1 << 27),
    (28, 1 << 28),
    (29, 1 << 29),
    (0xFFFF, 0xE),
    (0xFFFE, 0x3E),
    (0xFFFD, 0x1C0),
    (0xFFFC, 0xE00),
    (0xFFFB, 0x7000),
    (0xFFFA, 0x7_8001),
    (0xFFF9, 0x30F8_0000),
    (0xFFF8, 0x0F00_0000),
];

/// The short names with their groups.
const NAMES: [(&str, GeneralCategoryGroup); 38] = [
    ("Lu", GeneralCategoryGroup::Lu),
    ("Ll", GeneralCategoryGroup::Ll),
    ("Lt", GeneralCategoryGroup::Lt),
    ("Lm", GeneralCategoryGroup::Lm),
    ("Lo", GeneralCategoryGroup::Lo),
    ("LC", GeneralCategoryGroup::LC),
    ("L", GeneralCategoryGroup::L),
    ("Mn", GeneralCategoryGroup::Mn),
    ("Me", GeneralCategoryGroup::Me),
    ("Mc", GeneralCategoryGroup::Mc),
    ("M", GeneralCategoryGroup::M),
    ("Nd", GeneralCategoryGroup::Nd),
    ("Nl", GeneralCategoryGroup::Nl),
    ("No", GeneralCategoryGroup::No),
    ("N", GeneralCategoryGroup::N),
    ("Zs", GeneralCategoryGroup::Zs),
    ("Zl", GeneralCategoryGroup::Zl),
    ("Zp", GeneralCategoryGroup::Zp),
    ("Z", GeneralCategoryGroup::Z),
    ("Cc", GeneralCategoryGroup::Cc),
    ("Cf", GeneralCategoryGroup::Cf),
    ("Co", GeneralCategoryGroup::Co),
    ("Cs", GeneralCategoryGroup::Cs),
    ("Cn", GeneralCategoryGroup::Cn),
    ("C", GeneralCategoryGroup::C),
    ("Pd", GeneralCategoryGroup::Pd),
    ("Ps", GeneralCategoryGroup::Ps),
    ("Pe", GeneralCategoryGroup::Pe),
    ("Pc", GeneralCategoryGroup::Pc),
    ("Pi", GeneralCategoryGroup::Pi),
    ("Pf", GeneralCategoryGroup::Pf),
    ("Po", GeneralCategoryGroup::Po),
    ("P", GeneralCategoryGroup::P),
    ("Sm", GeneralCategoryGroup::Sm),
    ("Sc", GeneralCategoryGroup::Sc),
    ("Sk", GeneralCategoryGroup::Sk),
    ("So", GeneralCategoryGroup::So),
    ("S", GeneralCategoryGroup::S),
];

impl GeneralCategoryGroup {
    /// `Unassigned` (`Cn`).
    pub const Unassigned: GeneralCategoryGroup = GeneralCategoryGroup(1 << 0);

    /// `Unassigned` (`Cn`).
    pub const Cn: GeneralCategoryGroup = GeneralCategoryGroup::Unassigned;

    /// `Uppercase_Letter` (`Lu`).
    pub const UppercaseLetter: GeneralCategoryGroup = GeneralCategoryGroup(1 << 1);

    /// `Uppercase_Letter` (`Lu`).
    pub const Lu: GeneralCategoryGroup = GeneralCategoryGroup::UppercaseLetter;

    /// `Lowercase_Letter` (`Ll`).
    pub const LowercaseLetter: GeneralCategoryGroup = GeneralCategoryGroup(1 << 2);

    /// `Lowercase_Letter` (`Ll`).
    pub const Ll: GeneralCategoryGroup = GeneralCategoryGroup::LowercaseLetter;

    /// `Titlecase_Letter` (`Lt`).
    pub const TitlecaseLetter: GeneralCategoryGroup = GeneralCategoryGroup(1 << 3);

    /// `Titlecase_Letter` (`Lt`).
    pub const Lt: GeneralCategoryGroup = GeneralCategoryGroup::TitlecaseLetter;

    /// `Modifier_Letter` (`Lm`).
    pub const ModifierLetter: GeneralCategoryGroup = GeneralCategoryGroup(1 << 4);

    /// `Modifier_Letter` (`Lm`).
    pub const Lm: GeneralCategoryGroup = GeneralCategoryGroup::ModifierLetter;

    /// `Other_Letter` (`Lo`).
    pub const OtherLetter: GeneralCategoryGroup = GeneralCategoryGroup(1 << 5);

    /// `Other_Letter` (`Lo`).
    pub const Lo: GeneralCategoryGroup = GeneralCategoryGroup::OtherLetter;

    /// `Nonspacing_Mark` (`Mn`).
    pub const NonspacingMark: GeneralCategoryGroup = GeneralCategoryGroup(1 << 6);

    /// `Nonspacing_Mark` (`Mn`).
    pub const Mn: GeneralCategoryGroup = GeneralCategoryGroup::NonspacingMark;

    /// `Enclosing_Mark` (`Me`).
    pub const EnclosingMark: GeneralCategoryGroup = GeneralCategoryGroup(1 << 7);

    /// `Enclosing_Mark` (`Me`).
    pub const Me: GeneralCategoryGroup = GeneralCategoryGroup::EnclosingMark;

    /// `Spacing_Mark` (`Mc`).
    pub const SpacingMark: GeneralCategoryGroup = GeneralCategoryGroup(1 << 8);

    /// `Spacing_Mark` (`Mc`).
    pub const Mc: GeneralCategoryGroup = GeneralCategoryGroup::SpacingMark;

    /// `Decimal_Number` (`Nd`).
    pub const DecimalNumber: GeneralCategoryGroup = GeneralCategoryGroup(1 << 9);

    /// `Decimal_Number` (`Nd`).
    pub const Nd: GeneralCategoryGroup = GeneralCategoryGroup::DecimalNumber;

    /// `Letter_Number` (`Nl`).
    pub const LetterNumber: GeneralCategoryGroup = GeneralCategoryGroup(1 << 10);

    /// `Letter_Number` (`Nl`).
    pub const Nl: GeneralCategoryGroup = GeneralCategoryGroup::LetterNumber;

    /// `Other_Number` (`No`).
    pub const OtherNumber: GeneralCategoryGroup = GeneralCategoryGroup(1 << 11);

    /// `Other_Number` (`No`).
    pub const No: GeneralCategoryGroup = GeneralCategoryGroup::OtherNumber;

    /// `Space_Separator` (`Zs`).
    pub const SpaceSeparator: GeneralCategoryGroup = GeneralCategoryGroup(1 << 12);

    /// `Space_Separator` (`Zs`).
    pub const Zs: GeneralCategoryGroup = GeneralCategoryGroup::SpaceSeparator;

    /// `Line_Separator` (`Zl`).
    pub const LineSeparator: GeneralCategoryGroup = GeneralCategoryGroup(1 << 13);

    /// `Line_Separator` (`Zl`).
    pub const Zl: GeneralCategoryGroup = GeneralCategoryGroup::LineSeparator;

    /// `Paragraph_Separator` (`Zp`).
    pub const ParagraphSeparator: GeneralCategoryGroup = GeneralCategoryGroup(1 << 14);

    /// `Paragraph_Separator` (`Zp`).
    pub const Zp: GeneralCategoryGroup = GeneralCategoryGroup::ParagraphSeparator;

    /// `Control` (`Cc`).
    pub const Control: GeneralCategoryGroup = GeneralCategoryGroup(1 << 15);

    /// `Control` (`Cc`).
    pub const Cc: GeneralCategoryGroup = GeneralCategoryGroup::Control;

    /// `Format` (`Cf`).
    pub const Format: GeneralCategoryGroup = GeneralCategoryGroup(1 << 16);

    /// `Format` (`Cf`).
    pub const Cf: GeneralCategoryGroup = GeneralCategoryGroup::Format;

    /// `Private_Use` (`Co`).
    pub const PrivateUse: GeneralCategoryGroup = GeneralCategoryGroup(1 << 17);

    /// `Private_Use` (`Co`).
    pub const Co: GeneralCategoryGroup = GeneralCategoryGroup::PrivateUse;

    /// `Surrogate` (`Cs`).
    pub const Surrogate: GeneralCategoryGroup = GeneralCategoryGroup(1 << 18);

    /// `Surrogate` (`Cs`).
    pub const Cs: GeneralCategoryGroup = GeneralCategoryGroup::Surrogate;

    /// `Dash_Punctuation` (`Pd`).
    pub const DashPunctuation: GeneralCategoryGroup = GeneralCategoryGroup(1 << 19);

    /// `Dash_Punctuation` (`Pd`).
    pub const Pd: GeneralCategoryGroup = GeneralCategoryGroup::DashPunctuation;

    /// `Open_Punctuation` (`Ps`).
    pub const OpenPunctuation: GeneralCategoryGroup = GeneralCategoryGroup(1 << 20);

    /// `Open_Punctuation` (`Ps`).
    pub const Ps: GeneralCategoryGroup = GeneralCategoryGroup::OpenPunctuation;

    /// `Close_Punctuation` (`Pe`).
    pub const ClosePunctuation: GeneralCategoryGroup = GeneralCategoryGroup(1 << 21);

    /// `Close_Punctuation` (`Pe`).
    pub const Pe: GeneralCategoryGroup = GeneralCategoryGroup::ClosePunctuation;

    /// `Connector_Punctuation` (`Pc`).
    pub const ConnectorPunctuation: GeneralCategoryGroup = GeneralCategoryGroup(1 << 22);

    /// `Connector_Punctuation` (`Pc`).
    pub const Pc: GeneralCategoryGroup = GeneralCategoryGroup::ConnectorPunctuation;

    /// `Other_Punctuation` (`Po`).
    pub const OtherPunctuation: GeneralCategoryGroup = GeneralCategoryGroup(1 << 23);

    /// `Other_Punctuation` (`Po`).
    pub const Po: GeneralCategoryGroup = GeneralCategoryGroup::OtherPunctuation;

    /// `Math_Symbol` (`Sm`).
    pub const MathSymbol: GeneralCategoryGroup = GeneralCategoryGroup(1 << 24);

    /// `Math_Symbol` (`Sm`).
    pub const Sm: GeneralCategoryGroup = GeneralCategoryGroup::MathSymbol;

    /// `Currency_Symbol` (`Sc`).
    pub const CurrencySymbol: GeneralCategoryGroup = GeneralCategoryGroup(1 << 25);

    /// `Currency_Symbol` (`Sc`).
    pub const Sc: GeneralCategoryGroup = GeneralCategoryGroup::CurrencySymbol;

    /// `Modifier_Symbol` (`Sk`).
    pub const ModifierSymbol: GeneralCategoryGroup = GeneralCategoryGroup(1 << 26);

    /// `Modifier_Symbol` (`Sk`).
    pub const Sk: GeneralCategoryGroup = GeneralCategoryGroup::ModifierSymbol;

    /// `Other_Symbol` (`So`).
    pub const OtherSymbol: GeneralCategoryGroup = GeneralCategoryGroup(1 << 27);

    /// `Other_Symbol` (`So`).
    pub const So: GeneralCategoryGroup = GeneralCategoryGroup::OtherSymbol;

    /// `Initial_Punctuation` (`Pi`).
    pub const InitialPunctuation: GeneralCategoryGroup = GeneralCategoryGroup(1 << 28);

    /// `Initial_Punctuation` (`Pi`).
    pub const Pi: GeneralCategoryGroup = GeneralCategoryGroup::InitialPunctuation;

    /// `Final_Punctuation` (`Pf`).
    pub const FinalPunctuation: GeneralCategoryGroup = GeneralCategoryGroup(1 << 29);

    /// `Final_Punctuation` (`Pf`).
    pub const Pf: GeneralCategoryGroup = GeneralCategoryGroup::FinalPunctuation;

    /// `Lu`, `Ll` and `Lt`.
    pub const CasedLetter: GeneralCategoryGroup = GeneralCategoryGroup(0xE);

    /// `Lu`, `Ll` and `Lt`.
    pub const LC: GeneralCategoryGroup = GeneralCategoryGroup::CasedLetter;

    /// `Lu`, `Ll`, `Lt`, `Lm` and `Lo`.
    pub const Letter: GeneralCategoryGroup = GeneralCategoryGroup(0x3E);

    /// `Lu`, `Ll`, `Lt`, `Lm` and `Lo`.
    pub const L: GeneralCategoryGroup = GeneralCategoryGroup::Letter;

    /// `Mn`, `Me` and `Mc`.
    pub const Mark: GeneralCategoryGroup = GeneralCategoryGroup(0x1C0);

    /// `Mn`, `Me` and `Mc`.
    pub const M: GeneralCategoryGroup = GeneralCategoryGroup::Mark;

    /// `Nd`, `Nl` and `No`.
    pub const Number: GeneralCategoryGroup = GeneralCategoryGroup(0xE00);

    /// `Nd`, `Nl` and `No`.
    pub const N: GeneralCategoryGroup = GeneralCategoryGroup::Number;

    /// `Zs`, `Zl` and `Zp`.
    pub const Separator: GeneralCategoryGroup = GeneralCategoryGroup(0x7000);

    /// `Zs`, `Zl` and `Zp`.
    pub const Z: GeneralCategoryGroup = GeneralCategoryGroup::Separator;

    /// `Cn`, `Cc`, `Cf`, `Co` and `Cs`.
    pub const Other: GeneralCategoryGroup = GeneralCategoryGroup(0x7_8001);

    /// `Cn`, `Cc`, `Cf`, `Co` and `Cs`.
    pub const C: GeneralCategoryGroup = GeneralCategoryGroup::Other;

    /// `Pd`, `Ps`, `Pe`, `Pc`, `Po`, `Pi` and `Pf`.
    pub const Punctuation: GeneralCategoryGroup = GeneralCategoryGroup(0x30F8_0000);

    /// `Pd`, `Ps`, `Pe`, `Pc`, `Po`, `Pi` and `Pf`.
    pub const P: GeneralCategoryGroup = GeneralCategoryGroup::Punctuation;

    /// `Sm`, `Sc`, `Sk` and `So`.
    pub const Symbol: GeneralCategoryGroup = GeneralCategoryGroup(0x0F00_0000);

    /// `Sm`, `Sc`, `Sk` and `So`.
    pub const S: GeneralCategoryGroup = GeneralCategoryGroup::Symbol;

    /// The short names with their groups, the groups of several categories behind their members.
    pub fn names() -> [(&'static str, GeneralCategoryGroup); 38]
        ensures { map (λ row. (row.0.now, row.1)) result ≡ named_groups }
    {
        NAMES
    }

    /// Whether the group has the category.
    pub fn contains(self, val: GeneralCategory) -> bool
        ensures { result ≡ has self val }
    {
        (self.0 >> val.to_u32()) & 1 == 1
    }

    /// The group of the other categories.
    pub fn complement(self) -> GeneralCategoryGroup
        ensures members { (c : GeneralCategory) → has result c ≡ not (has self c) }
        ensures bits { result + self ≡ 0x3FFF_FFFF }
    {
        GeneralCategoryGroup(!self.0 & ALL)
    }

    /// The group of all categories.
    pub fn all() -> GeneralCategoryGroup
        ensures bits { result ≡ 0x3FFF_FFFF }
        ensures members { (c : GeneralCategory) → has result c ≡ true }
    {
        GeneralCategoryGroup(ALL)
    }

    /// The group of no category.
    pub fn empty() -> GeneralCategoryGroup
        ensures bits { result ≡ 0 }
        ensures members { (c : GeneralCategory) → has result c ≡ false }
    {
        GeneralCategoryGroup(0)
    }

    /// The categories that one of the two has.
    pub fn union(self, other: GeneralCategoryGroup) -> GeneralCategoryGroup
        ensures { (c : GeneralCategory) → has result c ≡ (has self c || has other c) }
    {
        GeneralCategoryGroup(self.0 | other.0)
    }

    /// The categories that both have.
    pub fn intersection(self, other: GeneralCategoryGroup) -> GeneralCategoryGroup
        ensures { (c : GeneralCategory) → has result c ≡ (has self c && has other c) }
    {
        GeneralCategoryGroup(self.0 & other.0)
    }
}

impl From<GeneralCategory> for GeneralCategoryGroup {
    ghost from_gives = { λ category group. group ≡ 2 ^ number_of category };

    fn from(category: GeneralCategory) -> GeneralCategoryGroup {
        GeneralCategoryGroup(1 << category.to_u32())
    }
}

impl From<u32> for GeneralCategoryGroup {
    ghost from_gives = { λ bits group. group ≡ bits % 2 ^ 30 };

    /// The group of the categories whose bits the number has. The two bits above all of them are dropped.
    fn from(bits: u32) -> GeneralCategoryGroup {
        GeneralCategoryGroup(bits & ALL)
    }
}

impl From<GeneralCategoryGroup> for u32 {
    ghost from_gives = { λ group bits. (bits ≡ group) × (bits < 2 ^ 30) };

    fn from(group: GeneralCategoryGroup) -> u32 {
        group.0
    }
}

/// The number of the first row with these bits.
fn number_of_bits(rows: &[(u16, u32)], bits: u32) -> u16
    ensures { result ≡ number_in rows.now bits }
{
    for (number, known) in rows {
        if *known == bits {
            return *number;
        }
    }
    OTHERS
}

/// The bits of the first row with this number.
fn bits_of_number(rows: &[(u16, u32)], number: u16) -> u32
    ensures { result ≡ bits_in rows.now number }
{
    for (known, bits) in rows {
        if *known == number {
            return *bits;
        }
    }
    0
}

impl TrieValue for GeneralCategoryGroup {
    ghost unpacked = { unpacked_group };

    ghost packed = { packed_group };

    ghost unpacks_again = { unpacked_group-again };

    ghost eq_is_same = { nat_eq-same };

    fn try_from_u32(i: u32) -> Result<GeneralCategoryGroup, ValueError> {
        match u16::try_from(i) {
            Ok(number) => Ok(GeneralCategoryGroup(bits_of_number(&PACKINGS, number))),
            Err(_) => Err(ValueError { value: i }),
        }
    }

    fn to_u32(self) -> u32 {
        u32::from(number_of_bits(&PACKINGS, self.0))
    }
}

impl ValueTest<GeneralCategory> for GeneralCategoryGroup {
    ghost passes = { has };

    fn passes(&mut self, value: GeneralCategory) -> bool {
        self.contains(value)
    }
}

impl ParseableEnumeratedProperty for GeneralCategoryGroup {
    ghost NAMES = { 17 };

    const NAMES: NamesTable = NamesTable::GENERAL_CATEGORY_MASK;

    ghost names_accepted = { unpacked_group-is_some };
}
