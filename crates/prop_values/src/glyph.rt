//! Mirroring glyphs and paired brackets (UAX 9).
ghost use Rattle.std.specs.Prelude.{◌≡◌};
ghost use Rattle.prop_values.specs.MirroringGlyph.{is_glyph_number as is_number_of_glyph};
ghost use Rattle.prop_values.specs.GlyphPacking.{unpacked_glyph, packed_glyph};
ghost use Rattle.prop_values.specs.GlyphLaws.{unpacked_glyph-again, same_glyph, unpacked_glyph-accepted, no_glyph, no_glyph-packed};
ghost use Rattle.prop_values.specs.declared.glyph.BidiPairedBracketType.TheVariants.{None as NoBracket};

use crate::property::EnumeratedProperty;
use crate::tables::MapTable;
use cp_trie::{TrieValue, ValueError};

/// The type of a paired bracket (UAX 44, section 5.3).
#[derive(Clone, Copy, Debug, PartialEq, Eq)]
pub enum BidiPairedBracketType {
    /// An opening bracket.
    Open,
    /// A closing bracket.
    Close,
    /// No paired bracket.
    None,
}

/// What bidirectional text needs to know of a character's mirroring: Bidi_Mirroring_Glyph, Bidi_Mirrored and
/// Bidi_Paired_Bracket_Type (UAX 44, section 5.3) together.
#[derive(Clone, Copy, Debug, PartialEq, Eq)]
pub struct BidiMirroringGlyph {
    /// The character whose glyph is the mirror image.
    pub mirroring_glyph: Option<char>,
    /// Whether the character is mirrored in text from right to left.
    pub mirrored: bool,
    /// The type of the paired bracket.
    pub paired_bracket_type: BidiPairedBracketType,
}

/// Bits 0 to 20 of a packed glyph are below this number, which bit 21 counts.
const MIRRORED_UNIT: u32 = 0x20_0000;

/// What bit 22 counts in a packed glyph.
const BRACKET_UNIT: u32 = 0x40_0000;

/// Whether the number unpacks to a mirroring glyph.
pub(crate) fn is_glyph_number(n: u32) -> bool
    ensures { result ≡ is_number_of_glyph n }
{
    let glyph = n % MIRRORED_UNIT;
    (glyph == 0 || char::from_u32(glyph).is_some()) && n / BRACKET_UNIT % 4 != 3
}

impl Default for BidiPairedBracketType {
    ghost is_default = { λ bracket. bracket ≡ NoBracket };

    fn default() -> BidiPairedBracketType {
        BidiPairedBracketType::None
    }
}

impl Default for BidiMirroringGlyph {
    ghost is_default = { λ value. value ≡ no_glyph };

    fn default() -> BidiMirroringGlyph {
        BidiMirroringGlyph {
            mirroring_glyph: None,
            mirrored: false,
            paired_bracket_type: BidiPairedBracketType::None,
        }
    }
}

impl TrieValue for BidiMirroringGlyph {
    ghost unpacked = { unpacked_glyph };

    ghost packed = { packed_glyph };

    ghost unpacks_again = { unpacked_glyph-again };

    ghost eq_is_same = { same_glyph };

    fn try_from_u32(i: u32) -> Result<BidiMirroringGlyph, ValueError> {
        if !is_glyph_number(i) {
            return Err(ValueError { value: i });
        }
        let glyph = i % MIRRORED_UNIT;
        Ok(BidiMirroringGlyph {
            mirroring_glyph: if glyph == 0 {
                None
            } else {
                char::from_u32(glyph)
            },
            mirrored: i / MIRRORED_UNIT % 2 == 1,
            paired_bracket_type: match i / BRACKET_UNIT % 4 {
                1 => BidiPairedBracketType::Open,
                2 => BidiPairedBracketType::Close,
                _ => BidiPairedBracketType::None,
            },
        })
    }

    fn to_u32(self) -> u32 {
        let bracket = match self.paired_bracket_type {
            BidiPairedBracketType::None => 0,
            BidiPairedBracketType::Open => 1,
            BidiPairedBracketType::Close => 2,
        };
        let glyph = match self.mirroring_glyph {
            Some(glyph) => u32::from(glyph),
            None => 0,
        };
        glyph + u32::from(self.mirrored) * MIRRORED_UNIT + bracket * BRACKET_UNIT
    }
}

impl EnumeratedProperty for BidiMirroringGlyph {
    ghost TABLE = { 17 };

    const NAME: &'static [u8] = b"Bidi_Mirroring_Glyph";

    const SHORT_NAME: &'static [u8] = b"bmg";

    const TABLE: MapTable = MapTable::BIDI_MIRRORING_GLYPH;

    ghost accepted = { λ n _. unpacked_glyph-accepted n };

    ghost default_packed = { no_glyph-packed };
}
