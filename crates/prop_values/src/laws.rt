//! Laws of the values, each the contract of a function that does nothing.
ghost use Rattle.std.specs.Prelude.{◌≡◌, ◌∷◌, []};
ghost use Rattle.std.specs.Ordering.{nat_cmp};
ghost use Rattle.prop_values.specs.Category.{number_of};
ghost use Rattle.prop_values.specs.Groups.{SameMembers};
ghost use Rattle.std.specs.List.{range_with_len};

use crate::bidi::BidiClass;
use crate::block::Block;
use crate::breaks::{GraphemeClusterBreak, LineBreak, SentenceBreak, WordBreak};
use crate::category::GeneralCategory;
use crate::glyph::BidiMirroringGlyph;
use crate::group::GeneralCategoryGroup;
use crate::hangul::HangulSyllableType;
use crate::indic::{IndicConjunctBreak, IndicSyllabicCategory};
use crate::joining::{JoiningGroup, JoiningType};
use crate::layout::{EastAsianWidth, VerticalOrientation};
use crate::marks::CanonicalCombiningClass;
use crate::numeric::NumericType;
use crate::property::{EnumeratedProperty, ParseableEnumeratedProperty};
use crate::script::Script;

/// Two groups with the same categories are the same, so they are equal.
pub fn same_members()
    ensures { SameMembers }
{}

/// The tables of the enumerated properties, in this order, have the numbers 0 to 17.
pub fn numbers_of_tables()
    ensures { (
        ⟦<BidiClass as EnumeratedProperty>⟧.TABLE
        ∷ ⟦<Block as EnumeratedProperty>⟧.TABLE
        ∷ ⟦<NumericType as EnumeratedProperty>⟧.TABLE
        ∷ ⟦<GeneralCategory as EnumeratedProperty>⟧.TABLE
        ∷ ⟦<Script as EnumeratedProperty>⟧.TABLE
        ∷ ⟦<HangulSyllableType as EnumeratedProperty>⟧.TABLE
        ∷ ⟦<EastAsianWidth as EnumeratedProperty>⟧.TABLE
        ∷ ⟦<LineBreak as EnumeratedProperty>⟧.TABLE
        ∷ ⟦<GraphemeClusterBreak as EnumeratedProperty>⟧.TABLE
        ∷ ⟦<WordBreak as EnumeratedProperty>⟧.TABLE
        ∷ ⟦<SentenceBreak as EnumeratedProperty>⟧.TABLE
        ∷ ⟦<CanonicalCombiningClass as EnumeratedProperty>⟧.TABLE
        ∷ ⟦<IndicConjunctBreak as EnumeratedProperty>⟧.TABLE
        ∷ ⟦<IndicSyllabicCategory as EnumeratedProperty>⟧.TABLE
        ∷ ⟦<JoiningGroup as EnumeratedProperty>⟧.TABLE
        ∷ ⟦<JoiningType as EnumeratedProperty>⟧.TABLE
        ∷ ⟦<VerticalOrientation as EnumeratedProperty>⟧.TABLE
        ∷ ⟦<BidiMirroringGlyph as EnumeratedProperty>⟧.TABLE
        ∷ []) ≡ range_with_len 0 18 }
{}

/// The tables of names of the property types, in this order, have the numbers 0 to 17.
pub fn numbers_of_names_tables()
    ensures { (
        ⟦<BidiClass as ParseableEnumeratedProperty>⟧.NAMES
        ∷ ⟦<Block as ParseableEnumeratedProperty>⟧.NAMES
        ∷ ⟦<NumericType as ParseableEnumeratedProperty>⟧.NAMES
        ∷ ⟦<GeneralCategory as ParseableEnumeratedProperty>⟧.NAMES
        ∷ ⟦<Script as ParseableEnumeratedProperty>⟧.NAMES
        ∷ ⟦<HangulSyllableType as ParseableEnumeratedProperty>⟧.NAMES
        ∷ ⟦<EastAsianWidth as ParseableEnumeratedProperty>⟧.NAMES
        ∷ ⟦<LineBreak as ParseableEnumeratedProperty>⟧.NAMES
        ∷ ⟦<GraphemeClusterBreak as ParseableEnumeratedProperty>⟧.NAMES
        ∷ ⟦<WordBreak as ParseableEnumeratedProperty>⟧.NAMES
        ∷ ⟦<SentenceBreak as ParseableEnumeratedProperty>⟧.NAMES
        ∷ ⟦<CanonicalCombiningClass as ParseableEnumeratedProperty>⟧.NAMES
        ∷ ⟦<IndicConjunctBreak as ParseableEnumeratedProperty>⟧.NAMES
        ∷ ⟦<IndicSyllabicCategory as ParseableEnumeratedProperty>⟧.NAMES
        ∷ ⟦<JoiningGroup as ParseableEnumeratedProperty>⟧.NAMES
        ∷ ⟦<JoiningType as ParseableEnumeratedProperty>⟧.NAMES
        ∷ ⟦<VerticalOrientation as ParseableEnumeratedProperty>⟧.NAMES
        ∷ ⟦<GeneralCategoryGroup as ParseableEnumeratedProperty>⟧.NAMES
        ∷ []) ≡ range_with_len 0 18 }
{}

/// Values are ordered by their numbers.
pub fn order_by_number()
    ensures bidi_class { (x y : BidiClass) → ⟦<BidiClass as Ord>⟧.cmp x y ≡ nat_cmp x y }
    ensures block { (x y : Block) → ⟦<Block as Ord>⟧.cmp x y ≡ nat_cmp x y }
    ensures numeric_type { (x y : NumericType) → ⟦<NumericType as Ord>⟧.cmp x y ≡ nat_cmp x y }
    ensures general_category { (x y : GeneralCategory) →
        ⟦<GeneralCategory as Ord>⟧.cmp x y ≡ nat_cmp (number_of x) (number_of y) }
    ensures script { (x y : Script) → ⟦<Script as Ord>⟧.cmp x y ≡ nat_cmp x y }
    ensures hangul_syllable_type { (x y : HangulSyllableType) →
        ⟦<HangulSyllableType as Ord>⟧.cmp x y ≡ nat_cmp x y }
    ensures east_asian_width { (x y : EastAsianWidth) → ⟦<EastAsianWidth as Ord>⟧.cmp x y ≡ nat_cmp x y }
    ensures line_break { (x y : LineBreak) → ⟦<LineBreak as Ord>⟧.cmp x y ≡ nat_cmp x y }
    ensures grapheme_cluster_break { (x y : GraphemeClusterBreak) →
        ⟦<GraphemeClusterBreak as Ord>⟧.cmp x y ≡ nat_cmp x y }
    ensures word_break { (x y : WordBreak) → ⟦<WordBreak as Ord>⟧.cmp x y ≡ nat_cmp x y }
    ensures sentence_break { (x y : SentenceBreak) → ⟦<SentenceBreak as Ord>⟧.cmp x y ≡ nat_cmp x y }
    ensures canonical_combining_class { (x y : CanonicalCombiningClass) →
        ⟦<CanonicalCombiningClass as Ord>⟧.cmp x y ≡ nat_cmp x y }
    ensures indic_conjunct_break { (x y : IndicConjunctBreak) →
        ⟦<IndicConjunctBreak as Ord>⟧.cmp x y ≡ nat_cmp x y }
    ensures indic_syllabic_category { (x y : IndicSyllabicCategory) →
        ⟦<IndicSyllabicCategory as Ord>⟧.cmp x y ≡ nat_cmp x y }
    ensures joining_group { (x y : JoiningGroup) → ⟦<JoiningGroup as Ord>⟧.cmp x y ≡ nat_cmp x y }
    ensures joining_type { (x y : JoiningType) → ⟦<JoiningType as Ord>⟧.cmp x y ≡ nat_cmp x y }
    ensures vertical_orientation { (x y : VerticalOrientation) →
        ⟦<VerticalOrientation as Ord>⟧.cmp x y ≡ nat_cmp x y }
{}
