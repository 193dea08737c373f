//! The last number that a property type accepts, and the first that it refuses.
use crate::fixtures::assert_last;
use prop_values::{
    BidiClass, Block, EastAsianWidth, GeneralCategory, GraphemeClusterBreak, HangulSyllableType,
    IndicConjunctBreak, IndicSyllabicCategory, JoiningGroup, JoiningType, LineBreak, NumericType,
    Script, SentenceBreak, VerticalOrientation, WordBreak,
};

#[test]
fn a_number_is_refused_behind_the_last_of_its_type(rt: HostRuntime) {
    assert_last::<GeneralCategory>(&rt, 29);
    assert_last::<BidiClass>(&rt, 255);
    assert_last::<EastAsianWidth>(&rt, 255);
    assert_last::<GraphemeClusterBreak>(&rt, 255);
    assert_last::<HangulSyllableType>(&rt, 255);
    assert_last::<IndicConjunctBreak>(&rt, 255);
    assert_last::<IndicSyllabicCategory>(&rt, 255);
    assert_last::<JoiningGroup>(&rt, 255);
    assert_last::<JoiningType>(&rt, 255);
    assert_last::<LineBreak>(&rt, 255);
    assert_last::<NumericType>(&rt, 255);
    assert_last::<SentenceBreak>(&rt, 255);
    assert_last::<VerticalOrientation>(&rt, 255);
    assert_last::<WordBreak>(&rt, 255);
    assert_last::<Block>(&rt, 65_535);
    assert_last::<Script>(&rt, 65_535);
}
