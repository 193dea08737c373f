//! Emoji sets: those of a database, and any other set with strings.
ghost use Rattle.std.specs.Prelude.{◌≡◌, Some, false, IfOk};
ghost use Rattle.std.specs.Option.{option_copied};
ghost use Rattle.std.specs.Str.{IsUtf8};
ghost use Rattle.cp_invlist.specs.InversionList.{contains};
ghost use Rattle.cp_strset.specs.StringSet.{contains_text};
ghost use Rattle.prop_data.specs.Database.{emoji_of};
ghost use Rattle.prop_query.specs.Answers.{NeedsTable, NeedsTableAndMemory};
ghost use Rattle.prop_query.specs.Borrowed.{emoji_in};

use crate::absent::absent;
use cp_invlist::NoMemory;
use cp_strset::CodePointInversionListAndStringList;
use prop_binary::EmojiSet;
use prop_data::{DataError, PropertyDatabase, TableName};
use std::alloc::Global;
use std::marker::Model;

/// A set of emoji characters and sequences (UTS 51, section 1.4.6). A contract sees it as its code points and strings.
#[derive(Drop)]
pub struct EmojiSetData {
    set: CodePointInversionListAndStringList,
}

impl Model for EmojiSetData {
    ghost use Rattle.cp_strset.specs.StringSet.{StringSet};

    ghost Value = { StringSet };

    ghost view = { λ s. s.set };
}

/// A set of emoji characters and sequences that is borrowed.
#[derive(Clone, Copy)]
pub struct EmojiSetDataBorrowed<'a> {
    set: &'a CodePointInversionListAndStringList,
}

impl EmojiSetData {
    /// The emoji set of a property, which the database lends. `Absent` names it where the database has none.
    pub fn new<'a, P: EmojiSet>(
        database: &'a PropertyDatabase,
    ) -> Result<EmojiSetDataBorrowed<'a>, DataError>
        ensures members { IfOk result (λ set. emoji_of database.now P.TABLE ≡ Some (emoji_in set)) }
        ensures needs { NeedsTable (TableName.Emoji P.TABLE)
            (emoji_of database.now P.TABLE) result }
    {
        let set = database
            .emoji(P::TABLE)
            .ok_or(absent(TableName::Emoji(P::TABLE)))?;
        Ok(EmojiSetDataBorrowed { set })
    }

    /// A copy of the emoji set of a property. `Absent` names it where the database has none, and `NoMemory` says that
    /// a request for memory was refused.
    pub fn try_new_unstable<P: EmojiSet>(
        alloc: Global,
        database: &PropertyDatabase,
    ) -> Result<EmojiSetData, DataError>
        ensures members { IfOk result (λ set. emoji_of database.now P.TABLE ≡ Some set) }
        ensures needs { NeedsTableAndMemory (TableName.Emoji P.TABLE)
            (emoji_of database.now P.TABLE) result }
    {
        let set = database
            .emoji(P::TABLE)
            .ok_or(absent(TableName::Emoji(P::TABLE)))?;
        Ok(EmojiSetData {
            set: set.copy(alloc)?,
        })
    }

    /// The same set, lent.
    pub fn as_borrowed(&self) -> EmojiSetDataBorrowed<'_>
        ensures { emoji_in result ≡ self.now }
    {
        EmojiSetDataBorrowed { set: &self.set }
    }

    /// The set of code points and strings.
    pub fn from_code_point_inversion_list_string_list(
        set: CodePointInversionListAndStringList,
    ) -> EmojiSetData
        ensures { result ≡ set }
    {
        EmojiSetData { set }
    }

    /// The code points and strings of the set. They are always there.
    pub fn as_code_point_inversion_list_string_list(
        &self,
    ) -> Option<&CodePointInversionListAndStringList>
        ensures { option_copied result ≡ Some self.now }
    {
        Some(&self.set)
    }

    /// A copy of the code points and strings of the set. `NoMemory` says that a request for memory was refused.
    pub fn to_code_point_inversion_list_string_list(
        &self,
        alloc: Global,
    ) -> Result<CodePointInversionListAndStringList, NoMemory>
        ensures { IfOk result (λ set. set ≡ self.now) }
    {
        self.set.copy(alloc)
    }
}

impl<'a> EmojiSetDataBorrowed<'a> {
    /// As `EmojiSetData::new`.
    pub fn new<P: EmojiSet>(
        database: &'a PropertyDatabase,
    ) -> Result<EmojiSetDataBorrowed<'a>, DataError>
        ensures members { IfOk result (λ set. emoji_of database.now P.TABLE ≡ Some (emoji_in set)) }
        ensures needs { NeedsTable (TableName.Emoji P.TABLE)
            (emoji_of database.now P.TABLE) result }
    {
        EmojiSetData::new::<P>(database)
    }

    /// Whether the text is in the set: a text of exactly one character as a code point, any other as a string.
    pub fn contains_str(self, s: &str) -> bool
        ensures { result ≡ contains_text (emoji_in self.entry) s.now }
    {
        self.set.contains_str(s)
    }

    /// Whether the bytes are a text that is in the set. Bytes that aren't well-formed UTF-8 are in none.
    pub fn contains_utf8(self, s: &[u8]) -> bool
        ensures text { IsUtf8 s.now → result ≡ contains_text (emoji_in self.entry) s.now }
        ensures other { ¬ IsUtf8 s.now → result ≡ false }
    {
        self.set.contains_utf8(s)
    }

    /// Whether the character is one of the code points.
    pub fn contains(self, ch: char) -> bool
        ensures { result ≡ contains (emoji_in self.entry).code_points ch }
    {
        self.set.contains(ch)
    }

    /// Whether the number is one of the code points.
    pub fn contains32(self, cp: u32) -> bool
        ensures { result ≡ contains (emoji_in self.entry).code_points cp }
    {
        self.set.contains32(cp)
    }
}
