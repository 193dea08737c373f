//! The emoji table whose rows are being read.
ghost use Rattle.std.specs.Prelude.{◌≡◌, ℕ, List, [], None, false, option_map, OnOk};
ghost use Rattle.std.specs.BTreeSet.{contains_text};
ghost use Rattle.prop_data.specs.Loading.{TakesRow, TakesFinished, TakesEmoji, emoji_read, row_seen};
ghost use Rattle.prop_data.specs.LineFault.{emoji_range_fault, emoji_string_fault};
ghost use Rattle.prop_data.specs.Numbers.{range};
ghost use Rattle.prop_data.specs.Strings.{string_numbers, text_of_numbers};

use crate::database::PropertyDatabase;
use crate::error::{LineError, TableErrorKind};
use crate::line::Row;
use crate::load::OpenTable;
use crate::numbers::range;
use crate::row::check_range;
use crate::string::{braced, has_surrogate, spelled_numbers, text_of};
use cp_invlist::{CodePointInversionListBuilder, NoMemory};
use cp_strset::Strings;
use prop_binary::EmojiTable;
use std::alloc::Global;

#[derive(Drop)]
pub(crate) struct OpenEmoji {
    alloc: Global,
    table: EmojiTable,
    builder: CodePointInversionListBuilder,
    /// The last code point of the nearest range above.
    last: Option<u32>,
    strings: Strings,
}

impl OpenEmoji {
    pub(crate) fn new(alloc: Global, table: EmojiTable) -> OpenEmoji
        ensures table { result.table ≡ table }
        ensures builder { result.builder ≡ [] }
        ensures last { result.last ≡ None }
        ensures strings { (bytes : List ℕ) → contains_text result.strings bytes ≡ false }
    {
        OpenEmoji {
            alloc,
            table,
            builder: CodePointInversionListBuilder::new(alloc),
            last: None,
            strings: Strings::new(alloc),
        }
    }

    /// Takes a row.
    pub(crate) fn add_row(&mut self, row: Row<'_>) -> Result<(), LineError>
        ensures { TakesRow (OpenTable.Emoji self.old) (row_seen row.entry) result (OpenTable.Emoji self.new) }
    {
        let None = row.second else {
            return Err(LineError::Fault(TableErrorKind::UnknownLine));
        };
        match braced(row.first) {
            Some(inner) => self.add_string(inner),
            None => self.add_range(row.first),
        }
    }

    /// Takes a range.
    fn add_range(&mut self, field: &[u8]) -> Result<(), LineError>
        ensures { TakesEmoji self.old (emoji_range_fault self.old.last (range field.now))
            (range field.now) None result self.new }
    {
        let range = range(field).ok_or(TableErrorKind::BadNumber)?;
        check_range(self.last, range)?;
        self.builder.add_range32(range)?;
        self.last = Some(range.end);
        Ok(())
    }

    /// Takes a string, of which the inside of its braces is given.
    fn add_string(&mut self, inner: &[u8]) -> Result<(), LineError>
        ensures { TakesEmoji self.old (emoji_string_fault (emoji_read self.old) (string_numbers inner.now)) None
            (option_map text_of_numbers (string_numbers inner.now)) result self.new }
    {
        let numbers = spelled_numbers(self.alloc, inner)?.ok_or(TableErrorKind::BadNumber)?;
        if has_surrogate(&numbers) {
            return Err(LineError::Fault(TableErrorKind::BadNumber));
        }
        // What is no surrogate and no character is above the last code point.
        let text = text_of(self.alloc, &numbers)?.ok_or(TableErrorKind::TooLarge)?;
        if numbers.len() == 1 {
            return Err(LineError::Fault(TableErrorKind::StringOfOne));
        }
        if self.strings.contains(text.as_str()) {
            return Err(LineError::Fault(TableErrorKind::StringTwice));
        }
        self.strings.insert(text)?;
        Ok(())
    }

    /// Moves the emoji set into the database.
    pub(crate) fn finish(
        self,
        alloc: Global,
        database: &mut PropertyDatabase,
    ) -> Result<(), NoMemory>
        ensures { OnOk result (TakesFinished (OpenTable.Emoji self) database.old database.new) }
    {
        let set = self.strings.into_set(alloc, self.builder.build())?;
        database.insert_emoji(self.table, set)
    }
}
