//! The table of one name for each value whose rows are being read.
ghost use Rattle.std.specs.Prelude.{◌≡◌, true};
ghost use Rattle.prop_names.specs.Subtags.{AreSubtags};
ghost use Rattle.prop_data.specs.Headers.{text_number};
ghost use Rattle.prop_data.specs.Lengths.{has_subtags};

use crate::database::PropertyDatabase;
use crate::error::{LineError, TableErrorKind};
use crate::line::Row;
use crate::load::OpenTable;
use crate::name::kept_name;
use crate::value::accepted;
use cp_invlist::NoMemory;
use prop_names::NamesByNumber;
use prop_values::MapTable;
use std::alloc::Global;
use text_lines::decimal_number;

/// Which names of values a table has.
#[derive(Clone, Copy, Debug, PartialEq, Eq)]
pub(crate) enum Length {
    Long,
    Short,
}

/// The table of one name for each value, with this name: all tables of values but the mirroring glyph's.
pub(crate) fn text_table(name: &[u8]) -> Option<MapTable>
    ensures { result ≡ text_number name.now }
{
    let table = MapTable::from_name(name)?;
    if table == MapTable::BIDI_MIRRORING_GLYPH {
        return None;
    }
    Some(table)
}

/// Whether the names of this length are subtags.
fn has_subtags(length: Length, table: MapTable) -> bool
    ensures { result ≡ has_subtags length table }
{
    match length {
        Length::Long => false,
        Length::Short => table == MapTable::SCRIPT,
    }
}

#[derive(Drop)]
pub(crate) struct OpenTexts {
    alloc: Global,
    table: MapTable,
    length: Length,
    texts: NamesByNumber,
    ghost subtags: { has_subtags length table ≡ true → AreSubtags texts },
}

impl OpenTexts {
    ghost use Rattle.std.specs.Prelude.{◌≡◌, ◌<◌, length as length_of, ℕ, nat_eq, true, Some, None, is_some, OnOk, if◌then◌else◌};
    ghost use Rattle.std.specs.String.{string_bytes};
    ghost use Rattle.prop_names.specs.ValueNames.{subtag_of};
    ghost use Rattle.prop_names.specs.ValueNameTables.{name_at};
    ghost use Rattle.prop_data.specs.Loading.{TakesRow, TakesFinished, row_seen};

    pub(crate) fn new(alloc: Global, table: MapTable, length: Length) -> OpenTexts
        ensures table { result.table ≡ table }
        ensures length { result.length ≡ length }
        ensures texts { (n : ℕ) → name_at result.texts n ≡ None }
    {
        OpenTexts {
            alloc,
            table,
            length,
            texts: NamesByNumber::new(alloc),
        }
    }

    /// Takes a row.
    pub(crate) fn add_row(&mut self, row: Row<'_>) -> Result<(), LineError>
        ensures { TakesRow (OpenTable.Texts self.old) (row_seen row.entry) result (OpenTable.Texts self.new) }
    {
        let text = row.second.ok_or(TableErrorKind::UnknownLine)?;
        let spelled = decimal_number(row.first).ok_or(TableErrorKind::BadNumber)?;
        let value = accepted(self.table, spelled).ok_or(TableErrorKind::ValueOutOfType)?;
        let is_subtag = has_subtags(self.length, self.table);
        let name = kept_name(self.alloc, is_subtag, text)?.ok_or(TableErrorKind::BadName)?;
        if self.has(value) {
            return Err(LineError::Fault(TableErrorKind::NamesClash));
        }
        self.keep(value, name)?;
        Ok(())
    }

    /// Whether the number has a name.
    fn has(&self, value: u32) -> bool
        ensures { result ≡ is_some (name_at self.now.texts value) }
    {
        self.texts.contains_key(value)
    }

    /// Keeps the name of the number.
    fn keep(&mut self, value: u32, name: String) -> Result<(), NoMemory>
        requires filled { 0 < length_of (string_bytes name) }
        requires subtag { has_subtags self.old.length self.old.table ≡ true →
            subtag_of (string_bytes name) ≡ Some (string_bytes name) }
        ensures table { self.new.table ≡ self.old.table }
        ensures length { self.new.length ≡ self.old.length }
        ensures texts { OnOk result ((n : ℕ) → name_at self.new.texts n ≡
            (if nat_eq value n then Some (string_bytes name) else name_at self.old.texts n)) }
    {
        self.texts.insert(value, name)
    }

    /// Moves the names into the database.
    pub(crate) fn finish(self, database: &mut PropertyDatabase) -> Result<(), NoMemory>
        ensures { OnOk result (TakesFinished (OpenTable.Texts self) database.old database.new) }
    {
        match self.length {
            Length::Long => database.insert_long(self.table, self.texts),
            Length::Short => database.insert_short(self.table, self.texts),
        }
    }
}
