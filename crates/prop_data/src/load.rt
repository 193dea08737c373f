//! Reads the lines of a table text one by one.
ghost use Rattle.std.specs.Prelude.{◌≡◌, [], true, false, OnOk, OnErr, IfOk, IfErr};
ghost use Rattle.text_lines.specs.Fields.{fields};
ghost use Rattle.prop_data.specs.Line.{line_of, set_header, map_header, names_header, emoji_header, scx_header, ext_header, header as header_line, row as row_line, closing};
ghost use Rattle.prop_data.specs.Loading.{kept, kept_in, texts_header, header_seen, row_seen, Takes, TakesRow, TakesFinished, Begins};
ghost use Rattle.prop_data.specs.Database.{tables_of};
ghost use Rattle.prop_data.specs.LineFault.{above};
ghost use Rattle.std.specs.Option.{option_copied};

mod emoji;
mod extensions;
mod map;
mod map_builder;
mod names;
mod scripts;
mod set;
mod texts;

use crate::database::PropertyDatabase;
use crate::error::{LineError, TableErrorKind};
use crate::line::{Header, Line, Row, read_line};
use crate::value::{accepted, accepted_script};
use cp_invlist::NoMemory;
use emoji::OpenEmoji;
use extensions::{OpenList, listed_script};
use map::OpenMap;
use names::OpenNames;
use prop_binary::{EmojiTable, SetTable};
use prop_values::{MapTable, NamesTable};
use scripts::OpenScripts;
use set::OpenSet;
use std::alloc::Global;
use std::mem;
use text_lines::decimal_number;
pub(crate) use texts::Length;
use texts::{OpenTexts, text_table};

/// A table whose rows are being read.
pub(crate) enum OpenTable {
    Set(OpenSet),
    Map(OpenMap),
    Names(OpenNames),
    Texts(OpenTexts),
    Emoji(OpenEmoji),
    Scripts(OpenScripts),
    List(OpenList),
}

// By hand, so that letting a value go is one call in each proof.
impl Drop for OpenTable {
    fn drop(self) {
        match self {
            OpenTable::Set(_) => {}
            OpenTable::Map(_) => {}
            OpenTable::Names(_) => {}
            OpenTable::Texts(_) => {}
            OpenTable::Emoji(_) => {}
            OpenTable::Scripts(_) => {}
            OpenTable::List(_) => {}
        }
    }
}

impl OpenTable {
    /// Takes a row of this table.
    fn add_row(&mut self, row: Row<'_>) -> Result<(), LineError>
        ensures { TakesRow self.old (row_seen row.entry) result self.new }
    {
        match self {
            OpenTable::Set(open) => open.add_row(row),
            OpenTable::Map(open) => open.add_row(row),
            OpenTable::Names(open) => open.add_row(row),
            OpenTable::Texts(open) => open.add_row(row),
            OpenTable::Emoji(open) => open.add_row(row),
            OpenTable::Scripts(open) => open.add_row(row),
            OpenTable::List(open) => open.add_row(row),
        }
    }

    /// Moves this table into the database.
    fn finish(self, alloc: Global, database: &mut PropertyDatabase) -> Result<(), NoMemory>
        ensures { OnOk result (TakesFinished self database.old database.new) }
    {
        match self {
            OpenTable::Set(open) => open.finish(alloc, database),
            OpenTable::Map(open) => open.finish(alloc, database),
            OpenTable::Names(open) => open.finish(alloc, database),
            OpenTable::Texts(open) => open.finish(database),
            OpenTable::Emoji(open) => open.finish(alloc, database),
            OpenTable::Scripts(open) => open.finish(alloc, database),
            OpenTable::List(open) => open.finish(database),
        }
    }
}

/// Where the lines stand that were read.
pub(crate) enum Section {
    /// In front of the first header.
    Front,
    /// Below the header of this table.
    Table(OpenTable),
    /// Behind `end`.
    Behind,
}

// By hand, so that letting a value go is one call in each proof.
impl Drop for Section {
    fn drop(self) {
        match self {
            Section::Front => {}
            Section::Table(_) => {}
            Section::Behind => {}
        }
    }
}

impl Section {
    /// Moves the table of the section into the database. The answer is whether the section is behind `end`.
    fn leave(self, alloc: Global, database: &mut PropertyDatabase) -> Result<bool, NoMemory>
        ensures closed { IfOk result (λ is_behind_end. is_behind_end ≡ (kept_in self (tables_of database.old)).closed) }
        ensures tables { OnOk result (tables_of database.new ≡ (kept_in self (tables_of database.old)).tables) }
    {
        match self {
            Section::Front => Ok(false),
            Section::Table(open_table) => {
                open_table.finish(alloc, database)?;
                Ok(false)
            }
            Section::Behind => Ok(true),
        }
    }
}

/// What was read so far.
pub(crate) struct Loader {
    alloc: Global,
    /// The tables above the section.
    database: PropertyDatabase,
    section: Section,
}

// By hand, so that letting a value go is one call in each proof.
impl Drop for Loader {
    fn drop(self) {
        let Self {
            alloc: _,
            database: _,
            section: _,
        } = self;
    }
}

impl Loader {
    pub(crate) fn new(alloc: Global) -> Loader
        ensures { kept result ≡ above [] }
    {
        Loader {
            alloc,
            database: PropertyDatabase::new(alloc),
            section: Section::Front,
        }
    }

    /// Takes the next line.
    pub(crate) fn take(&mut self, line: &[u8]) -> Result<(), LineError>
        ensures { Takes (kept self.old) (line_of (fields line.now)) result (kept self.new) }
    {
        match read_line(line) {
            Line::Blank => Ok(()),
            Line::Header(header) => self.begin_table(header),
            Line::Row(row) => self.add_row(row),
            Line::Closing => self.close(),
            Line::Other => Err(LineError::Fault(TableErrorKind::UnknownLine)),
        }
    }

    /// Moves the table of the section into the database. The answer is whether the section was behind `end`.
    fn leave_section(&mut self) -> Result<bool, NoMemory>
        ensures closed { IfOk result (λ is_behind_end. is_behind_end ≡ (kept self.old).closed) }
        ensures tables { OnOk result (tables_of self.new.database ≡ (kept self.old).tables) }
    {
        let section = mem::replace(&mut self.section, Section::Front);
        section.leave(self.alloc, &mut self.database)
    }

    /// The set of a header, without rows.
    fn begin_set(&self, name: &[u8]) -> Result<OpenTable, LineError>
        ensures { Begins (tables_of self.now.database) (set_header name.now) result }
    {
        let table = SetTable::from_name(name).ok_or(TableErrorKind::UnknownTable)?;
        if self.database.set(table).is_some() {
            return Err(LineError::Fault(TableErrorKind::TableTwice));
        }
        Ok(OpenTable::Set(OpenSet::new(self.alloc, table)))
    }

    /// The map of a header, without rows.
    #[tactic(auto, unfolding(crate::specs::LineFault::value_fault))]
    fn begin_map(&self, name: &[u8], default: &[u8]) -> Result<OpenTable, LineError>
        ensures { Begins (tables_of self.now.database) (map_header name.now default.now) result }
    {
        let table = MapTable::from_name(name).ok_or(TableErrorKind::UnknownTable)?;
        if self.database.map(table).is_some() {
            return Err(LineError::Fault(TableErrorKind::TableTwice));
        }
        let spelled = decimal_number(default).ok_or(TableErrorKind::BadNumber)?;
        let default = accepted(table, spelled).ok_or(TableErrorKind::ValueOutOfType)?;
        Ok(OpenTable::Map(OpenMap::new(self.alloc, table, default)))
    }

    /// The table of names of a header, without rows.
    fn begin_names(&self, name: &[u8]) -> Result<OpenTable, LineError>
        ensures { Begins (tables_of self.now.database) (names_header name.now) result }
    {
        let table = NamesTable::from_name(name).ok_or(TableErrorKind::UnknownTable)?;
        if self.database.names(table).is_some() {
            return Err(LineError::Fault(TableErrorKind::TableTwice));
        }
        Ok(OpenTable::Names(OpenNames::new(self.alloc, table)))
    }

    /// The table of one name for each value of a header, without rows.
    fn begin_texts(&self, length: Length, name: &[u8]) -> Result<OpenTable, LineError>
        ensures { Begins (tables_of self.now.database) (texts_header length name.now) result }
    {
        let table = text_table(name).ok_or(TableErrorKind::UnknownTable)?;
        if self.database.has_texts(length, table) {
            return Err(LineError::Fault(TableErrorKind::TableTwice));
        }
        Ok(OpenTable::Texts(OpenTexts::new(self.alloc, table, length)))
    }

    /// The emoji table of a header, without rows.
    fn begin_emoji(&self, name: &[u8]) -> Result<OpenTable, LineError>
        ensures { Begins (tables_of self.now.database) (emoji_header name.now) result }
    {
        let table = EmojiTable::from_name(name).ok_or(TableErrorKind::UnknownTable)?;
        if self.database.emoji(table).is_some() {
            return Err(LineError::Fault(TableErrorKind::TableTwice));
        }
        Ok(OpenTable::Emoji(OpenEmoji::new(self.alloc, table)))
    }

    /// The scripts with extensions of a header, without rows.
    #[tactic(auto, unfolding(crate::specs::LineFault::value_fault))]
    fn begin_scripts(&self, default: &[u8]) -> Result<OpenTable, LineError>
        ensures { Begins (tables_of self.now.database) (scx_header default.now) result }
    {
        if self.database.scripts().is_some() {
            return Err(LineError::Fault(TableErrorKind::TableTwice));
        }
        let spelled = decimal_number(default).ok_or(TableErrorKind::BadNumber)?;
        let default = accepted_script(spelled).ok_or(TableErrorKind::ValueOutOfType)?;
        Ok(OpenTable::Scripts(OpenScripts::new(self.alloc, default)?))
    }

    /// The extension list of a header, without rows.
    fn begin_list(&self, index: &[u8], script: Option<&[u8]>) -> Result<OpenTable, LineError>
        ensures { Begins (tables_of self.now.database)
            (ext_header index.now (option_copied script.entry)) result }
    {
        let index = decimal_number(index).ok_or(TableErrorKind::BadNumber)?;
        if self.database.has_list(index) {
            return Err(LineError::Fault(TableErrorKind::TableTwice));
        }
        let script = listed_script(index, script)?;
        Ok(OpenTable::List(OpenList::new(self.alloc, index, script)?))
    }

    /// The table of a header, without rows.
    fn begin(&self, header: Header<'_>) -> Result<OpenTable, LineError>
        ensures { Begins (tables_of self.now.database) (header_seen header.entry) result }
    {
        match header {
            Header::Set { name } => self.begin_set(name),
            Header::Map { name, default } => self.begin_map(name, default),
            Header::Names { name } => self.begin_names(name),
            Header::Texts { length, name } => self.begin_texts(length, name),
            Header::Emoji { name } => self.begin_emoji(name),
            Header::Scripts { default } => self.begin_scripts(default),
            Header::Extensions { index, script } => self.begin_list(index, script),
        }
    }

    /// Takes the header of a table.
    fn begin_table(&mut self, header: Header<'_>) -> Result<(), LineError>
        ensures { Takes (kept self.old) (header_line (header_seen header.entry)) result (kept self.new) }
    {
        let is_behind_end = self.leave_section()?;
        let open_table = self.begin(header)?;
        if is_behind_end {
            return Err(LineError::Fault(TableErrorKind::AfterEnd));
        }
        self.section = Section::Table(open_table);
        Ok(())
    }

    /// Takes a row.
    fn add_row(&mut self, row: Row<'_>) -> Result<(), LineError>
        ensures { Takes (kept self.old) (row_line (row_seen row.entry)) result (kept self.new) }
    {
        match &mut self.section {
            Section::Table(open_table) => open_table.add_row(row),
            Section::Front | Section::Behind => Err(LineError::Fault(TableErrorKind::UnknownLine)),
        }
    }

    /// Takes the line `end`. All tables are read then, so that each list of scripts that is asked for must be there.
    fn close(&mut self) -> Result<(), LineError>
        ensures { Takes (kept self.old) closing result (kept self.new) }
    {
        let is_behind_end = self.leave_section()?;
        if self.database.lacks_list() {
            return Err(LineError::Fault(TableErrorKind::ExtensionMissing));
        }
        if is_behind_end {
            return Err(LineError::Fault(TableErrorKind::AfterEnd));
        }
        self.section = Section::Behind;
        Ok(())
    }

    /// The database of the lines that were read, which end with `end`.
    pub(crate) fn finish(self) -> Result<PropertyDatabase, LineError>
        ensures closed { OnOk result ((kept self).closed ≡ true) }
        ensures tables { IfOk result (λ database. tables_of database ≡ (kept self).tables) }
        ensures open { OnErr result ((kept self).closed ≡ false) }
        ensures no_end { IfErr result (λ error. error ≡ LineError.Fault TableErrorKind.NoEnd) }
    {
        let Self {
            alloc: _,
            database,
            section,
        } = self;
        match &section {
            Section::Behind => Ok(database),
            Section::Front | Section::Table(_) => Err(LineError::Fault(TableErrorKind::NoEnd)),
        }
    }
}
