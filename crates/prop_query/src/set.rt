//! Sets of code points: those of a database's binary properties, and any other.
ghost use Rattle.std.specs.Prelude.{◌≡◌, ◌↔◌, List, None, Some, IfOk, IfSome, IsNone, option_and_then};
ghost use Rattle.std.specs.Option.{option_copied};
ghost use Rattle.cp_invlist.specs.InversionList.{contains};
ghost use Rattle.cp_invlist.specs.Ranges.{AreMaximalRanges, is_outside};
ghost use Rattle.cp_invlist.specs.declared.ranges.CodePointRange.{CodePointRange};
ghost use Rattle.prop_binary.specs.Ecma262.{ecma262_number};
ghost use Rattle.prop_data.specs.Database.{set_of};
ghost use Rattle.prop_query.specs.Answers.{NeedsTable, NeedsTableAndMemory};
ghost use Rattle.prop_query.specs.Borrowed.{set_in};

use crate::absent::absent;
use cp_invlist::{CodePointInversionList, ComplementedRanges, InversionListRanges, NoMemory};
use prop_binary::{BinaryProperty, SetTable, ecma262_table};
use prop_data::{DataError, PropertyDatabase, TableName};
use std::alloc::Global;
use std::marker::Model;

/// A set of code points. A contract sees it as its inversion list.
#[derive(Drop)]
pub struct CodePointSetData {
    set: CodePointInversionList,
}

impl Model for CodePointSetData {
    ghost use Rattle.std.specs.Prelude.{ℕ, List};

    ghost Value = { List ℕ };

    ghost view = { λ s. s.set };
}

/// A set of code points that is borrowed.
#[derive(Clone, Copy)]
pub struct CodePointSetDataBorrowed<'a> {
    set: &'a CodePointInversionList,
}

/// The set of a table.
fn lent(
    database: &PropertyDatabase,
    table: SetTable,
) -> Result<CodePointSetDataBorrowed<'_>, DataError>
    ensures members { IfOk result (λ set. set_of database.now table ≡ Some (set_in set)) }
    ensures needs { NeedsTable (TableName.Set table) (set_of database.now table) result }
{
    let set = database.set(table).ok_or(absent(TableName::Set(table)))?;
    Ok(CodePointSetDataBorrowed { set })
}

/// A copy of the set of a table.
fn copied(
    alloc: Global,
    database: &PropertyDatabase,
    table: SetTable,
) -> Result<CodePointSetData, DataError>
    ensures members { IfOk result (λ set. set_of database.now table ≡ Some set) }
    ensures needs { NeedsTableAndMemory (TableName.Set table) (set_of database.now table) result }
{
    let set = database.set(table).ok_or(absent(TableName::Set(table)))?;
    Ok(CodePointSetData {
        set: set.copy(alloc)?,
    })
}

impl CodePointSetData {
    /// The set of a binary property (UAX 44, section 5.3), which the database lends. `Absent` names the property's set
    /// where the database has none.
    pub fn new<'a, P: BinaryProperty>(
        database: &'a PropertyDatabase,
    ) -> Result<CodePointSetDataBorrowed<'a>, DataError>
        ensures members { IfOk result (λ set. set_of database.now P.TABLE ≡ Some (set_in set)) }
        ensures needs { NeedsTable (TableName.Set P.TABLE) (set_of database.now P.TABLE) result }
    {
        lent(database, P::TABLE)
    }

    /// A copy of the set of a binary property, without an index. `Absent` names the property's set where the database has none,
    /// and `NoMemory` says that a request for memory was refused.
    pub fn try_new_unstable<P: BinaryProperty>(
        alloc: Global,
        database: &PropertyDatabase,
    ) -> Result<CodePointSetData, DataError>
        ensures members { IfOk result (λ set. set_of database.now P.TABLE ≡ Some set) }
        ensures needs { NeedsTableAndMemory (TableName.Set P.TABLE)
            (set_of database.now P.TABLE) result }
    {
        copied(alloc, database, P::TABLE)
    }

    /// The set of the property with this name in ECMA-262, which the database lends. It is none exactly where no
    /// property has that name there, compared byte for byte. `Absent` names the property's set where the database has
    /// none.
    pub fn new_for_ecma262<'a>(
        database: &'a PropertyDatabase,
        name: &[u8],
    ) -> Option<Result<CodePointSetDataBorrowed<'a>, DataError>>
        ensures named { IsNone result ↔ (ecma262_number name.now ≡ None) }
        ensures members { IfSome result (λ answer. IfOk answer (λ set.
            option_and_then (set_of database.now) (ecma262_number name.now) ≡ Some (set_in set))) }
        ensures needs { IfSome result (λ answer. IfSome (ecma262_number name.now) (λ table.
            NeedsTable (TableName.Set table) (set_of database.now table) answer)) }
    {
        let table = ecma262_table(name)?;
        Some(lent(database, table))
    }

    /// A copy of the set of the property with this name in ECMA-262. It is none exactly where no property has that
    /// name there, compared byte for byte. `Absent` names the property's set where the database has none, and
    /// `NoMemory` says that a request for memory was refused.
    pub fn try_new_for_ecma262_unstable(
        alloc: Global,
        database: &PropertyDatabase,
        name: &[u8],
    ) -> Option<Result<CodePointSetData, DataError>>
        ensures named { IsNone result ↔ (ecma262_number name.now ≡ None) }
        ensures members { IfSome result (λ answer. IfOk answer (λ set.
            option_and_then (set_of database.now) (ecma262_number name.now) ≡ Some set)) }
        ensures needs { IfSome result (λ answer. IfSome (ecma262_number name.now) (λ table.
            NeedsTableAndMemory (TableName.Set table) (set_of database.now table) answer)) }
    {
        let table = ecma262_table(name)?;
        Some(copied(alloc, database, table))
    }

    /// The same set, lent.
    pub fn as_borrowed(&self) -> CodePointSetDataBorrowed<'_>
        ensures { set_in result ≡ self.now }
    {
        CodePointSetDataBorrowed { set: &self.set }
    }

    /// The set of an inversion list.
    pub fn from_code_point_inversion_list(set: CodePointInversionList) -> CodePointSetData
        ensures { result ≡ set }
    {
        CodePointSetData { set }
    }

    /// The inversion list of the set. It is always there.
    pub fn as_code_point_inversion_list(&self) -> Option<&CodePointInversionList>
        ensures { option_copied result ≡ Some self.now }
    {
        Some(&self.set)
    }

    /// Keeps an index beside the list: a bit for each code point, 139 kB, so that a member is found by one read. The set stays as
    /// it is. `NoMemory` says that a request for memory was refused.
    pub fn index(&mut self, alloc: Global) -> Result<(), NoMemory>
        ensures { self.new ≡ self.old }
    {
        self.set.index(alloc)
    }

    /// A copy of the inversion list of the set, without an index. `NoMemory` says that a request for memory was refused.
    pub fn to_code_point_inversion_list(
        &self,
        alloc: Global,
    ) -> Result<CodePointInversionList, NoMemory>
        ensures { IfOk result (λ set. set ≡ self.now) }
    {
        self.set.copy(alloc)
    }
}

impl<'a> CodePointSetDataBorrowed<'a> {
    /// As `CodePointSetData::new`.
    pub fn new<P: BinaryProperty>(
        database: &'a PropertyDatabase,
    ) -> Result<CodePointSetDataBorrowed<'a>, DataError>
        ensures members { IfOk result (λ set. set_of database.now P.TABLE ≡ Some (set_in set)) }
        ensures needs { NeedsTable (TableName.Set P.TABLE) (set_of database.now P.TABLE) result }
    {
        CodePointSetData::new::<P>(database)
    }

    /// Whether the character is a member.
    pub fn contains(self, ch: char) -> bool
        ensures { result ≡ contains (set_in self.entry) ch }
    {
        self.set.contains(ch)
    }

    /// Whether the number is a member. A number past 10FFFF is none.
    pub fn contains32(self, ch: u32) -> bool
        ensures { result ≡ contains (set_in self.entry) ch }
    {
        self.set.contains32(ch)
    }

    /// The maximal ranges of members, in order.
    pub fn iter_ranges(self) -> InversionListRanges<'a>
        ensures maximal { AreMaximalRanges (contains (set_in self.entry)) result }
        ensures only { (rs : List CodePointRange) →
            AreMaximalRanges (contains (set_in self.entry)) rs → rs ≡ result }
    {
        self.set.iter_ranges()
    }

    /// The maximal ranges of the code points that are no members, in order.
    pub fn iter_ranges_complemented(self) -> ComplementedRanges<'a>
        ensures maximal { AreMaximalRanges (is_outside (set_in self.entry)) result }
        ensures only { (rs : List CodePointRange) →
            AreMaximalRanges (is_outside (set_in self.entry)) rs → rs ≡ result }
    {
        self.set.iter_ranges_complemented()
    }
}
