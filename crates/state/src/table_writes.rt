//! What instructions do to the page tables.
ghost use Rattle.std.specs.Prelude.{◌≡◌};
ghost use Rattle.state.specs.TableWrites.{entry_set, field_set, tables_flushed};

use crate::Tables;
use instruction::{EntryField, Table};
use paging::PageTable;

impl Tables {
    /// A field of entry `index` modulo 64 takes `word`.
    pub fn write_entry(&mut self, table: Table, field: EntryField, index: u16, word: u16)
        ensures { self.new ≡ entry_set table field index word self.old }
    {
        match table {
            Table::Instruction => write_field(&mut self.instruction, field, index, word),
            Table::Data => write_field(&mut self.data, field, index, word),
        }
    }

    /// Bit 0 of `word` flushes the instruction table, and bit 1 the data table.
    pub fn flush(&mut self, word: u16)
        ensures { self.new ≡ tables_flushed word self.old }
    {
        if word % 2 == 1 {
            self.instruction.flush();
        }
        if word / 2 % 2 == 1 {
            self.data.flush();
        }
    }
}

fn write_field(table: &mut PageTable, field: EntryField, index: u16, word: u16)
    ensures { table.new.entries ≡ field_set field index word table.old.entries }
{
    match field {
        EntryField::Physical => table.set_physical(index, word),
        EntryField::Virtual => table.set_virtual(index, word),
    }
}
