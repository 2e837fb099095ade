// What can be read off a table.
ghost use Rattle.std.specs.Prelude.{◌≡◌, length};
ghost use Rattle.server.specs.Table.{table_rows, row_in};

use super::Table;
use crate::row::Row;

impl Table {
    /// How many servers there are: they are numbered from 0 upward.
    pub fn count(&self) -> u16
        ensures { result ≡ length (table_rows self.now) }
    {
        self.count as u16
    }

    /// All rows, in the order of their numbers.
    pub fn rows(&self) -> &[Row]
        ensures { result.now ≡ table_rows self.now }
    {
        &self.rows[0..self.count]
    }

    /// The row of a server, if there is one of this number.
    pub fn row(&self, number: u16) -> Option<Row>
        ensures { result ≡ row_in (table_rows self.now) number }
    {
        self.rows().get(number as usize).copied()
    }
}
