// What can be read off an executive.
ghost use Rattle.std.specs.Prelude.{◌≡◌, length};
ghost use Rattle.server.specs.Table.{row_in};
ghost use Rattle.server.specs.Demand.{Sound};

use super::Executive;
use server::Row;

impl<R> Executive<R> {
    /// The instant, in ticks from the start.
    pub fn instant(&self) -> u32
        ensures { result ≡ self.now.instant }
    {
        self.instant.ticks
    }

    /// How many servers there are: they are numbered from 0 upward.
    pub fn servers(&self) -> u16
        ensures { result ≡ length self.now.rows }
    {
        self.table.count()
    }

    /// The rows of all servers, in the order of their numbers: the demand bound holds of them.
    pub fn rows(&self) -> &[Row]
        ensures rows { result.now ≡ self.now.rows }
        ensures bound { Sound self.now.instant self.now.rows }
    {
        self.table.rows()
    }

    /// The row of a server, if there is one of this number.
    pub fn row(&self, server: u16) -> Option<Row>
        ensures { result ≡ row_in self.now.rows server }
    {
        self.table.row(server)
    }

    /// The donor rule, as it stands.
    pub fn rule(&self) -> &R
        ensures { result.now ≡ self.now.rule }
    {
        &self.rule
    }
}
