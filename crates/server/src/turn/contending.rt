// The earliest row of a table, found by the one text there is for it.
ghost use Rattle.std.specs.Prelude.{◌≡◌, Bool};
ghost use Rattle.earliest.specs.Earliest.{Tells};
ghost use Rattle.server.specs.declared.row.Row.{Row as ARow};
ghost use Rattle.server.specs.Table.{table_rows};
ghost use Rattle.server.specs.Turn.{earliest_row};

use crate::row::Row;
use crate::table::Table;
use earliest::earliest_where;

impl Table {
    // The place of the earliest row that takes part, if one does.
    pub(crate) fn earliest<F: Fn(&Row) -> bool>(&self, takes_part: F) -> Option<u16>
        requires { F.IsAlwaysCallable takes_part }
        ensures { (takes : ARow → Bool) → Tells F.Fn takes_part takes → result ≡ earliest_row takes (table_rows self.now) }
    {
        earliest_where(self.rows(), takes_part).map(|place| place as u16)
    }
}
