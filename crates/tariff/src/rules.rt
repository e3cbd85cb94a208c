// Whether rows keep the rules.
ghost use Rattle.std.specs.Prelude.{◌≡◌};
ghost use Rattle.tariff.specs.Rows.{rows_good};

use crate::row::Row;
use crate::rows::Rows;

// Whether each row keeps the rules above the rows below it.
pub fn keep_rules(rows: &[Row]) -> bool
    ensures { result ≡ rows_good rows.now }
{
    // not `all`: its closure would not know that the rows below have passed
    for (i, row) in rows.iter().enumerate() {
        let below = Rows { rows: &rows[..i] };
        if below.check(row).is_err() {
            return false;
        }
    }
    true
}
