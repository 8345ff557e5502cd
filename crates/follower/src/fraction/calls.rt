// What the fraction follower does.
ghost use Rattle.std.specs.Prelude.{◌≡◌, true};
ghost use Rattle.follower.specs.Fraction.{numerator_of, denominator_of, FractionRows, FractionRowsRelated, first_table, rows_after};
ghost use Rattle.follower.specs.FractionTable.{rows_of, fraction_table, read_out};
ghost use Rattle.follower.specs.Fractions.{tables_follow};

use super::{KeptRows, Ratio};
use crate::kept::KeptRow;
use crate::row::Row;
use crate::table::{Table, TableFollower};
use rule::command::Command;
use rule::pair::AdmittedPair;

impl KeptRows {
    // The first column, read as signed numbers, both negated if the lower one is negative.
    fn read_out(self) -> Ratio
        ensures numerator { result.numerator ≡ numerator_of (rows_of self) }
        ensures denominator { result.denominator ≡ denominator_of (rows_of self) }
    {
        let column = Row {
            left: self.first.signed_left(),
            right: self.second.signed_left(),
        };
        let Row { left, right } = column.negated_by(column.right < 0);
        Ratio {
            numerator: left,
            denominator: right,
        }
    }
}

impl Table for KeptRows {
    ghost Rows = { FractionRows };

    ghost rows = { rows_of };

    ghost first = { first_table };

    ghost accepts = { λ t c. true };

    ghost turns = { λ t c. rows_after c t };

    ghost relation = { FractionRowsRelated };

    ghost follows = { tables_follow };

    #[tactic(auto, using(crate::specs::Modulo::modulus_many))]
    fn start(pair: AdmittedPair) -> KeptRows {
        let order = pair.order();
        KeptRows {
            first: KeptRow {
                order,
                entries: Row { left: 1, right: 0 },
            },
            second: KeptRow {
                order,
                entries: Row { left: 0, right: 1 },
            },
        }
    }

    fn takes(self, _: Command) -> bool {
        true
    }

    fn turned(self, command: Command) -> Option<KeptRows> {
        Some(KeptRows {
            first: self.first.after(command),
            second: self.second.after(command),
        })
    }
}

impl TableFollower<KeptRows> {
    // The fraction that the table is read as; none before begin.
    pub fn read_out(&self) -> Option<Ratio>
        ensures { result ≡ read_out (fraction_table self.now) }
    {
        self.table.map(|rows| rows.read_out())
    }
}
