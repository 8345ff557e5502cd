// The cofactor follower: at the end of a run it knows cofactors of the greatest common divisor.
ghost use Rattle.std.specs.Prelude.{◌≡◌};
ghost use Rattle.follower.specs.CofactorTable.{cofactor_table};
ghost use Rattle.follower.specs.Readout.{cofactors_at};

use crate::entries::Entries;
use crate::table::TableFollower;

pub type Cofactor = TableFollower<Entries>;

impl TableFollower<Entries> {
    // The cofactors of a run that ended with a; none before begin.
    pub fn cofactors(&self, a: i64) -> Option<Cofactors>
        ensures { result ≡ cofactors_at a (cofactor_table self.now) }
    {
        self.table.map(|entries| entries.cofactors(a))
    }
}

pub use crate::entries::Cofactors;
