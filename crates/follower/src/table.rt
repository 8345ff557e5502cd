// What the table of a follower is, and the follower that keeps one once it is begun.
ghost use Rattle.std.specs.Prelude.{◌≡◌, Bool, ℤ, Some, None, Option};
ghost use Rattle.std.specs.Option.{option_map};
ghost use Rattle.rule.specs.Rule.{State};
ghost use Rattle.rule.specs.declared.command.Command.{Command};
ghost use Rattle.rule.specs.declared.pair.AdmittedPair.{AdmittedPair};
ghost use Rattle.follower.specs.Following.{Follows, Settled, begun_first, begun_accepts, begun_turns, BegunRelated};
ghost use Rattle.follower.specs.FollowingLemmas.{follows_begun};
ghost use Rattle.std.proofs.Common.{rules};

use crate::follower::Follower;
use rule::command::Command;
use rule::fault::{Fault, Layer, Reason};
use rule::pair::AdmittedPair;

pub trait Table: Copy {
    // What a table is to a reader, and what that is of a given one.
    ghost Rows: { Type 0 };

    ghost rows: { Self → Rows };

    // The table that a pair begins with.
    ghost first: { AdmittedPair → Rows };

    // Whether it takes a command, and the table after one that it takes.
    ghost accepts: { Rows → Command → Bool };

    ghost turns: { Rows → Command → Rows };

    // How the table goes with the pair and with where the rule stands.
    ghost relation: { AdmittedPair → Rows → State ℤ → Type 0 };

    fn start(pair: AdmittedPair) -> Self
        ensures { rows result ≡ first pair };

    fn turned(self, command: Command) -> Option<Self>
        ensures { Settled rows (accepts (rows self) command) (turns (rows self) command) result };

    // A call of its own, since it is asked before each command: a table that takes all of them need not be turned to tell.
    fn takes(self, command: Command) -> bool
        ensures { result ≡ accepts (rows self) command }
    {
        self.turned(command).is_some()
    }

    // Told the commands of the run of its pair, it takes each and stays in its relation.
    ghost follows: { Follows first accepts turns relation };
}

// A follower with a table from its begin on.
#[derive(Drop)]
pub struct TableFollower<T> {
    pub(crate) table: Option<T>,
}

impl<T: Table> TableFollower<T> {
    // A follower that is not begun.
    pub fn new() -> TableFollower<T>
        ensures { option_map T.rows result.table ≡ None }
    {
        TableFollower { table: None }
    }
}

impl<T: Table> Follower for TableFollower<T> {
    ghost Table = { Option T.Rows };

    ghost table = { λ s. option_map T.rows s.table };

    ghost blank = { None };

    ghost first = { begun_first T.first };

    ghost accepts = { begun_accepts T.accepts };

    ghost turns = { begun_turns T.turns };

    ghost relation = { BegunRelated T.relation };

    ghost unbegun = { Prim.search rules };

    ghost follows = { follows_begun T.first T.accepts T.turns T.relation T.follows };

    fn begin(&mut self, pair: AdmittedPair) {
        self.table = Some(T::start(pair));
    }

    fn takes(&self, command: Command) -> bool {
        self.table.is_some_and(|table| table.takes(command))
    }

    fn follow(&mut self, command: Command) -> Result<(), Fault> {
        let next = self
            .table
            .and_then(|table| table.turned(command))
            .ok_or(Reason::CommandNotTaken.by(Layer::Follower))?;
        self.table = Some(next);
        Ok(())
    }
}
