// What every follower is: it is told the commands of a run and keeps a table (docs/FOLLOWERS.md).
ghost use Rattle.std.specs.Prelude.{◌≡◌, Bool, false, ℤ};
ghost use Rattle.rule.specs.Rule.{State};
ghost use Rattle.rule.specs.declared.command.Command.{Command};
ghost use Rattle.rule.specs.declared.pair.AdmittedPair.{AdmittedPair};
ghost use Rattle.follower.specs.Following.{Followed, Follows};

use rule::command::Command;
use rule::fault::Fault;
use rule::pair::AdmittedPair;

pub trait Follower {
    // What the follower holds, and what that is of a given follower.
    ghost Table: { Type 0 };

    ghost table: { Self → Table };

    // The table before begin, and the one that begin sets for a pair.
    ghost blank: { Table };

    ghost first: { AdmittedPair → Table };

    // Whether it takes a command, and the table after one that it takes.
    ghost accepts: { Table → Command → Bool };

    ghost turns: { Table → Command → Table };

    // How the table goes with the pair and with where the rule stands.
    ghost relation: { AdmittedPair → Table → State ℤ → Type 0 };

    fn begin(&mut self, pair: AdmittedPair)
        ensures { table self.new ≡ first pair };

    fn takes(&self, command: Command) -> bool
        ensures { result ≡ accepts (table self.now) command };

    fn follow(&mut self, command: Command) -> Result<(), Fault>
        ensures { Followed accepts turns (table self.old) command result (table self.new) };

    // Before begin no command is taken.
    ghost unbegun: { (c : Command) → accepts blank c ≡ false };

    // Told the commands of the run of its pair, it takes each and stays in its relation.
    ghost follows: { Follows first accepts turns relation };
}
