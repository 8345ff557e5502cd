// The reduction of a pair: its run on any engine, told to the followers, and what they end with (docs/FOLLOWERS.md).
ghost use Rattle.std.specs.Prelude.{◌≡◌, length};
ghost use Rattle.rule.specs.Pairs.{start_of};
ghost use Rattle.rule.specs.Rule.{told, Running};
ghost use Rattle.rule.specs.Whole.{whole};
ghost use Rattle.follower.specs.Following.{table_at};
ghost use Rattle.reduction.specs.Reduces.{Reduces};

use crate::readout::read_out;
use engine::engine::Engine;
use engine::run::{Run, run_to_end};
use follower::cofactor::Cofactor;
use follower::follower::Follower;
use follower::fraction::Fraction;
use follower::pair::Pair;
use frame::reduction::Reduction;
use rule::command::Command;
use rule::fault::Fault;
use rule::pair::AdmittedPair;

// Begins a follower with a pair and tells it the commands of the pair's run, which it takes one and all.
fn follow_run<F: Follower>(follower: &mut F, pair: AdmittedPair, commands: &[Command])
    requires run { commands.now ≡ told whole (length commands.now) (start_of pair) }
    requires running { Running whole (start_of pair) (length commands.now) }
    ensures { F.table follower.new ≡ table_at F.first F.turns pair (length commands.now) }
{
    follower.begin(pair);
    for command in commands {
        follower.follow(*command).unwrap();
    }
}

// The reduction of a pair on any engine, with the run that it took.
pub fn reduce<E: Engine>(engine: &mut E, pair: AdmittedPair) -> Result<(Run, Reduction), Fault>
    ensures { Reduces E.largest (E.meaning engine.old) pair result (E.meaning engine.new) }
{
    let run = run_to_end(engine, pair)?;
    let mut followers = Pair {
        first: Cofactor::new(),
        second: Fraction::new(),
    };
    follow_run(&mut followers, pair, run.commands.as_slice());
    let reduction = read_out(pair, engine, &followers).unwrap();
    Ok((run, reduction))
}
