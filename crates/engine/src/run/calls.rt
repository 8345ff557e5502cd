// The call that runs an engine to its end.
ghost use Rattle.std.specs.Prelude.{◌≡◌};
ghost use Rattle.rule.specs.Pairs.{order_of, start_of};
ghost use Rattle.engine.specs.Meaning.{held};
ghost use Rattle.engine.specs.Runs.{Finished, Runs};

use super::Run;
use crate::commands::Commands;
use crate::engine::Engine;
use rule::fault::Fault;
use rule::pair::AdmittedPair;
use rule::words::scaled;

// Advances an engine from the start of a pair's run until b is 0, which is when it refuses to go on.
fn advance_to_end<E: Engine>(engine: &mut E, pair: AdmittedPair) -> Run
    requires { E.meaning engine.old ≡ held (order_of pair) (start_of pair) }
    ensures { Finished pair result (E.meaning engine.new) }
{
    let mut commands = Commands::new();
    while let Ok(command) = engine.advance() {
        commands.push(command);
    }
    let twos = engine.twos();
    let gcd = scaled(engine.a(), twos).unwrap();
    Run {
        pair,
        commands,
        twos,
        gcd,
    }
}

// The whole run of a pair: begins the engine with it and advances the engine to the end.
pub fn run_to_end<E: Engine>(engine: &mut E, pair: AdmittedPair) -> Result<Run, Fault>
    ensures { Runs E.largest (E.meaning engine.old) pair result (E.meaning engine.new) }
{
    engine.begin(pair)?;
    Ok(advance_to_end(engine, pair))
}
