// The calls of an engine, one by one.
use crate::refused::check_refused;
use crate::relay::Relay;
use cell_engine::bitwise::CellEngine;
use engine::engine::Engine;
use engine::word::WordEngine;
use rule::command::Command;
use rule::fault::Layer;
use rule::pair::admitted;
use std::process::Abort;
use std::test::Fail;

// What the questions of an engine answer; the default is the start of a run whose a is 0.
#[derive(Clone, Copy, PartialEq, Eq, Debug, Default)]
struct Answers {
    idle: bool,
    over: bool,
    a: i64,
    delta: i16,
    twos: u16,
    count: u16,
}

impl Answers {
    fn of<E: Engine>(engine: &E) -> Answers {
        Answers {
            idle: engine.is_idle(),
            over: engine.is_over(),
            a: engine.a(),
            delta: engine.delta(),
            twos: engine.twos(),
            count: engine.count(),
        }
    }
}

// An engine of any kind, from idle to the end of one run and into the next.
fn check_calls<E: Engine>(rt: &impl Abort, engine: &mut E) -> Result<(), Fail> {
    let idle = Answers {
        idle: true,
        ..Answers::default()
    };
    assert_eq!(rt; Answers::of(engine), idle);
    check_refused(rt, engine.advance(), 22, Layer::Engine, 0);
    assert_eq!(rt; Answers::of(engine), idle);

    engine.begin(admitted(3, 0, 6)?)?;
    assert_eq!(rt; Answers::of(engine), Answers::default());
    assert_eq!(rt; engine.advance(), Ok(Command::Both));
    let both = Answers {
        twos: 1,
        count: 1,
        ..Answers::default()
    };
    assert_eq!(rt; Answers::of(engine), both);
    assert_eq!(rt; engine.advance(), Ok(Command::Cross));
    let over = Answers {
        over: true,
        a: 3,
        delta: 1,
        twos: 1,
        count: 2,
        ..Answers::default()
    };
    assert_eq!(rt; Answers::of(engine), over);
    check_refused(rt, engine.advance(), 24, Layer::Engine, 0);
    assert_eq!(rt; Answers::of(engine), over);

    engine.begin(admitted(3, 5, 4)?)?;
    assert_eq!(rt;
        Answers::of(engine),
        Answers {
            a: 5,
            ..Answers::default()
        }
    );
    assert_eq!(rt; engine.advance(), Ok(Command::Shift));
    let shifted = Answers {
        a: 5,
        delta: 1,
        count: 1,
        ..Answers::default()
    };
    assert_eq!(rt; Answers::of(engine), shifted);
    Ok(())
}

#[test]
fn word_engine(rt: HostRuntime) -> Result<(), Fail> {
    check_calls(&rt, &mut WordEngine::new())
}

#[test]
fn cell_engine(rt: HostRuntime) -> Result<(), Fail> {
    check_calls(&rt, &mut CellEngine::new())
}

// It takes order 48 and refuses 49, and then holds what it held.
#[test]
fn orders_of_the_cell_engine(rt: HostRuntime) -> Result<(), Fail> {
    let mut engine = CellEngine::new();
    engine.begin(admitted(48, 5, 4)?)?;
    let above = engine.begin(admitted(49, 0, 6)?);
    check_refused(&rt, above, 25, Layer::Engine, 0);
    assert_eq!(rt; engine.advance(), Ok(Command::Shift));
    Ok(())
}

// The engine below is in the middle of a run of its own, of which the one above knows nothing.
#[test]
fn engine_over_an_engine(rt: HostRuntime) -> Result<(), Fail> {
    let mut below = WordEngine::new();
    below.begin(admitted(3, 5, 2)?)?;
    below.advance()?;
    check_calls(&rt, &mut Relay::over(below))
}
