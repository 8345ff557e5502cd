// A bench: a unit on any engine, with the handle that ends a test, and the checks that each test makes of it.
use crate::tried::{FILLING, IS_OVER, NOT_OVER, Outcome, Tried};
use engine::engine::Engine;
use frame::pair::write_pair;
use rule::pair::admitted;
use std::process::Abort;
use std::test::Fail;
use unit::unit::{Followers, Unit};

#[derive(Drop)]
pub struct Bench<'a, R, E: Engine> {
    pub rt: &'a R,
    pub unit: Unit<E, Followers>,
}

impl<'a, R: Abort, E: Engine> Bench<'a, R, E> {
    // A new unit on this engine.
    pub fn over(rt: &'a R, engine: E) -> Bench<'a, R, E> {
        Bench {
            rt,
            unit: Unit::over(engine),
        }
    }

    // Makes the call, and holds its answer to the outcome.
    pub fn check(&mut self, call: Tried, outcome: Outcome) {
        // An assertion in each arm: the checker does not cover a value that a match chooses from several borrows.
        match call {
            Tried::Load(frame) => assert_eq!(self.rt; Outcome::of(self.unit.load(frame)), outcome),
            Tried::Stint(most) => assert_eq!(self.rt; Outcome::of(self.unit.stint(most)), outcome),
            Tried::Work(budget) => assert_eq!(self.rt;
                Outcome::of(self.unit.work(budget)),
                outcome
            ),
            Tried::Collect(length) => {
                let mut room = [FILLING; 256];
                let buffer = room.get_mut(..length).expect(self.rt, "a buffer above 256");
                let answer = self.unit.collect(buffer);
                assert_eq!(self.rt; Outcome::of_collect(self.rt, answer, buffer), outcome);
            }
            Tried::Clear => assert_eq!(self.rt; Outcome::of(self.unit.clear()), outcome),
        }
    }

    // The same of several calls, one after the other.
    pub fn check_all(&mut self, calls: &[(Tried, Outcome)]) {
        for (call, outcome) in calls {
            self.check(*call, *outcome);
        }
    }

    // Loads the frame of the pair a, b of this order: these numbers are what the pair holds, and what is read from its frame.
    pub fn load(&mut self, order: i64, a: i64, b: i64) -> Result<(), Fail> {
        let numbers = Outcome::Loaded(u16::try_from(order)?, a, b);
        let pair = admitted(order, a, b)?;
        assert_eq!(self.rt; Outcome::from(pair), numbers);
        let mut buffer = [0u8; 21];
        let length = write_pair(pair, &mut buffer)?;
        let frame = buffer.get(..length).ok_or("beyond the buffer")?;
        assert_eq!(self.rt; Outcome::of(self.unit.load(frame)), numbers);
        Ok(())
    }

    // Works the run of the pair that was loaded to its end, each work with the budget that comes after so many others, and answers how
    // many commands that were. Before its end there is no result, and behind it no work.
    pub fn work_out<F: Fn(u64) -> u64>(&mut self, budget: F) -> Result<u64, Fail>
        requires { F.IsAlwaysCallable budget }
    {
        // Added up in the loop: each work is checked on the way, and the last one ends it.
        let mut sum = 0u64;
        for before in 0u64..226 {
            self.check(Tried::Collect(49), NOT_OVER);
            let budget = budget(before);
            let worked = self.unit.work(budget)?;
            assert!(self.rt; worked.done >= 1 && worked.done <= budget);
            sum = sum.saturating_add(worked.done);
            if worked.over {
                self.check(Tried::Work(budget), IS_OVER);
                return Ok(sum);
            }
            assert_eq!(self.rt; worked.done, budget);
        }
        Err(Fail::new("not over"))
    }
}
