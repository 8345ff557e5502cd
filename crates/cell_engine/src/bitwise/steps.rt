// The way from place to place on the run of a pair, one command at a time.
ghost use Rattle.std.specs.Prelude.{◌≡◌, ◌≤◌, false};
ghost use Rattle.rule.specs.Pairs.{order_of, start_of};
ghost use Rattle.rule.specs.Rule.{command, next};
ghost use Rattle.rule.specs.Whole.{half, is_zero, whole};
ghost use Rattle.cell.specs.Links.{links};
ghost use Rattle.cell.specs.declared.cell.Cell.TheVariants.{Started};
ghost use Rattle.cell_engine.specs.CellMeaning.{state_of};

use super::Held;
use crate::passage::Passage;
use cell::cell::Cell;
use cell::link::Link;
use rule::command::Command;
use rule::pair::AdmittedPair;
use rule::words::{halved, is_odd};

impl Held {
    // The start of the run of a pair.
    pub(super) fn start(pair: AdmittedPair) -> Held
        requires { order_of pair ≤ 48 }
        ensures order { result.order ≡ pair.order }
        ensures state { state_of result ≡ start_of pair }
    {
        Held {
            order: pair.order(),
            a: pair.a(),
            b: pair.b(),
            delta: 0,
            twos: 0,
            count: 0,
        }
    }

    // The link with the start mark: the lowest bits, δ and twos.
    fn link(self) -> Link
        ensures { result ≡ links (state_of self) 0 }
    {
        Link {
            start: true,
            a: is_odd(self.a),
            b: is_odd(self.b),
            delta: self.delta,
            twos: self.twos,
        }
    }

    // Both numbers on their way through a fresh cell, which has taken the link with the start mark.
    fn sent(self) -> Passage
        ensures cell { result.cell ≡ Started (links (state_of self) 0) }
        ensures a { result.a ≡ half self.a }
        ensures b { result.b ≡ half self.b }
    {
        let mut cell = Cell::new();
        cell.take(self.link());
        Passage {
            cell,
            a: halved(self.a),
            b: halved(self.b),
        }
    }

    // The command that is due, and the place on the run after it.
    pub(super) fn step(self) -> (Command, Held)
        requires { is_zero self.b ≡ false }
        ensures command { result.0 ≡ command whole (state_of self) }
        ensures order { result.1.order ≡ self.order }
        ensures state { state_of result.1 ≡ next whole (state_of self) }
    {
        let mut passage = self.sent();
        let first = passage.send();
        let command = passage.command().unwrap();
        let (a, b) = passage.read(first, self.order.value());
        let next = Held {
            order: self.order,
            a,
            b,
            delta: first.delta,
            twos: first.twos,
            count: self.count + 1,
        };
        (command, next)
    }
}
