// Two followers of any make, side by side, are again a follower.
ghost use Rattle.std.specs.Prelude.{◌&&◌};
ghost use Rattle.follower.specs.FollowingLemmas.{follows_beside};
ghost use Rattle.std.proofs.Common.{rules};

use crate::follower::Follower;
use rule::command::Command;
use rule::fault::{Fault, Layer, Reason};
use rule::pair::AdmittedPair;

#[derive(Drop)]
pub struct Pair<F, G> {
    pub first: F,
    pub second: G,
}

impl<F: Follower, G: Follower> Follower for Pair<F, G> {
    ghost Table = { F.Follower.Table × G.Follower.Table };

    ghost table = { λ s. (F.Follower.table s.first, G.Follower.table s.second) };

    ghost blank = { (F.Follower.blank, G.Follower.blank) };

    ghost first = { λ p. (F.Follower.first p, G.Follower.first p) };

    ghost accepts = { λ t c. F.Follower.accepts t.0 c && G.Follower.accepts t.1 c };

    ghost turns = { λ t c. (F.Follower.turns t.0 c, G.Follower.turns t.1 c) };

    ghost relation = { λ p t s. F.Follower.relation p t.0 s × G.Follower.relation p t.1 s };

    ghost unbegun = { Prim.search rules };

    ghost follows = { let f = F.Follower in let h = G.Follower in follows_beside f.first f.accepts f.turns f.relation h.first h.accepts h.turns h.relation F.Follower.follows G.Follower.follows };

    fn begin(&mut self, pair: AdmittedPair) {
        self.first.begin(pair);
        self.second.begin(pair);
    }

    fn takes(&self, command: Command) -> bool {
        self.first.takes(command) && self.second.takes(command)
    }

    fn follow(&mut self, command: Command) -> Result<(), Fault> {
        if !self.takes(command) {
            return Err(Reason::CommandNotTaken.by(Layer::Follower));
        }
        self.first.follow(command)?;
        self.second.follow(command)
    }
}
