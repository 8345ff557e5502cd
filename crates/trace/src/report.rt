// What `trace` prints of a reduction.
use engine::run::Run;
use frame::reduction::Reduction;
use std::fmt;

#[derive(Drop)]
pub struct Report {
    pub run: Run,
    pub reduction: Reduction,
}

impl fmt::Display for Report {
    fn fmt<W: fmt::Write>(&self, f: &mut fmt::Formatter<W>) -> fmt::Result {
        let pair = self.run.pair;
        let a = pair.a();
        let b = pair.b();
        let Reduction {
            order: _,
            count,
            twos,
            g,
            u,
            v,
            numerator,
            denominator,
        } = self.reduction;
        writeln!(f, "pair       {pair}")?;
        write!(f, "commands  ")?;
        for command in self.run.commands.as_slice() {
            write!(f, " {command}")?;
        }
        writeln!(f, "")?;
        writeln!(f, "count      {count}")?;
        writeln!(f, "twos       {twos}")?;
        writeln!(f, "gcd        {g}")?;
        writeln!(f, "cofactors  {u}·{a} + {v}·{b} = {g}")?;
        writeln!(f, "fraction   {numerator}/{denominator}")
    }
}
