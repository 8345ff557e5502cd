// A cell: it takes the links of a state one by one, and gives those of the state after one command of the rule.
ghost use Rattle.std.specs.Prelude.{◌≡◌};
ghost use Rattle.cell.specs.declared.cell.Cell.TheVariants.{Idle};
ghost use Rattle.cell.specs.Cells.{delta_after, twos_after, taken};

use crate::link::Link;
use crate::run::Run;
use rule::command::Command;

// What a cell has taken: no start yet, the link with the start, or more of the run since then.
#[derive(Clone, Copy, PartialEq, Eq, Debug, Default)]
pub enum Cell {
    #[default]
    Idle,
    Started(Link),
    Running(Run),
}

// δ once the command is done, in 16 bits.
fn delta_after(command: Command, delta: i16) -> i16
    ensures { result ≡ delta_after command delta }
{
    match command {
        Command::Cross => 1i16.wrapping_sub(delta),
        Command::Shift => delta.wrapping_add(1),
        Command::PlusMinus { .. } if delta > 0 => -delta,
        Command::Both | Command::PlusMinus { .. } => delta,
    }
}

// The halvings of both once the command is done, in 16 bits.
fn twos_after(command: Command, twos: u16) -> u16
    ensures { result ≡ twos_after command twos }
{
    match command {
        Command::Both => twos.wrapping_add(1),
        _ => twos,
    }
}

impl Cell {
    // A cell that has taken no start.
    pub fn new() -> Cell
        ensures { result ≡ Idle }
    {
        Cell::default()
    }

    // Takes one link and gives one.
    pub fn take(&mut self, link: Link) -> Link
        ensures given { result ≡ (taken self.old link).given }
        ensures cell { self.new ≡ (taken self.old link).cell }
    {
        match self {
            Cell::Idle if link.start => {
                *self = Cell::Started(link);
                Link::default()
            }
            Cell::Idle => Link::default(),
            Cell::Started(first) => {
                let mut run = Run::begin(*first, link.a, link.b);
                let given = Link {
                    start: true,
                    delta: delta_after(run.command, first.delta),
                    twos: twos_after(run.command, first.twos),
                    ..run.take(link.a, link.b)
                };
                *self = Cell::Running(run);
                given
            }
            Cell::Running(run) => run.take(link.a, link.b),
        }
    }
}
