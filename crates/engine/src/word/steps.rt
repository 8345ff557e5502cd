// The way from place to place on the run of a pair, one command at a time.
ghost use Rattle.std.specs.Prelude.{◌≡◌, false};
ghost use Rattle.rule.specs.Pairs.{start_of};
ghost use Rattle.rule.specs.Rule.{command_by, command, obeyed, next};
ghost use Rattle.rule.specs.Whole.{is_zero, whole};
ghost use Rattle.engine.specs.Words.{state_of};

use super::Held;
use crate::registers::Registers;
use rule::command::{Command, Sign};
use rule::pair::AdmittedPair;
use rule::words::{halved, is_fourfold, is_odd};

// The command by four tests: a is odd, b is odd, 4 divides a + b, δ is at least 0.
fn command_by(odd_a: bool, odd_b: bool, fourfold: bool, exchange: bool) -> Command
    ensures { result ≡ command_by odd_a odd_b fourfold exchange }
{
    match (odd_a, odd_b) {
        (false, false) => Command::Both,
        (false, true) => Command::Cross,
        (true, false) => Command::Shift,
        (true, true) => Command::PlusMinus {
            sign: if fourfold { Sign::Plus } else { Sign::Minus },
            exchange,
        },
    }
}

impl Held {
    // The start of the run of a pair.
    pub(super) fn start(pair: AdmittedPair) -> Held
        ensures order { result.order ≡ pair.order }
        ensures state { state_of result.registers ≡ start_of pair }
    {
        Held {
            order: pair.order(),
            registers: Registers::start(pair),
        }
    }

    // The command that the low bits of a and b and δ fix.
    fn command(self) -> Command
        ensures { result ≡ command whole (state_of self.registers) }
    {
        let Registers { a, b, delta, .. } = self.registers;
        command_by(is_odd(a), is_odd(b), is_fourfold(a + b), delta >= 0)
    }

    // The registers once a command is done.
    fn obeyed(self, command: Command) -> Registers
        ensures { state_of result ≡ obeyed whole command (state_of self.registers) }
    {
        let registers = self.registers;
        match command {
            Command::Both => Registers {
                a: halved(registers.a),
                b: halved(registers.b),
                twos: registers.twos + 1,
                count: registers.count + 1,
                ..registers
            },
            Command::Cross => Registers {
                a: registers.b,
                b: halved(registers.a),
                delta: 1 - registers.delta,
                count: registers.count + 1,
                ..registers
            },
            Command::Shift => Registers {
                b: halved(registers.b),
                delta: registers.delta + 1,
                count: registers.count + 1,
                ..registers
            },
            Command::PlusMinus { sign, exchange } => registers.exchanged(exchange).combined(sign),
        }
    }

    // The command that is due, and the place on the run after it.
    pub(super) fn step(self) -> (Command, Held)
        requires { is_zero self.registers.b ≡ false }
        ensures command { result.0 ≡ command whole (state_of self.registers) }
        ensures order { result.1.order ≡ self.order }
        ensures state { state_of result.1.registers ≡ next whole (state_of self.registers) }
    {
        let command = self.command();
        let next = Held {
            order: self.order,
            registers: self.obeyed(command),
        };
        (command, next)
    }
}
