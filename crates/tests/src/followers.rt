// Followers that are told what is not their run.
use crate::refused::check_refused;
use follower::cofactor::Cofactor;
use follower::follower::Follower;
use follower::fraction::Fraction;
use follower::pair::Pair;
use rule::command::{Command, Sign};
use rule::fault::{Fault, Layer};
use rule::pair::admitted;
use std::process::Abort;
use std::test::Fail;

const COMMANDS: [Command; 7] = [
    Command::Both,
    Command::Cross,
    Command::Shift,
    Command::PlusMinus {
        sign: Sign::Plus,
        exchange: false,
    },
    Command::PlusMinus {
        sign: Sign::Minus,
        exchange: false,
    },
    Command::PlusMinus {
        sign: Sign::Plus,
        exchange: true,
    },
    Command::PlusMinus {
        sign: Sign::Minus,
        exchange: true,
    },
];

// The answer is that the command is not taken.
fn check_not_taken(rt: &impl Abort, answer: Result<(), Fault>) {
    check_refused(rt, answer, 26, Layer::Follower, 0);
}

// Before begin no command is taken.
fn check_not_begun<F: Follower>(rt: &impl Abort, follower: &mut F) {
    for command in COMMANDS {
        assert!(rt; !follower.takes(command));
        check_not_taken(rt, follower.follow(command));
    }
}

#[test]
fn before_begin(rt: HostRuntime) {
    check_not_begun(&rt, &mut Cofactor::new());
    check_not_begun(&rt, &mut Fraction::new());
    check_not_begun(
        &rt,
        &mut Pair {
            first: Cofactor::new(),
            second: Fraction::new(),
        },
    );
    assert!(rt; Cofactor::new().cofactors(1).is_none());
    assert!(rt; Fraction::new().read_out().is_none());
}

// B of a pair that is not even is another pair's command: the cofactor follower refuses it and stays, and so do the two side by side,
// though the fraction follower alone takes it.
#[test]
fn a_foreign_command(rt: HostRuntime) -> Result<(), Fail> {
    let pair = admitted(3, 5, 2)?;
    let mut cofactor = Cofactor::new();
    cofactor.begin(pair);
    assert!(rt; !cofactor.takes(Command::Both));
    check_not_taken(&rt, cofactor.follow(Command::Both));
    assert!(rt; cofactor.takes(Command::Shift));
    let mut fraction = Fraction::new();
    fraction.begin(pair);
    for command in COMMANDS {
        assert!(rt; fraction.takes(command));
    }
    let mut both = Pair {
        first: cofactor,
        second: fraction,
    };
    assert!(rt; !both.takes(Command::Both));
    check_not_taken(&rt, both.follow(Command::Both));
    assert_eq!(rt; both.follow(Command::Shift), Ok(()));
    Ok(())
}

// Told XP again and again, which is no pair's run, the cofactor follower comes to refuse.
#[test]
fn a_foreign_run(rt: HostRuntime) -> Result<(), Fail> {
    let mut cofactor = Cofactor::new();
    cofactor.begin(admitted(3, 7, 5)?);
    let command = Command::PlusMinus {
        sign: Sign::Plus,
        exchange: true,
    };
    let taken = (0u8..100).filter(|_| cofactor.follow(command).is_ok());
    assert!(rt; taken.count() < 100);
    Ok(())
}
