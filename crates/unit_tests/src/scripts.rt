// Scripts of calls: lines that are calls, lines that are none with what is said of them, and the report of a whole script.
use engine::word::WordEngine;
use script::fault::LineError;
use script::line::read_line;
use script::parse::{Script, parse};
use script::report::Report;
use session::perform::perform;
use std::alloc::Global;
use std::test::Fail;
use unit::unit::Unit;

const NO_CALLS: [(&str, &str); 18] = [
    (
        "wrok 16",
        "'wrok' is not a call; the calls are load, stint, work, collect and clear",
    ),
    (
        "Work 16",
        "'Work' is not a call; the calls are load, stint, work, collect and clear",
    ),
    (
        "work,16",
        "'work,16' is not a call; the calls are load, stint, work, collect and clear",
    ),
    (
        "é",
        "'é' is not a call; the calls are load, stint, work, collect and clear",
    ),
    ("work", "work wants one number"),
    ("stint 1 2", "stint wants one number"),
    ("collect\t", "collect wants one number"),
    (
        "work x9",
        "'x9' is not a number from 0 to 18446744073709551615",
    ),
    (
        "work -1",
        "'-1' is not a number from 0 to 18446744073709551615",
    ),
    (
        "work +1",
        "'+1' is not a number from 0 to 18446744073709551615",
    ),
    (
        "work 18446744073709551616",
        "'18446744073709551616' is not a number from 0 to 18446744073709551615",
    ),
    (
        "stint 1é",
        "'1é' is not a number from 0 to 18446744073709551615",
    ),
    ("collect 65537", "a buffer has at most 65536 bytes"),
    (
        "load 000",
        "a frame has two hexadecimal digits for each byte",
    ),
    ("load 0x05", "a frame has only hexadecimal digits"),
    ("load 00 05", "load wants one frame, its digits in one word"),
    ("clear now", "clear takes nothing"),
    ("clear # now", "clear takes nothing"),
];

const CALLS: [(&str, &str); 12] = [
    ("load", "load"),
    ("load 00050100030502", "load 00050100030502"),
    (" \tload\t 0A1b \t", "load 0a1b"),
    ("stint 16", "stint 16"),
    ("stint 0", "stint 0"),
    ("work 18446744073709551615", "work 18446744073709551615"),
    ("work 007", "work 7"),
    ("collect 0", "collect 0"),
    ("collect 14", "collect 14"),
    ("collect 65536", "collect 65536"),
    ("clear", "clear"),
    ("  clear  ", "clear"),
];

const SCRIPT: &str =
    "load 00050100030504\r\n\n \t\n  # a comment\nwork 3\nwrok\nwork 16\r\ncollect 14\nclear\r";

const REPORT: &str = "load 00050100030504: the pair 5, 4 of order 3
work 3: 3 commands, not over
line 6: 'wrok' is not a call; the calls are load, stint, work, collect and clear
work 16: 2 commands, over
collect 14: 000c010003000500000101ff0504
clear: done
";

#[test]
fn lines_that_are_no_call(rt: HostRuntime) -> Result<(), Fail> {
    for (line, message) in NO_CALLS {
        match read_line(rt.alloc(), line) {
            Err(LineError::Wrong(fault)) => assert_eq!(rt;
                format!(in rt.alloc(); "{fault}")?.as_str(),
                message
            ),
            _ => return Err(Fail::new(line)),
        }
    }
    Ok(())
}

#[test]
fn lines_that_are_calls(rt: HostRuntime) -> Result<(), Fail> {
    for (line, normal) in CALLS {
        match read_line(rt.alloc(), line) {
            Ok(Some(call)) => { assert_eq!(rt; format!(in rt.alloc(); "{call}")?.as_str(), normal) }
            _ => return Err(Fail::new(line)),
        }
    }
    Ok(())
}

fn reported(heap: Global, text: &str) -> Result<String, Fail> {
    let Script { calls, entries } = parse(heap, text)?;
    let room = Vec::with_capacity(heap, calls.len())?;
    let answers = perform(&mut Unit::over(WordEngine::new()), calls, room)?;
    let report = Report { entries, answers };
    Ok(format!(in heap; "{report}")?)
}

#[test]
fn a_script_is_reported_line_by_line(rt: HostRuntime) -> Result<(), Fail> {
    assert_eq!(rt; reported(rt.alloc(), SCRIPT)?.as_str(), REPORT);
    assert_eq!(rt; reported(rt.alloc(), "")?.as_str(), "");
    Ok(())
}
