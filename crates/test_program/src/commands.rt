use crate::answers::words_of;
use npa_answers::{Command, read_command};
use std::alloc::Global;
use std::test::Fail;

fn command(alloc: Global, text: &str) -> Result<Option<Command>, Fail> {
    Ok(read_command(&words_of(alloc, text)?))
}

fn search(budget: u32, workers: u32) -> Option<Command> {
    Some(Command::Search { budget, workers })
}

#[test]
fn commands_and_their_options(rt: HostRuntime) -> Result<(), Fail> {
    let alloc = rt.alloc();
    assert!(rt; command(alloc, "check f")? == Some(Command::Check));
    assert!(rt; command(alloc, "search f a")? == search(10_000, 4));
    assert!(rt; command(alloc, "search f a --budget 0 --workers 16")? == search(0, 16));
    assert!(rt; command(alloc, "search f --budget")? == search(10_000, 4));
    assert!(rt; command(alloc, "verify f a c")? == Some(Command::Verify));
    assert!(rt; command(alloc, "replay f a r")? == Some(Command::Replay));
    assert!(rt;
        command(alloc, "gen 1000")?
            == Some(Command::Gen {
                n: 1_000,
                workers: 4
            })
    );
    Ok(())
}

#[test]
fn words_that_are_no_command(rt: HostRuntime) -> Result<(), Fail> {
    for text in [
        "",
        "check",
        "check f g",
        "search f",
        "search f a --workers 4 --budget 1",
        "search f a --budget 1 --budget 1",
        "search f a --budget 01",
        "search f a --budget 100001",
        "search f a --budget=1",
        "search f a --workers 0",
        "search f a --workers 17",
        "verify f a",
        "replay f a r --workers 1",
        "gen 0",
        "gen 1001",
        "gen +1",
        "--help",
    ] {
        assert!(rt; command(rt.alloc(), text)?.is_none(), "at {text}");
    }
    Ok(())
}
