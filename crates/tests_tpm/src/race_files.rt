//! Files of events and of clients' commands, and the places of their bad lines.
use std::alloc::Global;
use std::test::Fail;
use tpm_commands::{CommandsError, EventLine, read_client_commands, read_events};
use tpm_model::Command;

// A pin of 32 bytes.
const PIN: &str = "0101010101010101010101010101010101010101010101010101010101010101";

// Which event it is, of which client, and which path.
fn told(alloc: Global, event: &EventLine) -> Result<String, Fail> {
    Ok(match event {
        EventLine::Step(client) => format!(in alloc; "step {client}")?,
        EventLine::Stranger(Command::FlushSession { session }) => {
            format!(in alloc; "flush {session}")?
        }
        EventLine::Stranger(_) => format!(in alloc; "command")?,
        EventLine::Update { pin, path } => format!(in alloc; "update {} {}", pin[31], path.text())?,
    })
}

// The events of a file of two clients.
fn events(alloc: Global, file: &[u8]) -> Result<Result<String, CommandsError>, Fail> {
    let events = match read_events(alloc, file, 2) {
        Ok(events) => events,
        Err(error) => return Ok(Err(error)),
    };
    let mut all = String::new(alloc);
    for event in events.as_slice() {
        let one = told(alloc, event)?;
        all.push_str(one.as_str())?;
        all.push_str(";")?;
    }
    Ok(Ok(all))
}

#[test]
fn events_are_read(rt: HostRuntime) -> Result<(), Fail> {
    let alloc = rt.alloc();
    let file = format!(in alloc;
        "step 1\n# a comment\n\nupdate {PIN} a/b.policy\ncommand flush-session 0000000a\ncommand start-session\nstep 0"
    )?;
    let Ok(told) = events(alloc, file.as_bytes())? else {
        return Err("a bad line")?;
    };
    assert_eq!(rt;
        told.as_str(),
        "step 1;update 1 a/b.policy;flush 10;command;step 0;"
    );
    Ok(())
}

// The line of this text, behind a good one.
fn behind_a_step(alloc: Global, line: &[u8]) -> Result<Option<CommandsError>, Fail> {
    let file = [b"step 0\n".as_slice(), line, b"\nstep 0\n"].concat(alloc)?;
    Ok(read_events(alloc, &file, 2).err())
}

// Lines that are no events.
const OTHERS: [&[u8]; 10] = [
    b"step",
    b"step 2",
    b"step 00",
    b"step 1 1",
    b" step 1",
    b"command",
    b"command # start-session",
    b"command  start-session",
    b"start-session",
    b"update 0101010101010101010101010101010101010101010101010101010101010101 a b",
];

#[test]
fn other_lines_are_no_events(rt: HostRuntime) -> Result<(), Fail> {
    for line in OTHERS {
        assert_eq!(rt;
            behind_a_step(rt.alloc(), line)?,
            Some(CommandsError::BadLine(1)),
            "{line:?}"
        );
    }
    Ok(())
}

// How many commands of two clients a file has, or its first bad line.
fn count(alloc: Global, file: &[u8]) -> Result<usize, CommandsError> {
    match read_client_commands(alloc, file, 2) {
        Ok(commands) => Ok(commands.len()),
        Err(error) => Err(error),
    }
}

#[test]
fn clients_commands_are_read(rt: HostRuntime) {
    let alloc = rt.alloc();
    let good = b"1 start-session\n\n# none\n0 flush-session 0000000a\n";
    assert_eq!(rt; count(alloc, good), Ok(2));
    let others: [&[u8]; 5] = [
        b"\n2 start-session",
        b"\n01 start-session",
        b"\n1 ",
        b"\n1  start-session",
        b"\nstart-session",
    ];
    for file in others {
        assert_eq!(rt; count(alloc, file), Err(CommandsError::BadLine(1)));
    }
}
