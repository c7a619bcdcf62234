//! Lines of commands and of answers that no case of the program shows, and each call with ample memory.
use hash_bank::Bank;
use pl_base::Small;
use std::alloc::Global;
use std::process::Abort;
use std::test::Fail;
use tpm_commands::{CommandsError, read_command, read_commands, response_line};
use tpm_model::{Command, Refusal, Response};

// How many commands a file has.
fn count(alloc: Global, file: &[u8]) -> Result<usize, CommandsError> {
    match read_commands(alloc, file) {
        Ok(commands) => Ok(commands.len()),
        Err(error) => Err(error),
    }
}

#[test]
fn lines_are_read(rt: HostRuntime) {
    let alloc = rt.alloc();
    assert!(rt;
        matches!(
            read_command(b"start-session sha384"),
            Some(Command::StartSession { hash: Bank::Sha384 })
        )
    );
    assert!(rt; read_command(b"start-session sha256").is_none());
    assert!(rt; read_command(b"").is_none());
    assert_eq!(rt;
        count(alloc, b"# none\n\nstart-session\nevict 81000000"),
        Ok(2)
    );
    assert_eq!(rt;
        count(alloc, b"\nnv-read 1\n"),
        Err(CommandsError::BadLine(1))
    );
}

// The line of an answer is this one.
fn tells(rt: &impl Abort, alloc: Global, response: &Response, line: &[u8]) -> Result<(), Fail> {
    match response_line(alloc, response) {
        Ok(told) => assert_eq!(rt; told.as_slice(), line),
        Err(_) => return Err("no memory".into()),
    }
    Ok(())
}

#[test]
fn answers_have_lines(rt: HostRuntime) -> Result<(), Fail> {
    let alloc = rt.alloc();
    let refused = Response::Refused(Refusal::SealSize);
    tells(&rt, alloc, &refused, b"refused seal-size\n")?;
    let content = Small::from_slice(&[0x00, 0x0b, 0x7f]).ok_or("three bytes")?;
    tells(&rt, alloc, &Response::Content(content), b"content 000b7f\n")?;
    Ok(())
}
