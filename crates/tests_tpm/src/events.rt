//! That a list of commands is executed to its end, with ample memory.
use hash_bank::{Bank, Banks};
use tpm_model::{Command, Refusal, Response, State};
use tpm_worlds::step_all;

const BANKS: Banks = Banks {
    sha1: false,
    sha256: true,
    sha384: false,
    sha512: false,
};

const FIRST: u32 = 0x0300_0000;

/// Whether a session was started and ended, and was gone at its second end.
fn is_started_and_ended(answers: &[Response]) -> bool {
    let [started, ended, again] = answers else {
        return false;
    };
    matches!(started, Response::Session(handle) if *handle == FIRST)
        && matches!(ended, Response::Done)
        && matches!(again, Response::Refused(Refusal::Handle(handle)) if *handle == FIRST)
}

#[test]
fn commands_are_answered_in_order(rt: HostRuntime) {
    let alloc = rt.alloc();
    let mut state = State::fresh(alloc, BANKS);
    let commands = [
        Command::StartSession { hash: Bank::Sha256 },
        Command::FlushSession { session: FIRST },
        Command::FlushSession { session: FIRST },
    ];
    let answers = step_all(alloc, &mut state, &commands);
    assert!(rt; matches!(&answers, Ok(list) if is_started_and_ended(list.as_slice())));
    assert_eq!(rt; state.next_session(), 1);
}
