//! The end of a session.
ghost use Rattle.std.specs.Prelude.{◌≡◌, true};
ghost use Rattle.tpm_model.specs.declared.command.Command.TheVariants as command;
ghost use Rattle.tpm_model.specs.Fits.{fits};

use crate::why::Why;
use tpm_model::{Command, Response};

/// A session that is at its end, and why, where it didn't give the key. It is spent by `flush` once its command was
/// answered, or by `give_up` where no answer comes or its holder keeps the command and the reason; it can't be let
/// go otherwise.
#[derive(Debug)]
pub struct Stopped {
    pub(crate) session: u32,
    pub(crate) why: Option<Why>,
}

impl Stopped {
    /// Why the walk stopped, or None where the key was given.
    pub fn why(&self) -> Option<Why>
        ensures { result ≡ self.now.why }
    {
        self.why
    }

    /// FlushContext of the session.
    pub fn command(&self) -> Command
        ensures { result ≡ command.FlushSession self.now.session }
    {
        Command::FlushSession {
            session: self.session,
        }
    }

    /// Spends the state with the answer to its command: the session is ended, by it or before.
    pub fn flush(self, _response: &Response)
        requires { fits (command.FlushSession self.session) _response.now ≡ true }
    {
        self.give_up();
    }

    /// Spends the state where no answer to its command comes, or where its holder keeps the command and the reason.
    /// The session may stay open.
    pub fn give_up(self) {
        let Stopped { session: _, why: _ } = self;
    }
}
