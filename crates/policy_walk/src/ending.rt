//! What stands behind a table's rows: the index, and the object.
ghost use Rattle.std.specs.Prelude.{◌≡◌, true};
ghost use Rattle.tpm_model.specs.declared.command.Command.TheVariants as command;
ghost use Rattle.tpm_model.specs.Fits.{fits};
ghost use Rattle.policy_walk.specs.Walking.{authorised_by, secret_in, why_authorised as why_authorised_of, why_in as why_in_of, why_kept as why_kept_of};

use crate::stopped::Stopped;
use crate::why::Why;
use or_tree::OrPlan;
use pl_base::Small;
use std::marker::Model;
use tpm_model::{Command, Refusal, Response};

/// A walk past all rows: where nobody else used the session, its digest is the table's root. Contracts see the table
/// with its branches, the index and the session.
#[derive(Debug, Drop)]
pub struct Branched {
    pub(crate) plan: OrPlan,
    pub(crate) index: u32,
    pub(crate) session: u32,
}

impl Model for Branched {
    ghost use Rattle.policy_walk.specs.Places.{Past};

    ghost Value = { Past };

    ghost view = { λ b. record { plan = b.plan; index = b.index; session = b.session } };
}

/// A session that the index authorised: an object that is bound to the index opens to it, unless a PCR was extended
/// or another used the session since. Contracts see the table with its branches, the index and the session.
#[derive(Debug, Drop)]
pub struct Authorised {
    plan: OrPlan,
    index: u32,
    session: u32,
}

impl Model for Authorised {
    ghost use Rattle.policy_walk.specs.Places.{Past};

    ghost Value = { Past };

    ghost view = { λ a. record { plan = a.plan; index = a.index; session = a.session } };
}

/// What the answer to Unseal gave: the secret, or the reason in `stopped`.
#[derive(Debug)]
pub struct Finished {
    /// The object's secret, where it was given.
    pub secret: Option<Small>,
    /// The session, which is to be flushed.
    pub stopped: Stopped,
}

/// Why the index didn't authorise a session.
fn why_authorised(session: u32, refusal: &Refusal) -> Why
    ensures { result ≡ why_authorised_of session refusal.now }
{
    match refusal {
        Refusal::Value => Why::NotNewest,
        Refusal::NotDefined => Why::NoIndex,
        Refusal::Uninitialized => Why::Unwritten,
        Refusal::TrailFull => Why::Interfered,
        _ => Why::SessionGone(session),
    }
}

/// Why an object kept its secret.
fn why_kept(session: u32, object: u32, refusal: &Refusal) -> Why
    ensures { result ≡ why_kept_of session object refusal.now }
{
    match refusal {
        Refusal::PcrChanged { noted, now } => Why::PcrChanged {
            noted: *noted,
            now: *now,
        },
        Refusal::PolicyFail { session, object } => Why::WrongBinding {
            session: *session,
            object: *object,
        },
        Refusal::Handle(handle) => {
            if *handle == session {
                Why::SessionGone(session)
            } else {
                Why::NoObject(object)
            }
        }
        _ => Why::SessionGone(session),
    }
}

/// The secret in the answer to Unseal.
fn secret(response: &Response) -> Option<Small>
    ensures { result ≡ secret_in response.now }
{
    match response {
        Response::Secret(secret) => Some(*secret),
        _ => None,
    }
}

/// Why the answer to Unseal has no secret.
fn why(session: u32, object: u32, response: &Response) -> Option<Why>
    ensures { result ≡ why_in_of session object response.now }
{
    match response {
        Response::Secret(_) => None,
        Response::Refused(refusal) => Some(why_kept(session, object, refusal)),
        _ => Some(Why::SessionGone(session)),
    }
}

impl Branched {
    /// PolicyAuthorizeNV by the index.
    pub fn command(&self) -> Command
        ensures { result ≡ command.PolicyAuthorizeNv self.now.session self.now.index }
    {
        Command::PolicyAuthorizeNv {
            session: self.session,
            index: self.index,
        }
    }

    /// Spends the state with the answer to its command.
    ///
    /// # Errors
    ///
    /// The session that is to be flushed, where the index didn't authorise it.
    pub fn take(self, response: &Response) -> Result<Authorised, Stopped>
        requires { fits (command.PolicyAuthorizeNv self.session self.index) response.now ≡ true }
        ensures { result ≡ authorised_by self response.now }
    {
        match response {
            Response::Refused(refusal) => Err(Stopped {
                session: self.session,
                why: Some(why_authorised(self.session, refusal)),
            }),
            _ => Ok(Authorised {
                plan: self.plan,
                index: self.index,
                session: self.session,
            }),
        }
    }
}

impl Authorised {
    /// Unseal of an object.
    pub fn command(&self, object: u32) -> Command
        ensures { result ≡ command.Unseal self.now.session object }
    {
        Command::Unseal {
            session: self.session,
            handle: object,
        }
    }

    /// Spends the state with the answer to its command. The session is to be flushed either way.
    pub fn take(self, object: u32, response: &Response) -> Finished
        requires { fits (command.Unseal self.session object) response.now ≡ true }
        ensures secret { result.secret ≡ secret_in response.now }
        ensures session { result.stopped.session ≡ self.session }
        ensures why { result.stopped.why ≡ why_in_of self.session object response.now }
    {
        Finished {
            secret: secret(response),
            stopped: Stopped {
                session: self.session,
                why: why(self.session, object, response),
            },
        }
    }
}
