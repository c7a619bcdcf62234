//! What a client of a race came to.
use pl_base::Small;
use policy_walk::Why;

/// What a client came to.
#[derive(Clone, Copy, Debug)]
pub enum Outcome {
    /// It hasn't ended its session, or not started one.
    Unfinished,
    /// The object's secret.
    Key(Small),
    /// Why it has no secret.
    Stopped(Why),
    /// The index held the root of no published table.
    Outdated,
    /// 64 sessions were open.
    SessionsFull,
    /// All handles of sessions were used.
    HandlesEnd,
}
