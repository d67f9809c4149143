//! How much an epoch holds.

ghost use Rattle.std.specs.Prelude.{◌≡◌, ◌≤◌, true, false, IfSome, IfNone};
ghost use Rattle.session.specs.Limits.{are_limits};

use std::marker::Model;

/// How many commits an epoch may have, at least 1, and how many sessions, 1 to 65,536.
#[derive(Debug, Drop)]
pub struct Limits {
    commits: u32,
    sessions: u64,
}

impl Model for Limits {
    ghost use Rattle.std.specs.Prelude.{◌≡◌, true};
    ghost use Rattle.session.specs.Limits.{LimitsState, are_limits};

    ghost Value = { LimitsState };

    ghost view = { λ l. record { commits = l.commits; sessions = l.sessions } };

    ghost invariant = { λ l. are_limits l.commits l.sessions ≡ true };
}

impl Limits {
    /// These limits, if they are within their ranges. It takes no memory.
    pub fn new(commits: u32, sessions: u64) -> Option<Limits>
        ensures some { IfSome result (λ limits.
            (limits ≡ record { commits = commits; sessions = sessions }) × (are_limits commits sessions ≡ true)) }
        ensures none { IfNone result (are_limits commits sessions ≡ false) }
    {
        if are_limits(commits, sessions) {
            Some(Limits { commits, sessions })
        } else {
            None
        }
    }

    /// How many commits.
    #[tactic(auto, using(crate::proofs::Ranges::some_commits))]
    pub fn commits(&self) -> u32
        ensures value { result ≡ self.now.commits }
        ensures within { are_limits result self.now.sessions ≡ true }
        ensures some { 1 ≤ result }
    {
        self.commits
    }

    /// How many sessions.
    #[tactic(auto, using(crate::proofs::Ranges::some_sessions))]
    pub fn sessions(&self) -> u64
        ensures value { result ≡ self.now.sessions }
        ensures some { 1 ≤ result }
    {
        self.sessions
    }
}

fn are_limits(commits: u32, sessions: u64) -> bool
    ensures { result ≡ are_limits commits sessions }
{
    0 < commits && (0 < sessions && sessions <= 65_536)
}
