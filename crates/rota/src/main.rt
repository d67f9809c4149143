//! A rota that four doctors change at once: an example of a program on the manager.
//!
//! All four are on call in one shift. Each, on a thread of its own, goes off call if someone else stays. One alone
//! keeps the rule that someone is on call; run at once on snapshots they could break it together. The manager refuses
//! what would: a doctor whose COMMIT is refused 40001 tries again, on the tables as they are then, and the last one is
//! told by the rule itself that nobody else is on call.
//!
//! It shows the whole way of such a program: definitions, a shelf and a manager, a session and transactions on each
//! thread, what to do after each refusal, a rule that comes later, and the history that is left.
#![tactic(auto)]

mod doctors;
mod rotas;

fn main(rt: HostRuntime) -> anyhow::Result<()> {
    rotas::run(&rt)
}
