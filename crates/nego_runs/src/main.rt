//! Runs of the negotiation over small trees of sets, told as the histories of their nodes: rounds that are settled in
//! the plain order, and boards after picks. What is written must be what is stored.
#![tactic(auto)]

mod picked;
mod scene;
mod settled;
mod telling;

use std::io;

fn main(rt: HostRuntime) -> io::Result<()> {
    settled::tell_all(&rt)?;
    picked::tell_all(&rt)
}
