//! Worked examples of terms, formulas and symbols, of both kinds: plain ones and those of the free-variable tableau.
//! What is written must be what is stored.
#![tactic(auto)]

mod free;
mod plain;

fn main(rt: HostRuntime) -> anyhow::Result<()> {
    plain::tell_all(&rt)?;
    free::tell_all(&rt)
}
