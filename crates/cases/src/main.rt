// Runs stored jobs through the library, and compares what it prints with what is stored beside them.
#![tactic(auto)]

use answers::reply::reply_to;
use std::{env, fs};

// Whether the job of a case is answered with the stored text.
fn is_as_stored(rt: &HostRuntime, name: &str) -> anyhow::Result<bool> {
    let job = format!(in rt.alloc(); "{name}.job")?;
    let out = format!(in rt.alloc(); "{name}.out")?;
    let text = fs::read(rt, job.as_str())?;
    let stored = fs::read(rt, out.as_str())?;
    let reply = reply_to(rt.alloc(), text.as_slice())?;
    Ok(reply.text().as_bytes() == stored.as_slice())
}

fn main(rt: HostRuntime) -> anyhow::Result<()> {
    for name in env::args(&rt)?.skip(1) {
        let same = is_as_stored(&rt, name.as_str())?;
        let word = if same { "as stored" } else { "DIFFERS" };
        println!(rt; "{name}: {word}")?;
    }
    Ok(())
}
