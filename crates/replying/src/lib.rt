// Replying: what the programs that read a job share, from standard input to what is printed and the status.
#![tactic(auto)]

ghost use Rattle.replying.specs.Statuses.{AcceptedBy};
ghost use Rattle.std.specs.Prelude.{IfOk};

use anyhow::anyhow;
use jobs::read::LONGEST;
use jobs::reply::Reply;
use std::alloc::{AllocError, Global};
use std::io::Read;

// One byte past the longest text is enough to tell that it is too long.
fn input(rt: &HostRuntime) -> anyhow::Result<Vec<u8>> {
    let mut text = Vec::new(rt.alloc());
    rt.stdin().take(LONGEST as u64 + 1).read_to_end(&mut text)?;
    Ok(text)
}

// Prints the reply to what standard input holds; it is an error that the text is declined.
pub fn print_reply<F: FnOnce(Global, &[u8]) -> Result<Reply, AllocError>>(
    rt: &HostRuntime,
    reply_to: F,
) -> anyhow::Result<()>
    requires { F.IsAlwaysCallable reply_to }
    ensures { IfOk result (λ _. AcceptedBy (F.post reply_to)) }
{
    let text = input(rt)?;
    let reply = reply_to(rt.alloc(), text.as_slice())?;
    rt.print(reply.text())?;
    match reply {
        Reply::Accepted(_) => Ok(()),
        Reply::Declined(_) => Err(anyhow!("the job is declined")),
    }
}
