// `list_cosets` reads a job from standard input and prints the listing of its table, or why there is none.
#![tactic(auto)]

use answers::reply::reply_to;
use replying::print_reply;

fn main(rt: HostRuntime) -> anyhow::Result<()> {
    print_reply(&rt, reply_to)
}
