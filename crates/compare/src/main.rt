// Runs worked examples and published tables against the library, and prints what came beside what was expected.
#![tactic(auto)]

use tally::Tally;

mod asking;
mod counts;
mod filling;
mod layers;
mod lending;
mod making;
mod memory;
mod published;
mod squares;
mod storing;
mod tally;

fn main(rt: HostRuntime) -> anyhow::Result<()> {
    let mut tally = Tally::new(&rt);
    counts::run(&mut tally)?;
    making::run(&mut tally)?;
    lending::run(&mut tally)?;
    filling::run(&mut tally)?;
    asking::run(&mut tally)?;
    storing::run(&mut tally)?;
    layers::run(&mut tally)?;
    published::run(&mut tally)?;
    tally.close()
}
