// A first program over the library: the table of the lines of level 6.
#![tactic(auto)]

use levels::lines::Lines;
use levels::vectors::Vector;
use modular::action::Action;
use modular::letter::Letter;
use table::growing::Growing;
use table::link::Link;

// Rows and links belong to this program; the table is grown in them.
const ROOM: usize = 20;

// Fills a table, finishes it, and asks it some questions. Rows and links are handed on as they are lent, each of its own size.
fn report<A: Action + Drop>(
    rt: &HostRuntime,
    mut table: Growing<A>,
    rows: &mut [A::Record],
    links: &mut [Link],
) -> anyhow::Result<()> {
    table.fill_up(rows, links);
    let reached = table.follow(rows, links, "ST");
    let finished = table.close(rows, links).map_err(|(_, refusal)| refusal)?;
    let row = finished.place([[5, 2], [12, 5]]);
    println!(rt;
        "{} rows, {} cusps",
        finished.rows(),
        finished.shape().cusps
    )?;
    println!(rt; "the word ST leads to row {}", reached?)?;
    println!(rt; "the matrix 5,2,12,5 leads to row {}", row?)?;
    Ok(())
}

fn main(rt: HostRuntime) -> anyhow::Result<()> {
    let mut rows = [Vector { c: 0, d: 0 }; ROOM];
    let mut links = [Link::empty(0, Letter::T); ROOM];
    let opened = Growing::open(Lines::new(6)?, &mut rows, &mut links);
    let table = opened.map_err(|(_, refusal)| refusal)?;
    report(&rt, table, &mut rows, &mut links)
}
