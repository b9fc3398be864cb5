// Growing a table in memory of its own, and placing matrices on it.
use crate::checksum::Checksum;
use crate::random::Random;
use modular::action::Action;
use modular::letter::Letter;
use std::alloc::Global;
use table::finished::Finished;
use table::growing::Growing;
use table::link::Link;

// Which random matrices to place on a table, and how many.
#[derive(Clone, Copy)]
pub struct Placements {
    pub seed: u64,
    pub count: u64,
}

// Adds all fields of all links.
fn add_links(sum: &mut Checksum, links: &[Link]) {
    for link in links {
        sum.add(u64::from(link.t));
        sum.add(u64::from(link.s));
        sum.add(u64::from(link.parent));
        sum.add(u64::from(link.letter == Letter::S));
    }
}

// Adds the rows at which matrices are placed. One that is declined adds nothing.
fn add_places(sum: &mut Checksum, table: &Finished, placements: Placements) {
    let mut random = Random::new(placements.seed);
    for _ in 0..placements.count {
        if let Ok(row) = table.place(random.matrix()) {
            sum.add(u64::from(row));
        }
    }
}

// Grows a table in lent memory, places matrices on it, and answers the checksum of its links and of the rows of the matrices.
fn grow_in<A: Action + Drop>(
    action: A,
    rows: &mut [A::Record],
    links: &mut [Link],
    placements: Option<Placements>,
) -> Option<u64> {
    let mut table = Growing::open(action, rows, links).ok()?;
    table.fill_up(rows, links);
    let finished = table.close(rows, links).ok()?;
    let mut sum = Checksum::new();
    add_links(&mut sum, finished.links());
    if let Some(placements) = placements {
        add_places(&mut sum, &finished, placements);
    }
    Some(sum.value())
}

// The same in memory for `room` rows that is had from the heap. The crate `table` takes none, so the two lists are made here and lent.
pub fn grow<A: Action + Drop>(
    heap: Global,
    action: A,
    room: usize,
    placements: Option<Placements>,
) -> Option<u64> {
    let mut rows = vec![in heap; action.first(); room].ok()?;
    let mut links = vec![in heap; Link::empty(0, Letter::T); room].ok()?;
    grow_in(action, &mut rows, &mut links, placements)
}
