// Memory for a table, and how a table is grown in it.
use modular::action::Action;
use modular::letter::Letter;
use std::alloc::{AllocError, Global};
use table::finished::Finished;
use table::growing::Growing;
use table::link::Link;

// More than the edges of any table.
const MANY: usize = 130_001;

// Rows and links that are lent to a table of an action: the crate `table` takes no memory from the heap.
#[derive(Drop)]
pub struct Memory<A: Action> {
    pub rows: Vec<A::Record>,
    pub links: Vec<Link>,
}

impl<A: Action> Memory<A> {
    // So many rows, all alike, and so many links that are not filled.
    pub fn new(
        heap: Global,
        action: &A,
        rows: usize,
        links: usize,
    ) -> Result<Memory<A>, AllocError> {
        Ok(Memory {
            rows: vec![in heap; action.first(); rows]?,
            links: vec![in heap; Link::empty(0, Letter::T); links]?,
        })
    }

    // Opens the table of an action.
    pub fn open(&mut self, action: A) -> anyhow::Result<Growing<A>>
    where
        A: Drop,
    {
        let opened = Growing::open(action, &mut self.rows, &mut self.links);
        Ok(opened.map_err(|(_, refusal)| refusal)?)
    }

    // Fills a table until it declines, and answers how many fills it accepted. By fills and not by `fill_up`, since the count is
    // what is compared.
    pub fn fill(&mut self, table: &mut Growing<A>) -> usize {
        for accepted in 0..MANY {
            if table.fill(&mut self.rows, &mut self.links).is_err() {
                return accepted;
            }
        }
        MANY
    }

    // The finished table of an action.
    pub fn finished(&mut self, action: A) -> anyhow::Result<Finished<'_>>
    where
        A: Drop,
    {
        let mut table = self.open(action)?;
        self.fill(&mut table);
        let closed = table.close(&self.rows, &self.links);
        Ok(closed.map_err(|(_, refusal)| refusal)?)
    }
}
