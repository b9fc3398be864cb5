// Growing the whole table of an action, and listing it.
ghost use Rattle.std.specs.Prelude.{◌≡◌, map, length};
ghost use Rattle.listing.specs.Grown.{Finishes, GrownIn, GrownOr};
ghost use Rattle.modular.specs.Matrix.{entries};
ghost use Rattle.table.specs.Growing.{moment};

use crate::error::Error;
use crate::listing;
use modular::action::Action;
use modular::letter::Letter;
use modular::matrix::Matrix;
use std::alloc::Global;
use table::growing::Growing;
use table::link::Link;

// Fills a table that was just opened, closes it, and lists it. Taken apart here and below: under `map_err`, which was tried, the
// proof did not close.
fn finish<A: Action + Drop>(
    heap: Global,
    mut table: Growing<A>,
    rows: &mut [A::Record],
    links: &mut [Link],
    matrices: &[Matrix],
) -> Result<String, Error>
    ensures { Finishes (A.start table.action) (A.step_t table.action) (A.step_s table.action) (A.agrees table.action) (moment table.counts rows.old links.old) (map entries matrices.now) result }
{
    let ended = table.fill_up(rows, links);
    let Ok(finished) = table.close(rows, links) else {
        return Err(Error::Declined(ended));
    };
    listing(heap, &finished, matrices)
}

// Opens a table over lent memory, fills it, closes it, and lists it.
fn grow<A: Action + Drop>(
    heap: Global,
    action: A,
    rows: &mut [A::Record],
    links: &mut [Link],
    matrices: &[Matrix],
) -> Result<String, Error>
    ensures { GrownIn (A.start action) (A.step_t action) (A.step_s action) (length rows.old) (length links.old) (map entries matrices.now) result }
{
    match Growing::open(action, rows, links) {
        Ok(table) => finish(heap, table, rows, links, matrices),
        Err((_, refusal)) => Err(Error::Declined(refusal)),
    }
}

// The listing of the whole table of an action, grown in memory for so many rows, with a line for each matrix. The crate `table` takes
// no memory from the heap, so whoever grows a table in memory of its own makes two such lists, and lends them on. Records are
// copied and not cloned, as in the crate `table`: a record's `clone` may fail.
pub fn list<A: Action + Drop>(
    heap: Global,
    action: A,
    room: usize,
    matrices: &[Matrix],
) -> Result<String, Error>
    ensures { GrownOr (A.start action) (A.step_t action) (A.step_s action) room (map entries matrices.now) result }
{
    let first = action.first();
    let mut rows = Vec::new(heap);
    rows.resize_with(room, || first)?;
    let mut links = vec![in heap; Link::empty(0, Letter::T); room]?;
    grow(heap, action, &mut rows, &mut links, matrices)
}
