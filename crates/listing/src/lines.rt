// The lines of a listing, each written to the end of a text.
ghost use Rattle.std.specs.Prelude.{◌≡◌, ◌<◌, ◌≤◌, ◌++◌, length, string_bytes, IsAscii, OnOk};
ghost use Rattle.listing.specs.Lines.{shape_lines, word_field, row_line, generator_line, member_line};

use modular::letter::Letter;
use std::alloc::AllocError;
use std::str::from_utf8;
use table::finished::Finished;
use table::link;
use table::shape::Shape;

// The limit for the entries of a generator, either side of 0.
const LIMIT: u64 = 1_000_000_000;

// A line for each number of the shape.
pub fn shape_lines(text: &mut String, shape: Shape) -> Result<(), AllocError>
    ensures { OnOk result (string_bytes text.new ≡ string_bytes text.old ++ shape_lines shape) }
{
    let Shape {
        rows,
        cusps,
        e2,
        e3,
        genus12,
    } = shape;
    write!(
        text,
        "index={rows}\ncusps={cusps}\ne2={e2}\ne3={e3}\ngenus12={genus12}\n"
    )
}

// A word as it is printed: its letters, or `-` where it has none.
fn printed(word: &[u8]) -> &str
    requires { IsAscii word.now }
    ensures { result.now ≡ word_field word.now }
{
    if word.is_empty() {
        return "-";
    }
    from_utf8(word).unwrap()
}

// A row: its number, where T and S lead from it, and its least word, for which the output has room.
pub fn row_line(
    text: &mut String,
    table: &Finished,
    row: u16,
    out: &mut [u8],
) -> Result<(), AllocError>
    requires there { row < length table.now.links.now }
    requires room { row ≤ length out.old }
    ensures { OnOk result (string_bytes text.new ≡ string_bytes text.old ++ row_line table.now.links.now row) }
{
    let links = table.links();
    let t = link::next(links, Letter::T, row);
    let s = link::next(links, Letter::S, row);
    let count = table.spell(row, out).unwrap();
    let word = printed(&out[0..count]);
    writeln!(text, "row={row},{t},{s},{word}")
}

// A generator: its entries, or `wide` where it is declined at the limit.
pub fn generator_line(text: &mut String, table: &Finished, number: usize) -> Result<(), AllocError>
    ensures { OnOk result (string_bytes text.new ≡ string_bytes text.old ++ generator_line table.now.links.now number) }
{
    match table.generator(number, LIMIT) {
        Ok(m) => {
            let [[a, b], [c, d]] = m;
            writeln!(text, "gen={a},{b},{c},{d}")
        }
        Err(_) => text.push_str("gen=wide\n"),
    }
}

// Whether a matrix at a row is a member: the members are at row 0. `jobs` prints the same words for members told by congruences;
// neither crate stands on the other.
pub fn member_line(text: &mut String, row: u16) -> Result<(), AllocError>
    ensures { OnOk result (string_bytes text.new ≡ string_bytes text.old ++ member_line row) }
{
    if row == 0 {
        text.push_str("member=yes\n")
    } else {
        text.push_str("member=no\n")
    }
}
