// Binary STL, read and written (rules L1 to L5): 80 header bytes, a little-endian u32 count, then 50 bytes a triangle: normal, three vertices as binary32, an
// attribute. A mesh is a lent slice, twelve numbers a triangle: v0, v1, v2, normal. The Rust has none of it.
#![tactic(auto)]

mod bytes; // bytes.rt: numbers of a file, by their bytes
mod reading; // reading.rt: the work of a reading, on a slice and a place
mod writing; // writing.rt: the work of a writing

ghost use Rattle.std.specs.Prelude.{◌≡◌};
ghost use Rattle.stl.specs.Answers.{told, read_as, written_as};
ghost use Rattle.stl.specs.Reading.{read_from, read_stl};
ghost use Rattle.stl.specs.Writing.{write_stl};

use lent::{Reason, Refused};

// How long the header is.
const HEADER: usize = 80;

// A reader: it keeps the lent file and its place, the form that the customer asked for (docs/DECISIONS.md, "The forms by place").
#[derive(Clone, Copy)]
struct StlReader<'a> {
    pub file: &'a [u8],
    pub at: usize,
}

impl<'a> StlReader<'a> {
    // A reader of a file, at its start.
    fn open(file: &'a [u8]) -> StlReader<'a>
        ensures { (result.file ≡ file.entry) × (result.at ≡ 0) }
    {
        StlReader { file, at: 0 }
    }

    // The reader of the same file at another place.
    fn moved(self, at: usize) -> StlReader<'a>
        ensures { (result.file ≡ self.entry.file) × (result.at ≡ at) }
    {
        StlReader {
            file: self.file,
            at,
        }
    }

    // The count at the reader's place and the triangles behind it, into the lent rooms, as `read` does.
    fn read_on(self, triangles: &mut [f64], materials: &mut [u32]) -> Result<usize, Refused>
        ensures { read_as (told result) triangles.new materials.new ≡ read_from self.entry.file.now self.entry.at triangles.old materials.old }
    {
        reading::read_from(self.file, self.at, triangles, materials)
    }
}

// Reads the triangles of a file into the lent room, twelve numbers each, and a 0 for each into the material room; answers how many. Room beyond them stays. Header
// and attributes are not looked at. Refused, in this order, and then nothing is written: 15 the file is shorter than 84 bytes, or its length is not 84 + 50 times
// its count; 2 more than 65,536 triangles (at: how many); 16 the room is too short, for the triangles or for the materials; 5 a triangle isn't admitted (at: the
// lowest number).
#[tactic(auto, unfolding(crate::specs::Reading::read_stl))]
pub fn read(file: &[u8], triangles: &mut [f64], materials: &mut [u32]) -> Result<usize, Refused>
    ensures { read_as (told result) triangles.new materials.new ≡ read_stl file.now triangles.old materials.old }
{
    StlReader::open(file)
        .moved(HEADER)
        .read_on(triangles, materials)
}

// Writes the file of a mesh into the lent room, with a zero header and zero attributes; answers how many bytes. Room beyond them stays. Refused, in this order, and
// then nothing is written: 1 the numbers are not in twelves; 2 more than 65,536 triangles (at: how many); 5 a triangle isn't admitted (at: the lowest number);
// 17 a number is not exactly a binary32 (at: the lowest such triangle); 16 the room is shorter than 84 + 50 bytes a triangle.
#[tactic(auto, using(crate::proofs::Rungs::front_room), unfolding(crate::specs::Writing::write_stl, crate::specs::Writing::write_count, crate::specs::Writing::inexact, crate::specs::Answers::told, triangle::specs::Mesh::unadmitted, lent::specs::Ladder::unless, lent::specs::Ladder::answered, lent::specs::Ladder::first_failed))]
pub fn write(triangles: &[f64], file: &mut [u8]) -> Result<usize, Refused>
    ensures { written_as (told result) file.new ≡ write_stl triangles.now file.old }
{
    let n = triangle::count(triangles)?;
    if let Some(at) = triangle::first_refused(triangles, n) {
        return Err(Refused {
            reason: Reason::BadTriangle,
            at,
        });
    }
    if let Some(at) = writing::first_inexact(triangles, n) {
        return Err(Refused {
            reason: Reason::Inexact,
            at,
        });
    }
    let whole = 84 + 50 * n;
    if file.len() < whole {
        return Err(Refused {
            reason: Reason::ShortRoom,
            at: 0,
        });
    }
    writing::put_file(triangles, &mut file[0..whole], n);
    Ok(whole)
}
