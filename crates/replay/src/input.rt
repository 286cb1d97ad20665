// Words (u32), longs (u64) and numbers (the eight bytes of an f64) from the file, little-endian, one after the other.
use std::io;
use std::io::Read;

// Why the data could not be compared: the file ended, a list is longer than the room for it, or what stands there is of no known kind.
#[derive(Clone, Copy)]
pub enum Fault {
    Cut,
    Large,
    Unknown,
}

// Whatever keeps the file from being read on is told as its end.
impl From<io::Error> for Fault {
    fn from(_error: io::Error) -> Fault {
        Fault::Cut
    }
}

// What the file has one after the other.
pub trait Stored: Copy {
    fn read<R: Read>(file: &mut R) -> Result<Self, Fault>;
}

impl Stored for u8 {
    fn read<R: Read>(file: &mut R) -> Result<u8, Fault> {
        let mut bytes = [0];
        file.read_exact(&mut bytes)?;
        Ok(bytes[0])
    }
}

impl Stored for u32 {
    fn read<R: Read>(file: &mut R) -> Result<u32, Fault> {
        let mut bytes = [0; 4];
        file.read_exact(&mut bytes)?;
        Ok(u32::from_le_bytes(bytes))
    }
}

impl Stored for u64 {
    fn read<R: Read>(file: &mut R) -> Result<u64, Fault> {
        let mut bytes = [0; 8];
        file.read_exact(&mut bytes)?;
        Ok(u64::from_le_bytes(bytes))
    }
}

impl Stored for f64 {
    fn read<R: Read>(file: &mut R) -> Result<f64, Fault> {
        Ok(float::from_bits(u64::read(file)?))
    }
}

// Fills a list with what the file has next.
pub fn fill<T: Stored, R: Read>(file: &mut R, list: &mut [T]) -> Result<(), Fault> {
    for place in list.iter_mut() {
        *place = T::read(file)?;
    }
    Ok(())
}
