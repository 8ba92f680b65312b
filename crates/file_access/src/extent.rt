//! How far a file is read.

ghost use Rattle.std.specs.Prelude.{◌≡◌, ◌≤◌, ◌<◌, ◌+◌, ◌++◌, length, take, IfOk, IfSome};
ghost use Rattle.std.specs.Io.KnownBytes.{Consumes, IsAtEnd};
ghost use Rattle.occam_layout.specs.declared.layout.TheConstants.{MAX_BYTES};
ghost use Rattle.file_access.specs.declared.extent.TheConstants.{MAGIC_BYTES};
ghost use Rattle.file_access.specs.Extents.{begins_as_module, has_magic, beginning_of, module_rest, rest_of_source};

use occam_layout::MAX_BYTES;
use std::alloc::Global;
use std::io::{self, ErrorKind, Read};

/// How far a file is read.
#[derive(Clone, Copy)]
pub enum Extent {
    /// A source: one byte more than it may have shows that it is too large.
    Source,
    /// A module: nothing after bytes that are no magic.
    Module,
    /// A module, if the letters are there with which its magic begins, and else a source.
    Either,
}

/// How many bytes a magic has.
pub const MAGIC_BYTES: usize = 4;

/// The most reads of the first bytes, so that they are known to end. No file interrupts as many.
const MOST_READS: u64 = u64::MAX;

/// Whether a module file of some version begins so.
fn has_magic(bytes: &[u8]) -> bool
    ensures { result ≡ has_magic bytes.now }
{
    bytes.starts_with(b"TPM1") || bytes.starts_with(b"TPM2")
}

/// Whether a file begins with the letters with which the magic of a module begins.
pub fn begins_as_module(bytes: &[u8]) -> bool
    ensures { result ≡ begins_as_module bytes.now }
{
    bytes.starts_with(b"TPM")
}

/// The first bytes of a file, as many as a magic has, or all if there are fewer. A read that was interrupted is
/// repeated.
fn read_magic<R: Read>(alloc: Global, file: &mut R) -> io::Result<Vec<u8>>
    ensures taken { IfOk result (λ bytes. Consumes (R.remaining file.old) (R.remaining file.new) bytes.items) }
    ensures most { IfOk result (λ bytes. length bytes.items ≤ MAGIC_BYTES) }
    ensures all { IfOk result (λ bytes. length bytes.items < MAGIC_BYTES → IsAtEnd (R.remaining file.new)) }
{
    let mut bytes = Vec::new(alloc);
    for _ in 0..MOST_READS {
        if bytes.len() == MAGIC_BYTES {
            return Ok(bytes);
        }
        let mut byte = [0];
        match file.read(&mut byte) {
            Ok(0) => return Ok(bytes),
            Ok(_) => bytes.push(byte[0])?,
            Err(error) if error.kind() == ErrorKind::Interrupted => {}
            Err(error) => return Err(error),
        }
    }
    Err(ErrorKind::Other.into())
}

/// What is read of a module file that begins so.
fn read_module_rest<R: Read + Drop>(mut bytes: Vec<u8>, mut file: R) -> io::Result<Vec<u8>>
    ensures { IfOk result (λ all. IfSome (R.remaining file)
        (λ rest. all.items ≡ module_rest bytes.items rest)) }
{
    if has_magic(&bytes) {
        file.read_to_end(&mut bytes)?;
    }
    Ok(bytes)
}

/// What is read of a module file.
fn read_module<R: Read + Drop>(alloc: Global, mut file: R) -> io::Result<Vec<u8>>
    ensures { IfOk result (λ bytes. IfSome (R.remaining file)
        (λ all. bytes.items ≡ beginning_of Extent.Module all)) }
{
    let bytes = read_magic(alloc, &mut file)?;
    read_module_rest(bytes, file)
}

/// What is read of a source.
fn read_source<R: Read + Drop>(alloc: Global, file: R) -> io::Result<Vec<u8>>
    ensures { IfOk result (λ bytes. IfSome (R.remaining file)
        (λ all. bytes.items ≡ beginning_of Extent.Source all)) }
{
    let mut bytes = Vec::new(alloc);
    let mut front = file.take(MAX_BYTES as u64 + 1);
    front.read_to_end(&mut bytes)?;
    Ok(bytes)
}

/// What is read of a file that begins so, as far as a source is read.
fn read_rest<R: Read + Drop>(mut bytes: Vec<u8>, file: R) -> io::Result<Vec<u8>>
    ensures { IfOk result (λ all. IfSome (R.remaining file)
        (λ rest. all.items ≡ bytes.items ++ rest_of_source rest)) }
{
    let mut front = file.take((MAX_BYTES + 1 - MAGIC_BYTES) as u64);
    front.read_to_end(&mut bytes)?;
    Ok(bytes)
}

/// What is read of a file that is a module or a source.
fn read_either<R: Read + Drop>(alloc: Global, mut file: R) -> io::Result<Vec<u8>>
    ensures { IfOk result (λ bytes. IfSome (R.remaining file)
        (λ all. bytes.items ≡ beginning_of Extent.Either all)) }
{
    let bytes = read_magic(alloc, &mut file)?;
    if begins_as_module(&bytes) {
        read_module_rest(bytes, file)
    } else {
        read_rest(bytes, file)
    }
}

/// The first bytes of a file, as many as decide what is answered.
pub fn read_beginning<R: Read + Drop>(alloc: Global, file: R, extent: Extent) -> io::Result<Vec<u8>>
    ensures { IfOk result (λ bytes. IfSome (R.remaining file) (λ all. bytes.items ≡ beginning_of extent all)) }
{
    match extent {
        Extent::Source => read_source(alloc, file),
        Extent::Module => read_module(alloc, file),
        Extent::Either => read_either(alloc, file),
    }
}
