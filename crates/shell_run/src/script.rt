// The whole script, from its source.
ghost use Rattle.std.specs.Prelude.{◌≡◌, ℕ, ◌+◌, ◌-◌, ◌*◌, ◌^◌, ◌<◌, ◌≤◌, List, length, IfOk, IfSome, IfErr, ◌⊎◌};
ghost use Rattle.std.specs.Prelude.{IsErrOf, Vec, vec_len, ◌++◌};
ghost use Rattle.std.specs.Io.KnownBytes.{Consumes, IsAtEnd};
ghost use Rattle.disk_trait.specs.Device.{Rose};
ghost use Rattle.shell_run.specs.HasRead.{HasRead};
ghost use Rattle.shell_run.specs.declared.error.Stop.TheVariants.{SourceFault, TooLong, OutOfMemory};

use crate::error::Stop;
use disk_trait::Source;
use std::alloc::{AllocError, Global};

/// The most bytes of a script.
const SCRIPT_LIMIT: usize = 1 << 30;

/// The most bytes of a piece.
const CHUNK: usize = 65536;

/// Room for a piece.
fn chunk_of(alloc: Global, size: usize) -> Result<Vec<u8>, AllocError>
    ensures { IfOk result (λ v. vec_len v ≡ size) }
{
    Vec::from_elem(alloc, 0u8, size)
}

/// The next piece, put after the text: how many bytes. None are the end.
fn read_piece<S: Source>(script: &mut S, buf: &mut [u8], text: &mut Vec<u8>) -> Result<usize, Stop>
    requires { 0 < length buf.old }
    ensures piece { IfOk result
        (λ n. (piece : List ℕ) × (length piece ≡ n) × (text.new.items ≡ text.old.items ++ piece)
        × HasRead (S.left script.old) (S.left script.new) piece) }
    ensures bound { IfOk result (λ n. n ≤ length buf.old) }
    ensures end { IfOk result (λ n. n ≡ 0 → IsAtEnd (S.left script.new)) }
    ensures later { S.fault_count script.old ≤ S.fault_count script.new }
    ensures fault { IsErrOf result SourceFault
        → Rose (S.fault_count script.old) (S.fault_count script.new) }
    ensures error { IfErr result (λ e. (e ≡ SourceFault) ⊎ (e ≡ OutOfMemory)) }
{
    match script.read(buf) {
        Err(_) => Err(Stop::SourceFault),
        Ok(n) => {
            text.extend_from_slice(&buf[..n])?;
            Ok(n)
        }
    }
}

/// Reads a script to its end, of at most 2^30 bytes.
pub fn read_script<S: Source>(alloc: Global, script: &mut S) -> Result<Vec<u8>, Stop>
    ensures whole { IfOk result
        (λ text. HasRead (S.left script.old) (S.left script.new) text.items
        × IsAtEnd (S.left script.new)) }
    ensures short { IfOk result (λ text. length text.items ≤ SCRIPT_LIMIT) }
    ensures too_long { IsErrOf result TooLong
        → IfSome (S.left script.old) (λ bytes. SCRIPT_LIMIT < length bytes) }
    ensures fault { IsErrOf result SourceFault
        → Rose (S.fault_count script.old) (S.fault_count script.new) }
    ensures error { IfErr result (λ e. (e ≡ SourceFault) ⊎ (e ≡ TooLong) ⊎ (e ≡ OutOfMemory)) }
{
    let mut text = Vec::new(alloc);
    let mut chunk = chunk_of(alloc, CHUNK)?;
    while text.len() <= SCRIPT_LIMIT {
        let room = (SCRIPT_LIMIT + 1 - text.len()).min(CHUNK);
        if read_piece(script, &mut chunk[..room], &mut text)? == 0 {
            return Ok(text);
        }
    }
    Err(Stop::TooLong)
}
