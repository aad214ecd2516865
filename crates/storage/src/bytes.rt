// Reading and writing bytes at an offset.
ghost use Rattle.std.specs.Prelude.{◌≡◌, ◌-◌, ◌≤◌, ◌↔◌, false, min, length, drop, IsOk, OnOk, OnErr};
ghost use Rattle.host.specs.Laws.{filled, written};
ghost use Rattle.storage.specs.Held.{too_large};

use fixed_vec::{CapacityError, FixedVec};

// Copies what lies behind the offset, as far as there is room for it.
pub fn read_at(bytes: &[u8], offset: u64, buffer: &mut [u8]) -> usize
    ensures { (result ≡ min (length buffer.old) (length bytes.now - offset)) × (buffer.new ≡ filled (drop offset bytes.now) result buffer.old) }
{
    let behind = bytes.get(offset as usize..).unwrap_or(&[]);
    let n = buffer.len().min(behind.len());
    buffer[..n].copy_from_slice(&behind[..n]);
    n
}

// Writes behind, over and at the end of the bytes, all of the source or nothing.
#[tactic(auto, using(crate::proofs::Fronts::written_so))]
pub(crate) fn write_at<const CAP: usize>(
    bytes: &mut FixedVec<u8, CAP>,
    offset: u64,
    source: &[u8],
) -> Result<(), CapacityError>
    requires { length bytes.old.items ≤ CAP }
    ensures fits { IsOk result ↔ (too_large CAP offset source.now ≡ false) }
    ensures ok { OnOk result (bytes.new.items ≡ written bytes.old.items offset source.now) }
    ensures err { OnErr result (bytes.new ≡ bytes.old) }
    ensures within { length bytes.new.items ≤ CAP }
{
    if source.is_empty() {
        return Ok(());
    }
    if offset > CAP as u64 || source.len() > CAP - offset as usize {
        return Err(CapacityError);
    }
    let start = offset as usize;
    bytes.try_pad(start, 0)?;
    bytes.try_paste(start, source)
}
