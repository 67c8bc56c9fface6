ghost use Rattle.std.specs.Prelude.{◌≡◌, ◌≤◌, ◌+◌, [], ◌∷◌, ◌++◌, length};
ghost use Rattle.byteorder.specs.Endian.{little_bytes};

use arrayvec::ArrayVec;

/// A buffer with these octets, which have to fit it.
pub fn buffer_of<const CAP: usize>(bytes: &[u8]) -> ArrayVec<u8, CAP>
    requires { length bytes.now ≤ CAP }
    ensures { result.items ≡ bytes.now }
{
    let mut buffer = ArrayVec::new();
    match buffer.try_extend_from_slice(bytes) {
        Ok(()) => buffer,
        Err(_) => unreachable!(),
    }
}

/// Puts octets that fit in place of what a buffer held. Only these octets are moved, and no others
/// are touched but those that are left over of a longer content.
pub fn refill<const CAP: usize>(buffer: &mut ArrayVec<u8, CAP>, octets: &[u8])
    requires { length octets.now ≤ CAP }
    ensures { buffer.new.items ≡ octets.now }
{
    let kept = buffer.len().min(octets.len());
    let (front, behind) = octets.split_at(kept);
    buffer.truncate(kept);
    buffer.as_mut_slice().copy_from_slice(front);
    append(buffer, behind);
}

/// Puts two parts that fit, one behind the other, in place of what a buffer held. Only these octets
/// are moved, and no others are touched but those that are left over of a longer content.
pub fn refill_parts<const CAP: usize>(buffer: &mut ArrayVec<u8, CAP>, head: &[u8], behind: &[u8])
    requires { length head.now + length behind.now ≤ CAP }
    ensures { buffer.new.items ≡ head.now ++ behind.now }
{
    if buffer.len() < head.len() {
        refill(buffer, head);
        append(buffer, behind);
        return;
    }
    let kept = (buffer.len() - head.len()).min(behind.len());
    let (over, more) = behind.split_at(kept);
    buffer.truncate(head.len() + kept);
    let (first, second) = buffer.as_mut_slice().split_at_mut(head.len());
    first.copy_from_slice(head);
    second.copy_from_slice(over);
    append(buffer, more);
}

/// Appends octets that fit.
pub fn append<const CAP: usize>(buffer: &mut ArrayVec<u8, CAP>, octets: &[u8])
    requires { length buffer.old.items + length octets.now ≤ CAP }
    ensures { buffer.new.items ≡ buffer.old.items ++ octets.now }
{
    match buffer.try_extend_from_slice(octets) {
        Ok(()) => {}
        Err(_) => unreachable!(),
    }
}

/// Appends one octet that fits.
pub fn append_u8<const CAP: usize>(buffer: &mut ArrayVec<u8, CAP>, value: u8)
    requires { length buffer.old.items + 1 ≤ CAP }
    ensures { buffer.new.items ≡ buffer.old.items ++ value ∷ [] }
{
    append(buffer, &[value]);
}

/// Appends a number of two octets that fit, the lower octet first.
pub fn append_u16<const CAP: usize>(buffer: &mut ArrayVec<u8, CAP>, value: u16)
    requires { length buffer.old.items + 2 ≤ CAP }
    ensures { buffer.new.items ≡ buffer.old.items ++ little_bytes 2 value }
{
    append(buffer, &value.to_le_bytes());
}

/// Appends a number of four octets that fit, the lowest octet first.
pub fn append_u32<const CAP: usize>(buffer: &mut ArrayVec<u8, CAP>, value: u32)
    requires { length buffer.old.items + 4 ≤ CAP }
    ensures { buffer.new.items ≡ buffer.old.items ++ little_bytes 4 value }
{
    append(buffer, &value.to_le_bytes());
}
