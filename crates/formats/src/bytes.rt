// Numbers from bytes.
ghost use Rattle.formats.specs.Bytes.{numbers_of};
ghost use Rattle.std.specs.Prelude.{◌≡◌, IfOk};

use std::alloc::{AllocError, Global};

// The numbers that `bytes` stand for, four bytes each, the low byte first. Part of a number at the end is left out.
pub fn numbers(heap: Global, bytes: &[u8]) -> Result<Vec<u64>, AllocError>
    ensures { IfOk result (λ v. v.items ≡ numbers_of bytes.now) }
{
    let (fours, _) = bytes.as_chunks();
    // All the memory at once: where it is not to be had, a collection would first take what there is, bit by bit.
    let mut numbers = Vec::with_capacity(heap, fours.len())?;
    for four in fours {
        numbers.push(u64::from(u32::from_le_bytes(*four)))?;
    }
    Ok(numbers)
}

#[cfg(test)]
mod tests {
    use super::numbers;
    use std::test::Fail;

    #[test]
    fn low_byte_first(rt: HostRuntime) -> Result<(), Fail> {
        let read = numbers(rt.alloc(), &[1, 2, 0, 0, 255, 255, 255, 255, 7, 7, 7])?;
        assert!(rt; read.as_slice() == [513, 4294967295].as_slice());
        Ok(())
    }
}
