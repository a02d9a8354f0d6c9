// A text of numbers from bytes.
ghost use Rattle.numbers.specs.Answers.{Cut};
ghost use Rattle.numbers.specs.Meaning.{CutMeans, TextFor};
ghost use Rattle.numbers.specs.Writing.{decoded, lines_of};
ghost use Rattle.std.specs.Prelude.{◌≡◌, ◌%◌, ◌++◌, length, Ok, Err, string_bytes, OnOk};

use crate::failure::Failure;
use formats::numbers;
use std::alloc::{AllocError, Global};

// Each number on a line of its own.
fn push_lines(out: &mut String, numbers: &[u64]) -> Result<(), AllocError>
    ensures { OnOk result (string_bytes out.new ≡ string_bytes out.old ++ lines_of numbers.now) }
{
    for n in numbers {
        writeln!(out, "{n}")?;
    }
    Ok(())
}

// The numbers that `bytes` stand for, four bytes each, a line a number. Part of a number at the end is refused.
pub fn decode(heap: Global, bytes: &[u8]) -> Result<String, Failure>
    ensures exact { elim result [ Ok t ↦ (length bytes.now % 4 ≡ 0) × (string_bytes t ≡ decoded bytes.now) | Err e ↦ Cut e bytes.now ] }
    ensures means { elim result [ Ok t ↦ TextFor bytes.now (string_bytes t) | Err e ↦ CutMeans e bytes.now ] }
{
    if bytes.len() % 4 != 0 {
        return Err(Failure::CutShort(bytes.len()));
    }
    let numbers = numbers(heap, bytes)?;
    let mut text = String::new(heap);
    push_lines(&mut text, numbers.as_slice())?;
    Ok(text)
}

#[cfg(test)]
mod tests {
    use super::decode;
    use crate::failure::Failure;
    use crate::text::encode;
    use std::test::Fail;

    #[test]
    fn a_line_a_number(rt: HostRuntime) -> Result<(), Fail> {
        let text = decode(rt.alloc(), &[1, 2, 0, 0, 255, 255, 255, 255])?;
        assert!(rt; text.as_str() == "513\n4294967295\n");
        let bytes = encode(rt.alloc(), text.as_bytes())?;
        assert!(rt; bytes.as_slice() == [1, 2, 0, 0, 255, 255, 255, 255].as_slice());
        Ok(())
    }

    #[test]
    fn cut_short(rt: HostRuntime) -> Result<(), Fail> {
        match decode(rt.alloc(), &[1, 0, 0, 0, 2]) {
            Err(Failure::CutShort(len)) => {
                assert_eq!(rt; len, 5);
                Ok(())
            },
            _ => Err(Fail::new("not refused")),
        }
    }
}
