// Bytes from a text of numbers.
ghost use Rattle.numbers.specs.Answers.{Refuses};
ghost use Rattle.numbers.specs.Meaning.{BytesFor, RefusalMeans};
ghost use Rattle.numbers.specs.Reading.{closed, encoded};
ghost use Rattle.numbers.specs.Writing.{bytes_of};
ghost use Rattle.std.specs.Prelude.{◌≡◌, ◌++◌, Ok, Err, OnOk};

use crate::failure::Failure;
use crate::inside::{Inside, inside_after};
use crate::refusal::Refusal;
use std::alloc::{AllocError, Global};

// The four bytes of a number that ends because the text goes on inside of `next`.
fn push_closed(bytes: &mut Vec<u8>, inside: Inside, next: Inside) -> Result<(), AllocError>
    ensures { OnOk result (bytes.new.items ≡ bytes.old.items ++ bytes_of (closed inside next)) }
{
    match (inside, next) {
        (Inside::Number(_), Inside::Number(_)) => Ok(()),
        (Inside::Number(n), _) => bytes.extend_from_slice(&n.to_le_bytes()),
        _ => Ok(()),
    }
}

// The numbers of `text`, four bytes each, or the first fault and its line.
pub fn encode(heap: Global, text: &[u8]) -> Result<Vec<u8>, Failure>
    ensures exact { elim result [ Ok v ↦ encoded text.now ≡ Ok v.items | Err e ↦ Refuses e (encoded text.now) ] }
    ensures means { elim result [ Ok v ↦ BytesFor text.now v.items | Err e ↦ RefusalMeans e text.now ] }
{
    let mut bytes = Vec::new(heap);
    let mut inside = Inside::Nothing;
    let mut ended = 0;
    for c in text {
        let line = ended + 1;
        let next = inside_after(inside, *c).map_err(|fault| Refusal { fault, line })?;
        push_closed(&mut bytes, inside, next)?;
        if *c == b'\n' {
            ended = line;
        }
        inside = next;
    }
    push_closed(&mut bytes, inside, Inside::Nothing)?;
    Ok(bytes)
}

#[cfg(test)]
mod tests {
    use super::encode;
    use crate::failure::Failure;
    use crate::refusal::{Fault, Refusal};
    use std::test::Fail;

    // The refusal of a text.
    fn refused(rt: &HostRuntime, text: &str) -> Option<Refusal> {
        match encode(rt.alloc(), text.as_bytes()) {
            Err(Failure::Text(refusal)) => Some(refusal),
            _ => None,
        }
    }

    #[test]
    fn four_bytes_a_number(rt: HostRuntime) -> Result<(), Fail> {
        let heap = rt.alloc();
        let text = "513 # a comment\r\n\t4294967295#another\n00007";
        let bytes = encode(heap, text.as_bytes())?;
        assert!(rt; bytes.as_slice() == [1, 2, 0, 0, 255, 255, 255, 255, 7, 0, 0, 0].as_slice());
        let empty = encode(heap, &[])?;
        assert!(rt; empty.as_slice() == [].as_slice());
        let comment = encode(heap, "1 # no line end".as_bytes())?;
        assert!(rt; comment.as_slice() == [1, 0, 0, 0].as_slice());
        Ok(())
    }

    #[test]
    fn faults(rt: HostRuntime) {
        let character = Fault::Character;
        let too_large = Fault::TooLarge;
        assert_eq!(rt;
            refused(&rt, "x"),
            Some(Refusal {
                fault: character,
                line: 1,
            })
        );
        assert_eq!(rt;
            refused(&rt, "1 # x\n\n2-3"),
            Some(Refusal {
                fault: character,
                line: 3,
            })
        );
        assert_eq!(rt;
            refused(&rt, "1\n4294967296 x"),
            Some(Refusal {
                fault: too_large,
                line: 2,
            })
        );
        assert_eq!(rt; refused(&rt, "# 4294967296 x"), None);
    }
}
